// A few lines, records and faults.
use crate::fault::{RecordFault, Refusal};
use crate::layout::{Fields, layout};
use crate::listing::{push_channel, push_refused, push_row};
use crate::opening::open_record;
use distributions::fault::DistributionFault;
use models::fault::ModelFault;
use std::test::Fail;

#[test]
fn lines(rt: HostRuntime) -> Result<(), Fail> {
    let mut out = Vec::new(rt.alloc());
    push_channel(&mut out, 4_294_967_295)?;
    push_row(&mut out, -2_147_483_648, 0, 4_294_967_295)?;
    push_row(&mut out, 10, 9, 1_000_000_000)?;
    push_refused(
        &mut out,
        Refusal {
            channel: 7,
            fault: RecordFault::Malformed(31),
        },
    )?;
    assert!(rt;
        out.as_slice()
            == b"channel 4294967295\n-2147483648 0 4294967295\n10 9 1000000000\nchannel 7 refused 1 8 31\n".as_slice()
    );
    Ok(())
}

#[test]
fn words(rt: HostRuntime) -> Result<(), Fail> {
    for (fault, word) in [
        (RecordFault::Malformed(31), "record"),
        (RecordFault::Model(ModelFault::Range), "range"),
        (
            RecordFault::Distribution(DistributionFault::Knots(7)),
            "knots",
        ),
    ] {
        assert_eq!(rt; fault.to_string(rt.alloc())?.as_str(), word);
    }
    Ok(())
}

// The fault of a uniform record with one byte changed.
fn fault_with(place: usize, byte: u8) -> Option<RecordFault> {
    let mut bytes = [0u8; 32];
    bytes[0] = 1;
    bytes[1] = 5;
    bytes[8] = 3;
    if let Some(changed) = bytes.get_mut(place) {
        *changed = byte;
    }
    open_record(&bytes).err()
}

#[test]
fn places(rt: HostRuntime) {
    assert_eq!(rt; fault_with(2, 0), None);
    assert_eq!(rt; fault_with(0, 3), Some(RecordFault::Malformed(0)));
    assert_eq!(rt; fault_with(5, 1), Some(RecordFault::Malformed(5)));
    assert_eq!(rt; fault_with(15, 1), Some(RecordFault::Malformed(15)));
    assert_eq!(rt; fault_with(31, 128), Some(RecordFault::Malformed(31)));
    assert_eq!(rt;
        fault_with(1, 33),
        Some(RecordFault::Model(ModelFault::Precision))
    );
    assert_eq!(rt;
        fault_with(11, 128),
        Some(RecordFault::Model(ModelFault::Range))
    );
}

#[test]
fn peak(rt: HostRuntime) -> Result<(), Fail> {
    let mut bytes = [0u8; 32];
    bytes[0] = 2;
    bytes[1] = 5;
    bytes[4] = 254;
    bytes[5] = 255;
    bytes[6] = 255;
    bytes[7] = 255;
    bytes[8] = 3;
    bytes[22] = 0xE0;
    bytes[23] = 0x3F;
    let Ok(Fields::Peak(fields)) = layout(&bytes) else {
        return Err(Fail::new("a Peak"));
    };
    assert_eq!(rt; fields.precision, 5);
    assert_eq!(rt; fields.min, -2);
    assert_eq!(rt; fields.max, 3);
    assert!(rt; fields.centre == 0.5);
    assert!(rt; fields.scale == 16.0);
    Ok(())
}
