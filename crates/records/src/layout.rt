// The 32 bytes of a channel record: which byte is at fault, and what the fields hold.
ghost use Rattle.std.specs.Prelude.{◌≡◌, ℕ, ◌+◌, ◌<◌, ◌≤◌, false, take, drop, MatchOption};
ghost use Rattle.records.specs.Record.{byte, code_of, Decodes, empty, at_fault, First, scale_of, fields_of, Lays};

use crate::fault::RecordFault;
use std::num::f64_from_bits_with_nan;

pub const RECORD_LEN: usize = 32;

// what scale bytes that are all zero stand for
const DEFAULT_SCALE: f64 = 16.0;

// What byte 0 of a record names.
#[derive(Clone, Copy, PartialEq, Eq, Debug)]
pub enum Kind {
    Uniform,
    Peak,
}

impl TryFrom<u8> for Kind {
    type Error = RecordFault;

    ghost try_from_gives = { Decodes };

    fn try_from(byte: u8) -> Result<Kind, RecordFault> {
        match byte {
            1 => Ok(Kind::Uniform),
            2 => Ok(Kind::Peak),
            _ => Err(RecordFault::Malformed(0)),
        }
    }
}

impl Kind {
    // Whether a record of this kind holds zero at a place.
    fn is_empty_at(self, place: usize) -> bool
        ensures { result ≡ empty (code_of self) place }
    {
        match place {
            2..=3 | 12..=15 => true,
            4..=7 | 16..=31 => self == Kind::Uniform,
            _ => false,
        }
    }
}

// What a record of kind 1 says of its channel.
#[derive(Clone, Copy)]
pub struct UniformFields {
    pub precision: u32,
    pub range: i64,
}

// What a record of kind 2 says of its channel.
#[derive(Clone, Copy)]
pub struct PeakFields {
    pub precision: u32,
    pub min: i32,
    pub max: i32,
    pub centre: f64,
    pub scale: f64,
}

// What a well-formed record says of its channel.
#[derive(Clone, Copy)]
pub enum Fields {
    Uniform(UniformFields),
    Peak(PeakFields),
}

// The place of the first byte at fault.
fn first_fault(kind: Kind, head: &[u8; RECORD_LEN]) -> Option<usize>
    requires { code_of kind ≡ byte head.now 0 }
    ensures { MatchOption result ((i : ℕ) → i < 32 → at_fault head.now i ≡ false) (λ p. First head.now p) }
{
    (0..RECORD_LEN).find(|place| kind.is_empty_at(*place) && head[*place] != 0)
}

// The N bytes from a place.
fn bytes_at<const N: usize>(head: &[u8; RECORD_LEN], place: usize) -> [u8; N]
    requires { place + N ≤ 32 }
    ensures { result ≡ take N (drop place head.now) }
{
    head[place..place + N].try_into().unwrap()
}

fn scale_of(bits: u64) -> f64
    ensures { result ≡ scale_of bits }
{
    if bits == 0 {
        DEFAULT_SCALE
    } else {
        f64_from_bits_with_nan(bits)
    }
}

fn read_fields(kind: Kind, head: &[u8; RECORD_LEN]) -> Fields
    requires { code_of kind ≡ byte head.now 0 }
    ensures { result ≡ fields_of head.now }
{
    let precision = head[1] as u32;
    let max = i32::from_le_bytes(bytes_at(head, 8));
    match kind {
        Kind::Uniform => Fields::Uniform(UniformFields {
            precision,
            range: max as i64 + 1,
        }),
        Kind::Peak => Fields::Peak(PeakFields {
            precision,
            min: i32::from_le_bytes(bytes_at(head, 4)),
            max,
            centre: f64_from_bits_with_nan(u64::from_le_bytes(bytes_at(head, 16))),
            scale: scale_of(u64::from_le_bytes(bytes_at(head, 24))),
        }),
    }
}

// The fields of a record, or its first fault of form. Only the first 32 bytes count.
pub fn layout(bytes: &[u8]) -> Result<Fields, RecordFault>
    ensures { Lays bytes.now result }
{
    let Some(head) = bytes.first_chunk() else {
        return Err(RecordFault::Malformed(bytes.len() as u32));
    };
    let kind = Kind::try_from(head[0])?;
    match first_fault(kind, head) {
        Some(place) => Err(RecordFault::Malformed(place as u32)),
        None => Ok(read_fields(kind, head)),
    }
}
