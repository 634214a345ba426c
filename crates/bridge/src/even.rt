// The calls of a driver on uniform models, of 16 or 32 bits.
use crate::question::{Ask, Encoding, Searching, Weighing};
use crate::refused::{Refused, status};
use models::bits::BitArray;
use uniform::model::UniformModel;

// A uniform model as C asks for it.
#[derive(Clone, Copy)]
struct Even {
    width: u32,
    precision: u32,
    range: u64,
}

// At a width.
fn ask_range<P: BitArray, Q: Ask>(even: Even, question: &mut Q) -> Result<usize, Refused> {
    let model = UniformModel::<P>::new(even.precision, even.range as usize)?;
    Ok(question.of(model))
}

// At the width that is asked for.
fn ask_width<Q: Ask>(even: Even, question: &mut Q) -> Result<usize, Refused> {
    // A number of the C interface, matched where it chooses a type.
    match even.width {
        16 => ask_range::<u16, Q>(even, question),
        32 => ask_range::<u32, Q>(even, question),
        _ => Err(Refused::NoneSuch),
    }
}

#[unsafe(no_mangle)]
pub extern "C" fn bridge_uniform_encode(
    width: u32,
    precision: u32,
    range: u64,
    symbols: &[u64],
    starts: &mut [u64],
    lengths: &mut [u64],
) -> i32 {
    let even = Even {
        width,
        precision,
        range,
    };
    let mut question = Encoding {
        symbols,
        starts,
        lengths,
    };
    status(ask_width(even, &mut question))
}

#[unsafe(no_mangle)]
pub extern "C" fn bridge_uniform_find(
    width: u32,
    precision: u32,
    range: u64,
    quantiles: &[u64],
    symbols: &mut [u64],
    starts: &mut [u64],
    lengths: &mut [u64],
) -> i32 {
    let even = Even {
        width,
        precision,
        range,
    };
    let mut question = Searching {
        quantiles,
        symbols,
        starts,
        lengths,
    };
    status(ask_width(even, &mut question))
}

#[unsafe(no_mangle)]
pub extern "C" fn bridge_uniform_probability(
    width: u32,
    precision: u32,
    range: u64,
    symbols: &[u64],
    probabilities: &mut [f64],
) -> i32 {
    let even = Even {
        width,
        precision,
        range,
    };
    let mut question = Weighing {
        symbols,
        shares: probabilities,
    };
    status(ask_width(even, &mut question))
}
