// The calls of a driver on quantized models.
use crate::ask::Asking;
use crate::question::{Encoding, Searching, Walking, Weighing};
use crate::refused::status;
use crate::request::Request;

#[unsafe(no_mangle)]
pub extern "C" fn bridge_encode(
    request: &Request,
    knots: &[u32],
    symbols: &[i64],
    starts: &mut [u64],
    lengths: &mut [u64],
) -> i32 {
    let question = Encoding {
        symbols,
        starts,
        lengths,
    };
    let asking = Asking {
        request,
        knots,
        question,
    };
    status(asking.put())
}

#[unsafe(no_mangle)]
pub extern "C" fn bridge_find(
    request: &Request,
    knots: &[u32],
    quantiles: &[u64],
    symbols: &mut [i64],
    starts: &mut [u64],
    lengths: &mut [u64],
) -> i32 {
    let question = Searching {
        quantiles,
        symbols,
        starts,
        lengths,
    };
    let asking = Asking {
        request,
        knots,
        question,
    };
    status(asking.put())
}

#[unsafe(no_mangle)]
pub extern "C" fn bridge_probability(
    request: &Request,
    knots: &[u32],
    symbols: &[i64],
    probabilities: &mut [f64],
) -> i32 {
    let question = Weighing {
        symbols,
        shares: probabilities,
    };
    let asking = Asking {
        request,
        knots,
        question,
    };
    status(asking.put())
}

#[unsafe(no_mangle)]
pub extern "C" fn bridge_rows(
    request: &Request,
    knots: &[u32],
    symbols: &mut [i64],
    starts: &mut [u64],
    lengths: &mut [u64],
    count: &mut usize,
) -> i32 {
    let question = Walking {
        symbols,
        starts,
        lengths,
    };
    let asking = Asking {
        request,
        knots,
        question,
    };
    status(asking.put().map(|rows| *count = rows))
}
