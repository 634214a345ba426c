// Loops for timing: i32 symbols, u32 probabilities, typed buffers and no conversion. The C interface has three buffers for a row.
ghost use Rattle.std.specs.Prelude.{◌≡◌, suc, ◌<◌, min, length, ℤ, pos, negsuc};
ghost use Rattle.channel.specs.Steps.{itself};
ghost use Rattle.bridge.specs.Entries.{EncodesTo, SearchesTo, room, Intervals, Found};

use crate::ask::quantizer;
use crate::loops::{intervals_of, rows_of};
use crate::question::{Encoding, Searching, Walking};
use crate::refused::{Refused, status};
use crate::request::Request;
use channel::walk::Channel;
use distributions::peak::Peak;
use models::model::{DecoderModel, EncoderModel, EntropyModel, IterableEntropyModel};
use trials::misguided::Misguided;

// The interval of a symbol, or the length 0 outside the support.
fn interval_of<M: EncoderModel<Symbol = i32, Probability = u32>>(
    model: &M,
    symbol: i32,
) -> (u32, u32)
    ensures { EncodesTo (M.EntropyModel.meaning model.now) symbol result.0 result.1 }
{
    model
        .left_cumulative_and_probability(symbol)
        .unwrap_or((0, 0))
}

fn pace_encode<M: EncoderModel<Symbol = i32, Probability = u32>>(
    model: &M,
    symbols: &[i32],
    starts: &mut [u32],
    lengths: &mut [u32],
)
    ensures { Intervals {N = ℤ} itself (M.EntropyModel.meaning model.now) (room symbols.now starts.old lengths.old) symbols.now starts.new lengths.new }
{
    let _count = intervals_of(
        |symbol: i32| -> (u32, u32)
            ensures { EncodesTo (M.EntropyModel.meaning model.entry.now) symbol result.0 result.1 }
        { interval_of(model, symbol) },
        symbols,
        starts,
        lengths,
    );
}

// The row of a quantile, or the length 0 where there is none.
fn row_of<M: DecoderModel<Symbol = i32, Probability = u32>>(
    model: &M,
    quantile: u32,
) -> (i32, u32, u32)
    ensures { SearchesTo {N = ℤ} itself (negsuc 2147483647) (pos 2147483647) (M.EntropyModel.meaning model.now) quantile result.0 result.1 result.2 }
{
    model.quantile_function(quantile).unwrap_or((0, 0, 0))
}

fn pace_find<M: DecoderModel<Symbol = i32, Probability = u32>>(
    model: &M,
    quantiles: &[u32],
    symbols: &mut [i32],
    starts: &mut [u32],
    lengths: &mut [u32],
)
    ensures { Found {N = ℤ} itself (negsuc 2147483647) (pos 2147483647) (M.EntropyModel.meaning model.now) (min (length quantiles.now) (room symbols.old starts.old lengths.old)) quantiles.now symbols.new starts.new lengths.new }
{
    let _count = rows_of(
        |quantile: u32| -> (i32, u32, u32)
            ensures { SearchesTo {N = ℤ} itself (negsuc 2147483647) (pos 2147483647) (M.EntropyModel.meaning model.entry.now) quantile result.0 result.1 result.2 }
        { row_of(model, quantile) },
        quantiles,
        symbols,
        starts,
        lengths,
    );
}

// Walks the whole table, page after page into the same buffers, and tells how many rows came.
fn pace_rows<M: IterableEntropyModel + Drop>(
    model: M,
    symbols: &mut [M::Symbol],
    starts: &mut [M::Probability],
    lengths: &mut [M::Probability],
) -> u64
    ensures { 0 < room symbols.old starts.old lengths.old → result ≡ suc (M.EntropyModel.meaning model).span }
{
    let mut channel = Channel::open(model);
    let mut rows = 0u64;
    loop {
        let count = channel.fill(symbols, starts, lengths);
        if count == 0 {
            break;
        }
        rows += count as u64;
    }
    rows
}

// A question that is timed, and how many rows it walked: 0 where it walks none.
trait Pace {
    fn over<
        M: EncoderModel<Symbol = i32, Probability = u32>
            + DecoderModel
            + IterableEntropyModel
            + Drop,
    >(&mut self, model: M) -> u64;
}

impl<'a> Pace for Encoding<'a, i32, u32> {
    fn over<
        M: EncoderModel<Symbol = i32, Probability = u32>
            + DecoderModel
            + IterableEntropyModel
            + Drop,
    >(&mut self, model: M) -> u64 {
        pace_encode(&model, self.symbols, self.starts, self.lengths);
        0
    }
}

impl<'a> Pace for Searching<'a, i32, u32> {
    fn over<
        M: EncoderModel<Symbol = i32, Probability = u32>
            + DecoderModel
            + IterableEntropyModel
            + Drop,
    >(&mut self, model: M) -> u64 {
        pace_find(
            &model,
            self.quantiles,
            self.symbols,
            self.starts,
            self.lengths,
        );
        0
    }
}

impl<'a> Pace for Walking<'a, i32, u32> {
    fn over<
        M: EncoderModel<Symbol = i32, Probability = u32>
            + DecoderModel
            + IterableEntropyModel
            + Drop,
    >(&mut self, model: M) -> u64 {
        pace_rows(model, self.symbols, self.starts, self.lengths)
    }
}

// Runs a loop over the Peak that is asked for, with the guess that is asked for: typed buffers, so that no conversion is timed.
fn run<R: Pace>(request: &Request, pace: &mut R) -> Result<u64, Refused> {
    let quantizer = quantizer::<i32, u32>(request)?;
    let peak = Peak::new(request.a, request.b)?;
    // A number of the C interface, matched where it chooses a type.
    match request.guessing {
        0 => Ok(pace.over(quantizer.quantize(peak))),
        1 => {
            let guess = request.guess;
            Ok(pace.over(quantizer.quantize(Misguided::constant(peak, guess))))
        }
        _ => Err(Refused::NoneSuch),
    }
}

#[unsafe(no_mangle)]
pub extern "C" fn bridge_pace_encode(
    request: &Request,
    symbols: &[i32],
    starts: &mut [u32],
    lengths: &mut [u32],
) -> i32 {
    let mut pace = Encoding {
        symbols,
        starts,
        lengths,
    };
    status(run(request, &mut pace))
}

#[unsafe(no_mangle)]
pub extern "C" fn bridge_pace_find(
    request: &Request,
    quantiles: &[u32],
    symbols: &mut [i32],
    starts: &mut [u32],
    lengths: &mut [u32],
) -> i32 {
    let mut pace = Searching {
        quantiles,
        symbols,
        starts,
        lengths,
    };
    status(run(request, &mut pace))
}

#[unsafe(no_mangle)]
pub extern "C" fn bridge_pace_rows(
    request: &Request,
    symbols: &mut [i32],
    starts: &mut [u32],
    lengths: &mut [u32],
    rows: &mut u64,
) -> i32 {
    let mut pace = Walking {
        symbols,
        starts,
        lengths,
    };
    status(run(request, &mut pace).map(|count| *rows = count))
}
