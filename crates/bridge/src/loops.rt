// Each question, asked of any model for every entry of the buffers, by index: no clause knows what an adapter of `iter_mut` wrote.
// The symbols, starts and lengths are three buffers because the C interface has three.
ghost use Rattle.std.specs.Prelude.{◌≡◌, ℕ, ◌+◌, ◌<◌, ◌≤◌, min, length, None, OnSome, unwrap_or, slice_index_or};
ghost use Rattle.channel.specs.Pages.{KeptFrom};
ghost use Rattle.models.specs.Answers.{FromWhole};
ghost use Rattle.measures.specs.Shares.{Likely};
ghost use Rattle.bridge.specs.Entries.{EncodesTo, SearchesTo, NextTo, room, Intervals, Found, Shares, Rows};

use crate::wide::Wide;
use channel::walk::Channel;
use measures::probability::floating_point_probability;
use models::bits::BitArray;
use models::model::{DecoderModel, EncoderModel, EntropyModel, IterableEntropyModel};
use models::symbol::Symbol;

// The interval of a whole number, or the length 0 outside the support.
fn encode_one<M: EncoderModel + IterableEntropyModel, N: Wide>(model: &M, symbol: N) -> (u64, u64)
    ensures { EncodesTo (M.EntropyModel.meaning model.now) (N.Wide.whole symbol) result.0 result.1 }
{
    let Some(symbol) = M::Symbol::from_whole(symbol.to_whole()) else {
        // the type has what lies between the ends
        let _low = model.lowest_symbol().to_whole();
        let _high = model.highest_symbol().to_whole();
        return (0, 0);
    };
    model.left_cumulative_and_probability(symbol).map_or(
        (0, 0),
        |(start, length)| (start.to_u64(), length.to_u64()),
    )
}

// Asks for each entry of `asked`, as far as the shortest buffer reaches, and tells how many there were.
pub(crate) fn intervals_of<N: Copy, T: Copy, F: Fn(N) -> (T, T)>(
    of: F,
    asked: &[N],
    starts: &mut [T],
    lengths: &mut [T],
) -> usize
    requires { F.IsAlwaysCallable of }
    ensures count { result ≡ room asked.now starts.old lengths.old }
    ensures entries { (k : ℕ) (d : N) (e f : T) → k < result → F.post of (slice_index_or asked.now k d) (slice_index_or starts.new k e, slice_index_or lengths.new k f) }
    ensures starts { KeptFrom result starts.old starts.new }
    ensures lengths { KeptFrom result lengths.old lengths.new }
{
    let count = asked.len().min(starts.len().min(lengths.len()));
    for i in 0..count {
        let (start, length) = of(asked[i]);
        starts[i] = start;
        lengths[i] = length;
    }
    count
}

pub fn encode_each<M: EncoderModel + IterableEntropyModel, N: Wide>(
    model: &M,
    symbols: &[N],
    starts: &mut [u64],
    lengths: &mut [u64],
) -> usize
    ensures count { result ≡ room symbols.now starts.old lengths.old }
    ensures entries { Intervals N.Wide.whole (M.EntropyModel.meaning model.now) result symbols.now starts.new lengths.new }
    ensures starts { KeptFrom result starts.old starts.new }
    ensures lengths { KeptFrom result lengths.old lengths.new }
{
    intervals_of(
        |symbol: N| -> (u64, u64)
            ensures { EncodesTo (M.EntropyModel.meaning model.entry.now) (N.Wide.whole symbol) result.0 result.1 }
        { encode_one(model, symbol) },
        symbols,
        starts,
        lengths,
    )
}

// A symbol in the numbers of the buffers, where they have it.
fn widen<S: Symbol, N: Wide>(symbol: S) -> Option<N>
    ensures { FromWhole N.Wide.whole N.Wide.least N.Wide.most (S.Symbol.whole symbol) result }
{
    N::from_whole(symbol.to_whole())
}

// The row that holds a quantile, where there is one whose symbol the buffers have a number for; any symbol may stand in its place.
fn find_some<M: DecoderModel, N: Wide>(model: &M, quantile: u64) -> Option<(N, u64, u64)>
    ensures { (n : N) → (λ (r : N × ℕ × ℕ). SearchesTo N.Wide.whole N.Wide.least N.Wide.most (M.EntropyModel.meaning model.now) quantile r.0 r.1 r.2) (unwrap_or result (n, 0, 0)) }
{
    let quantile = M::Probability::from_u64(quantile)?;
    let (symbol, start, length) = model.quantile_function(quantile).ok()?;
    let symbol = widen::<M::Symbol, N>(symbol)?;
    Some((symbol, start.to_u64(), length.to_u64()))
}

// The row that holds a quantile, or the length 0 where there is none.
fn find_one<M: DecoderModel, N: Wide>(model: &M, quantile: u64) -> (N, u64, u64)
    ensures { SearchesTo N.Wide.whole N.Wide.least N.Wide.most (M.EntropyModel.meaning model.now) quantile result.0 result.1 result.2 }
{
    find_some(model, quantile).unwrap_or((N::zero(), 0, 0))
}

// The same of three buffers.
pub(crate) fn rows_of<Q: Copy, N: Copy, T: Copy, F: Fn(Q) -> (N, T, T)>(
    of: F,
    asked: &[Q],
    symbols: &mut [N],
    starts: &mut [T],
    lengths: &mut [T],
) -> usize
    requires { F.IsAlwaysCallable of }
    ensures count { result ≡ min (length asked.now) (room symbols.old starts.old lengths.old) }
    ensures entries { (k : ℕ) (d : Q) (n : N) (e f : T) → k < result → F.post of (slice_index_or asked.now k d) (slice_index_or symbols.new k n, slice_index_or starts.new k e, slice_index_or lengths.new k f) }
    ensures symbols { KeptFrom result symbols.old symbols.new }
    ensures starts { KeptFrom result starts.old starts.new }
    ensures lengths { KeptFrom result lengths.old lengths.new }
{
    let room = symbols.len().min(starts.len().min(lengths.len()));
    let count = asked.len().min(room);
    for i in 0..count {
        let (symbol, start, length) = of(asked[i]);
        symbols[i] = symbol;
        starts[i] = start;
        lengths[i] = length;
    }
    count
}

pub fn find_each<M: DecoderModel, N: Wide>(
    model: &M,
    quantiles: &[u64],
    symbols: &mut [N],
    starts: &mut [u64],
    lengths: &mut [u64],
) -> usize
    ensures count { result ≡ min (length quantiles.now) (room symbols.old starts.old lengths.old) }
    ensures entries { Found N.Wide.whole N.Wide.least N.Wide.most (M.EntropyModel.meaning model.now) result quantiles.now symbols.new starts.new lengths.new }
    ensures symbols { KeptFrom result symbols.old symbols.new }
    ensures starts { KeptFrom result starts.old starts.new }
    ensures lengths { KeptFrom result lengths.old lengths.new }
{
    rows_of(
        |quantile: u64| -> (N, u64, u64)
            ensures { SearchesTo N.Wide.whole N.Wide.least N.Wide.most (M.EntropyModel.meaning model.entry.now) quantile result.0 result.1 result.2 }
        { find_one(model, quantile) },
        quantiles,
        symbols,
        starts,
        lengths,
    )
}

// The probability of a whole number, 0 outside the support.
fn probability_one<M: EncoderModel + IterableEntropyModel, N: Wide>(model: &M, symbol: N) -> f64
    ensures { Likely (M.EntropyModel.meaning model.now) (N.Wide.whole symbol) result }
{
    let Some(symbol) = M::Symbol::from_whole(symbol.to_whole()) else {
        // the type has what lies between the ends
        let _low = model.lowest_symbol().to_whole();
        let _high = model.highest_symbol().to_whole();
        return 0.0;
    };
    floating_point_probability(model, symbol)
}

pub fn probability_each<M: EncoderModel + IterableEntropyModel, N: Wide>(
    model: &M,
    symbols: &[N],
    probabilities: &mut [f64],
) -> usize
    ensures count { result ≡ min (length symbols.now) (length probabilities.old) }
    ensures entries { Shares N.Wide.whole (M.EntropyModel.meaning model.now) result symbols.now probabilities.new }
    ensures kept { KeptFrom result probabilities.old probabilities.new }
{
    let count = symbols.len().min(probabilities.len());
    for i in 0..count {
        probabilities[i] = probability_one(model, symbols[i]);
    }
    count
}

// The next row of a walk, or `None` after the last.
fn next_one<M: IterableEntropyModel, N: Wide>(walk: &mut Channel<M>) -> Option<(N, u64, u64)>
    ensures model { walk.new.model ≡ walk.old.model }
    ensures onward { OnSome result (walk.new.row ≡ walk.old.row + 1) }
    ensures row { NextTo N.Wide.whole N.Wide.least N.Wide.most (M.EntropyModel.meaning walk.old.model) walk.old.row result }
{
    let (symbol, start, length) = walk.next()?;
    let symbol = widen::<M::Symbol, N>(symbol)?;
    Some((symbol, start.to_u64(), length.to_u64()))
}

// The first rows of the table, one call of next for each.
pub fn next_each<M: IterableEntropyModel + Drop, N: Wide>(
    model: M,
    symbols: &mut [N],
    starts: &mut [u64],
    lengths: &mut [u64],
) -> usize
    ensures count { result ≤ room symbols.old starts.old lengths.old }
    ensures entries { Rows N.Wide.whole (M.EntropyModel.meaning model) result symbols.new starts.new lengths.new }
    ensures ended { result < room symbols.old starts.old lengths.old → NextTo N.Wide.whole N.Wide.least N.Wide.most (M.EntropyModel.meaning model) result None }
    ensures symbols { KeptFrom result symbols.old symbols.new }
    ensures starts { KeptFrom result starts.old starts.new }
    ensures lengths { KeptFrom result lengths.old lengths.new }
{
    let count = symbols.len().min(starts.len().min(lengths.len()));
    let mut walk = Channel::open(model);
    for i in 0..count {
        let Some((symbol, start, length)) = next_one(&mut walk) else {
            return i;
        };
        symbols[i] = symbol;
        starts[i] = start;
        lengths[i] = length;
    }
    count
}
