// Pages of a table: rows written into three buffers of the caller, as the rules and the C interface have them.
ghost use Rattle.std.specs.Prelude.{◌≡◌, suc, ◌+◌, ◌<◌, ◌≤◌, length, pos, ◌+ℤ◌};
ghost use Rattle.models.specs.Answers.{IsRow};
ghost use Rattle.channel.specs.Answered.{buffers_of};
ghost use Rattle.channel.specs.Events.{filled};
ghost use Rattle.channel.specs.Pages.{KeptFrom, Written};
ghost use Rattle.channel.specs.Steps.{at, state_of, Filled, Step};

use crate::walk::Channel;
use models::bits::BitArray;
use models::model::{EntropyModel, IterableEntropyModel};
use models::symbol::Symbol;

// How many rows the table has.
fn rows<M: IterableEntropyModel>(model: &M) -> usize
    ensures { result ≡ suc (M.EntropyModel.meaning model.now).span }
{
    let low = model.lowest_symbol().to_whole();
    let high = model.highest_symbol().to_whole();
    (high - low) as usize + 1
}

// The symbol of a row.
fn symbol<M: IterableEntropyModel>(model: &M, row: usize) -> M::Symbol
    requires { row ≤ (M.EntropyModel.meaning model.now).span }
    ensures { M.Symbol.Symbol.whole result ≡ (M.EntropyModel.meaning model.now).low +ℤ pos row }
{
    // the type has what lies between the ends
    let _high = model.highest_symbol().to_whole();
    model.lowest_symbol().above(row as u64)
}

// Where a row starts or, one past the last, where that ends.
fn boundary<M: IterableEntropyModel>(model: &M, row: usize) -> u64
    requires { row ≤ suc (M.EntropyModel.meaning model.now).span }
    ensures { result ≡ (M.EntropyModel.meaning model.now).start row }
{
    let Some(start) = model.left_cumulative(row) else {
        unreachable()
    };
    start
}

// A row, from where it starts and ends.
fn entry<M: IterableEntropyModel>(
    model: &M,
    row: usize,
    start: u64,
    end: u64,
) -> (M::Symbol, M::Probability, M::Probability)
    requires within { row ≤ (M.EntropyModel.meaning model.now).span }
    requires starts { start ≡ (M.EntropyModel.meaning model.now).start row }
    requires ends { end ≡ (M.EntropyModel.meaning model.now).start (suc row) }
    ensures { IsRow M.Symbol.Symbol.whole M.Probability.BitArray.value (M.EntropyModel.meaning model.now) row result }
{
    (
        symbol(model, row),
        M::Probability::wrapping_from_u64(start),
        M::Probability::wrapping_from_u64(end - start),
    )
}

// Writes rows from the index `first` on, one height a row. By index: no clause knows what a zip of `iter_mut` wrote.
fn write_rows<M: IterableEntropyModel>(
    model: &M,
    first: usize,
    count: usize,
    symbols: &mut [M::Symbol],
    starts: &mut [M::Probability],
    lengths: &mut [M::Probability],
)
    requires rows { first + count ≤ suc (M.EntropyModel.meaning model.now).span }
    requires symbols { count ≤ length symbols.old }
    requires starts { count ≤ length starts.old }
    requires lengths { count ≤ length lengths.old }
    ensures written { Written M.Symbol.Symbol.whole M.Probability.BitArray.value (M.EntropyModel.meaning model.now) first count symbols.new starts.new lengths.new }
    ensures symbols { KeptFrom count symbols.old symbols.new }
    ensures starts { KeptFrom count starts.old starts.new }
    ensures lengths { KeptFrom count lengths.old lengths.new }
{
    let mut start = boundary(model, first);
    for i in 0..count {
        let row = first + i;
        let end = boundary(model, row + 1);
        let (symbol, left, length) = entry(model, row, start, end);
        symbols[i] = symbol;
        starts[i] = left;
        lengths[i] = length;
        start = end;
    }
}

// Writes the rows from the index `first` on into the buffers, as many as the shortest holds and as are left, and tells how many.
pub fn page<M: IterableEntropyModel>(
    model: &M,
    first: usize,
    symbols: &mut [M::Symbol],
    starts: &mut [M::Probability],
    lengths: &mut [M::Probability],
) -> usize
    ensures { Filled (at (M.EntropyModel.meaning model.now) first) (buffers_of M.Symbol.Symbol.whole M.Probability.BitArray.value symbols.old starts.old lengths.old) (buffers_of M.Symbol.Symbol.whole M.Probability.BitArray.value symbols.new starts.new lengths.new) result }
{
    let room = symbols.len().min(starts.len().min(lengths.len()));
    let count = room.min(rows(model).saturating_sub(first));
    if count > 0 {
        write_rows(model, first, count, symbols, starts, lengths);
    }
    count
}

impl<M: IterableEntropyModel> Channel<M> {
    // Writes the next rows of the walk into the buffers, as many as the shortest holds and as are left, and tells how many.
    pub fn fill(
        &mut self,
        symbols: &mut [M::Symbol],
        starts: &mut [M::Probability],
        lengths: &mut [M::Probability],
    ) -> usize
        ensures model { self.new.model ≡ self.old.model }
        ensures step { Step (state_of M.meaning self.old) (filled (buffers_of M.Symbol.whole M.Probability.value symbols.old starts.old lengths.old) (buffers_of M.Symbol.whole M.Probability.value symbols.new starts.new lengths.new) result) (state_of M.meaning self.new) }
    {
        let count = page(&self.model, self.row, symbols, starts, lengths);
        self.row += count;
        count
    }
}
