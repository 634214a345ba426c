// The questions of a driver: each holds its buffers, and asks any model, entry by entry up to the shortest of them.
// The symbols, starts and lengths are three buffers because the C interface has three.
ghost use Rattle.std.specs.Prelude.{ℕ};
ghost use Rattle.models.specs.Meaning.{Meaning};
ghost use Rattle.bridge.specs.Entries.{Intervals, Found, Shares, Rows};

use crate::loops::{encode_each, find_each, next_each, probability_each};
use crate::wide::Wide;
use models::model::{DecoderModel, EncoderModel, EntropyModel, IterableEntropyModel};

pub(crate) trait Ask {
    // what the buffers hold once a model of this meaning has answered so many entries
    ghost answered: { Self → Meaning → ℕ → Type 0 };

    // Tells how many entries there were.
    fn of<M: EncoderModel + DecoderModel + IterableEntropyModel + Drop>(
        &mut self,
        model: M,
    ) -> usize
        ensures { answered self.new (M.EntropyModel.meaning model) result };
}

// The interval of a symbol.
#[derive(Drop)]
pub(crate) struct Encoding<'a, N, T> {
    pub(crate) symbols: &'a [N],
    pub(crate) starts: &'a mut [T],
    pub(crate) lengths: &'a mut [T],
}

impl<'a, N: Wide> Ask for Encoding<'a, N, u64> {
    ghost answered = { λ q m n. Intervals N.Wide.whole m n q.symbols.now q.starts.now q.lengths.now };

    fn of<M: EncoderModel + DecoderModel + IterableEntropyModel + Drop>(
        &mut self,
        model: M,
    ) -> usize {
        encode_each(&model, self.symbols, self.starts, self.lengths)
    }
}

// The row of a quantile.
#[derive(Drop)]
pub(crate) struct Searching<'a, N, T> {
    pub(crate) quantiles: &'a [T],
    pub(crate) symbols: &'a mut [N],
    pub(crate) starts: &'a mut [T],
    pub(crate) lengths: &'a mut [T],
}

impl<'a, N: Wide> Ask for Searching<'a, N, u64> {
    ghost answered = { λ q m n. Found N.Wide.whole N.Wide.least N.Wide.most m n q.quantiles.now q.symbols.now q.starts.now q.lengths.now };

    fn of<M: EncoderModel + DecoderModel + IterableEntropyModel + Drop>(
        &mut self,
        model: M,
    ) -> usize {
        find_each(
            &model,
            self.quantiles,
            self.symbols,
            self.starts,
            self.lengths,
        )
    }
}

// The probability of a symbol. With one lifetime the call of the loop is not covered.
#[derive(Drop)]
pub(crate) struct Weighing<'a, 'b, N> {
    pub(crate) symbols: &'a [N],
    pub(crate) shares: &'b mut [f64],
}

impl<'a, 'b, N: Wide> Ask for Weighing<'a, 'b, N> {
    ghost answered = { λ q m n. Shares N.Wide.whole m n q.symbols.now q.shares.now };

    fn of<M: EncoderModel + DecoderModel + IterableEntropyModel + Drop>(
        &mut self,
        model: M,
    ) -> usize {
        probability_each(&model, self.symbols, self.shares)
    }
}

// The first rows of the table.
#[derive(Drop)]
pub(crate) struct Walking<'a, N, T> {
    pub(crate) symbols: &'a mut [N],
    pub(crate) starts: &'a mut [T],
    pub(crate) lengths: &'a mut [T],
}

impl<'a, N: Wide> Ask for Walking<'a, N, u64> {
    ghost answered = { λ q m n. Rows N.Wide.whole m n q.symbols.now q.starts.now q.lengths.now };

    fn of<M: EncoderModel + DecoderModel + IterableEntropyModel + Drop>(
        &mut self,
        model: M,
    ) -> usize {
        next_each(model, self.symbols, self.starts, self.lengths)
    }
}
