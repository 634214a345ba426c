// Entropy models: what one means, and the calls that answer by it.
ghost use Rattle.std.specs.Prelude.{◌≡◌, ◌≤◌, pos, ◌+ℤ◌};
ghost use Rattle.models.specs.Meaning.{Meaning, Partition};
ghost use Rattle.models.specs.Answers.{Encodes, Lists, Searches, Starts};

use crate::bits::BitArray;
use crate::fault::ModelFault;
use crate::symbol::Symbol;

pub trait EntropyModel {
    type Symbol: Symbol;

    type Probability: BitArray;

    ghost meaning: { Self → Meaning };

    // The starts cut [0, 2^P).
    ghost cuts: { (m : Self) → Partition (meaning m) };
    // P is within the probability type's width.
    ghost fits: { (m : Self) → (meaning m).bits ≤ Self.Probability.BitArray.width };
}

pub trait EncoderModel: EntropyModel {
    // The start and the length of the symbol's interval, or `None` outside the support.
    fn left_cumulative_and_probability(
        &self,
        symbol: Self::Symbol,
    ) -> Option<(Self::Probability, Self::Probability)>
        ensures { Encodes Self.Probability.BitArray.value (Self.EntropyModel.meaning self.now) (Self.Symbol.Symbol.whole symbol) result };
}

pub trait DecoderModel: EntropyModel {
    // The symbol whose interval holds the quantile, with its start and length.
    fn quantile_function(
        &self,
        quantile: Self::Probability,
    ) -> Result<(Self::Symbol, Self::Probability, Self::Probability), ModelFault>
        ensures { Searches Self.Symbol.Symbol.whole Self.Probability.BitArray.value (Self.EntropyModel.meaning self.now) (Self.Probability.BitArray.value quantile) result };
}

pub trait IterableEntropyModel: EntropyModel {
    fn lowest_symbol(&self) -> Self::Symbol
        ensures { Self.Symbol.Symbol.whole result ≡ (Self.EntropyModel.meaning self.now).low };

    fn highest_symbol(&self) -> Self::Symbol
        ensures { Self.Symbol.Symbol.whole result ≡ (Self.EntropyModel.meaning self.now).low +ℤ pos (Self.EntropyModel.meaning self.now).span };

    fn precision(&self) -> u32
        ensures { result ≡ (Self.EntropyModel.meaning self.now).bits };

    // The row with this index, counted from 0 at the lowest symbol, or `None` past the last.
    fn symbol_table(
        &self,
        index: usize,
    ) -> Option<(Self::Symbol, Self::Probability, Self::Probability)>
        ensures { Lists Self.Symbol.Symbol.whole Self.Probability.BitArray.value (Self.EntropyModel.meaning self.now) index result };

    // Where the row with this index starts, or, one past the last, where that ends. `None` beyond.
    fn left_cumulative(&self, index: usize) -> Option<u64>
        ensures { Starts (Self.EntropyModel.meaning self.now) index result };
}
