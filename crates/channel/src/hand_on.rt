// A channel is a model as well: it answers what its model answers, wherever its walk stands.
ghost use Rattle.std.proofs.Common.{rules};

use crate::walk::Channel;
use models::fault::ModelFault;
use models::model::{DecoderModel, EncoderModel, EntropyModel, IterableEntropyModel};

impl<M: EntropyModel> EntropyModel for Channel<M> {
    type Symbol = M::Symbol;

    type Probability = M::Probability;

    ghost meaning = { λ c. M.EntropyModel.meaning c.model };

    ghost cuts = { λ c. M.EntropyModel.cuts c.model };

    ghost fits = { Prim.search rules };
}

impl<M: EncoderModel> EncoderModel for Channel<M> {
    fn left_cumulative_and_probability(
        &self,
        symbol: M::Symbol,
    ) -> Option<(M::Probability, M::Probability)> {
        self.model.left_cumulative_and_probability(symbol)
    }
}

impl<M: DecoderModel> DecoderModel for Channel<M> {
    fn quantile_function(
        &self,
        quantile: M::Probability,
    ) -> Result<(M::Symbol, M::Probability, M::Probability), ModelFault> {
        self.model.quantile_function(quantile)
    }
}

impl<M: IterableEntropyModel> IterableEntropyModel for Channel<M> {
    fn lowest_symbol(&self) -> M::Symbol {
        self.model.lowest_symbol()
    }

    fn highest_symbol(&self) -> M::Symbol {
        self.model.highest_symbol()
    }

    fn precision(&self) -> u32 {
        self.model.precision()
    }

    fn symbol_table(&self, index: usize) -> Option<(M::Symbol, M::Probability, M::Probability)> {
        self.model.symbol_table(index)
    }

    fn left_cumulative(&self, index: usize) -> Option<u64> {
        self.model.left_cumulative(index)
    }
}
