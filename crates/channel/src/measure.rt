// The measures of a channel's model, as calls that only ask.
ghost use Rattle.std.specs.Option.{option_map};
ghost use Rattle.channel.specs.Answered.{shares_is};
ghost use Rattle.channel.specs.Events.{likely, tabled, measured, compared};
ghost use Rattle.channel.specs.Steps.{Asks, state_of};

use crate::walk::Channel;
use measures::entropy::{cross_entropy_base2, entropy_base2};
use measures::logarithm::Logarithm;
use measures::probability::{floating_point_probability, floating_point_symbol_table};
use models::model::{EncoderModel, EntropyModel, IterableEntropyModel};

impl<M: EncoderModel + IterableEntropyModel> Channel<M> {
    // The probability of a symbol, and 0 outside the support.
    pub fn floating_point_probability(&self, symbol: M::Symbol) -> f64
        ensures { Asks (state_of M.meaning self.now) (likely (M.Symbol.whole symbol) result) }
    {
        floating_point_probability(&self.model, symbol)
    }
}

impl<M: IterableEntropyModel> Channel<M> {
    // A row of the table by its index, its start and length as shares of 1, or `None` past the last. The walk stays where it is.
    pub fn floating_point_symbol_table(&self, index: usize) -> Option<(M::Symbol, f64, f64)>
        ensures { Asks (state_of M.meaning self.now) (tabled index (option_map (shares_is M.Symbol.whole) result)) }
    {
        floating_point_symbol_table(&self.model, index)
    }

    // The bits that a reading takes on average, by a logarithm.
    pub fn entropy_base2<L: Logarithm>(&self) -> f64
        ensures { Asks (state_of M.meaning self.now) (measured L.Logarithm.value result) }
    {
        entropy_base2::<M, L>(&self.model)
    }

    // The bits that readings take by their weights, the first weight for the first row.
    pub fn cross_entropy_base2<L: Logarithm>(&self, weights: &[f64]) -> f64
        ensures { Asks (state_of M.meaning self.now) (compared L.Logarithm.value weights.now result) }
    {
        cross_entropy_base2::<M, L>(&self.model, weights)
    }
}
