// A channel: a model, and a walk over the rows of its table.
ghost use Rattle.std.specs.Prelude.{◌≡◌};
ghost use Rattle.std.specs.Option.{option_map};
ghost use Rattle.channel.specs.Answered.{pair_of, row_is, found_is};
ghost use Rattle.channel.specs.Events.{encoded, searched, stepped, rewound};
ghost use Rattle.channel.specs.Steps.{state_of, Asks, Step};

use models::fault::ModelFault;
use models::model::{DecoderModel, EncoderModel, EntropyModel, IterableEntropyModel};

#[derive(Drop)]
pub struct Channel<M> {
    pub(crate) model: M,
    // how many rows the present walk has handed out
    pub(crate) row: usize,
}

impl<M: EntropyModel> Channel<M> {
    // A channel over the model, its walk at row 0.
    pub fn open(model: M) -> Channel<M>
        ensures { (result.model ≡ model) × (result.row ≡ 0) }
    {
        Channel { model, row: 0 }
    }

    // Starts the walk over.
    pub fn rewind(&mut self)
        ensures model { self.new.model ≡ self.old.model }
        ensures step { Step (state_of M.meaning self.old) rewound (state_of M.meaning self.new) }
    {
        self.row = 0;
    }
}

impl<M: EncoderModel> Channel<M> {
    // The start and the length of the symbol's interval, or `None` outside the support.
    pub fn encode(&self, symbol: M::Symbol) -> Option<(M::Probability, M::Probability)>
        ensures { Asks (state_of M.meaning self.now) (encoded (M.Symbol.whole symbol) (option_map (pair_of M.Symbol.whole M.Probability.value) result)) }
    {
        self.model.left_cumulative_and_probability(symbol)
    }
}

impl<M: DecoderModel> Channel<M> {
    // The symbol whose interval holds the quantile, with its start and length.
    pub fn search(
        &self,
        quantile: M::Probability,
    ) -> Result<(M::Symbol, M::Probability, M::Probability), ModelFault>
        ensures { Asks (state_of M.meaning self.now) (searched (M.Probability.value quantile) (found_is M.Symbol.whole M.Probability.value result)) }
    {
        self.model.quantile_function(quantile)
    }
}

impl<M: IterableEntropyModel> Channel<M> {
    // The next row of the walk, or `None` after the last, which changes nothing.
    pub fn next(&mut self) -> Option<(M::Symbol, M::Probability, M::Probability)>
        ensures model { self.new.model ≡ self.old.model }
        ensures step { Step (state_of M.meaning self.old) (stepped (option_map (row_is M.Symbol.whole M.Probability.value) result)) (state_of M.meaning self.new) }
    {
        let row = self.model.symbol_table(self.row)?;
        self.row += 1;
        Some(row)
    }
}
