// Retuning: a model takes new heights over its support, and the walk starts over.
ghost use Rattle.models.specs.Heights.{Height};
ghost use Rattle.channel.specs.Events.{retuned};
ghost use Rattle.channel.specs.Steps.{state_of, Retuned, Step};

use crate::walk::Channel;
use models::bits::BitArray;
use models::distribution::Distribution;
use models::model::EntropyModel;
use quantize::narrow::NarrowSymbol;
use quantize::quantizer::LeakilyQuantizedDistribution;

pub trait Tunable: EntropyModel {
    type Tuning;

    ghost heights: { Self.Tuning → Height };

    // The same support and precision under new heights.
    fn tuned(&self, tuning: Self::Tuning) -> Self
    where
        Self: Sized,
        ensures { Retuned (Self.EntropyModel.meaning self.now) (heights tuning) (Self.EntropyModel.meaning result) };
}

impl<S: NarrowSymbol, P: BitArray, D: Distribution> Tunable
    for LeakilyQuantizedDistribution<S, P, D> {
    type Tuning = D;

    ghost heights = { D.Distribution.height };

    fn tuned(&self, tuning: D) -> LeakilyQuantizedDistribution<S, P, D> {
        self.quantizer().quantize(tuning)
    }
}

impl<M: Tunable + Drop> Channel<M> {
    // Takes a new distribution, and starts the walk over.
    pub fn retune(&mut self, tuning: M::Tuning)
        ensures { Step (state_of M.meaning self.old) (retuned (M.Tunable.heights tuning)) (state_of M.meaning self.new) }
    {
        self.model = self.model.tuned(tuning);
        self.row = 0;
    }
}
