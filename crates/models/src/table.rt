// The rows of a model's table, one after the other.
ghost use Rattle.std.specs.Prelude.{◌≡◌, suc, ◌-◌, OnSome};
ghost use Rattle.std.specs.Iterator.{at_most};
ghost use Rattle.models.specs.Answers.{Lists};

use crate::model::{EntropyModel, IterableEntropyModel};

#[derive(Drop)]
pub struct Rows<'a, M> {
    model: &'a M,
    // the index of the next row
    row: usize,
}

impl<'a, M: IterableEntropyModel> Rows<'a, M> {
    // All rows, from the lowest symbol on.
    pub fn of(model: &'a M) -> Rows<'a, M>
        ensures { (result.model.now ≡ model.now) × (result.row ≡ 0) }
    {
        Rows { model, row: 0 }
    }
}

impl<'a, M: IterableEntropyModel> Iterator for Rows<'a, M> {
    type Item = (M::Symbol, M::Probability, M::Probability);

    ghost next_gives = { λ s r t. (t.model.now ≡ s.model.now) × Lists M.Symbol.Symbol.whole M.Probability.BitArray.value (M.EntropyModel.meaning s.model.now) s.row r × OnSome r (t.row ≡ suc s.row) };

    ghost remaining = { λ s. at_most (suc (M.EntropyModel.meaning s.model.now).span - s.row) };

    fn next(&mut self) -> Option<(M::Symbol, M::Probability, M::Probability)> {
        let row = self.model.symbol_table(self.row)?;
        self.row += 1;
        Some(row)
    }
}
