// Probabilities as floats: a start or a length over 2^P, which is exact.
ghost use Rattle.measures.specs.Shares.{Likely, ListsShares};

use crate::quantiles::quantiles;
use models::bits::BitArray;
use models::model::{EncoderModel, EntropyModel, IterableEntropyModel};
use rounding::natural;

// The probability of a symbol: its length over 2^P, and 0 outside the support.
pub fn floating_point_probability<M: EncoderModel + IterableEntropyModel>(
    model: &M,
    symbol: M::Symbol,
) -> f64
    ensures { Likely (M.EntropyModel.meaning model.now) (M.Symbol.Symbol.whole symbol) result }
{
    let Some((_, p)) = model.left_cumulative_and_probability(symbol) else {
        return 0.0;
    };
    natural(p.to_u64()) / natural(quantiles(model))
}

// A row of the table by its index from 0: its symbol, and its start and length over 2^P, or `None` past the last.
pub fn floating_point_symbol_table<M: IterableEntropyModel>(
    model: &M,
    index: usize,
) -> Option<(M::Symbol, f64, f64)>
    ensures { ListsShares M.Symbol.Symbol.whole (M.EntropyModel.meaning model.now) index result }
{
    let (symbol, left, length) = model.symbol_table(index)?;
    let whole = natural(quantiles(model));
    Some((
        symbol,
        natural(left.to_u64()) / whole,
        natural(length.to_u64()) / whole,
    ))
}
