// Bits per reading: the entropy of a model, and its cross entropy with given weights.
ghost use Rattle.std.specs.Prelude.{◌≡◌, ◌^◌, ◌≤◌};
ghost use Rattle.measures.specs.Entropies.{weighed_rows, Entropy, Taken, CrossEntropy};

use crate::logarithm::Logarithm;
use crate::quantiles::quantiles;
use models::bits::BitArray;
use models::model::{EntropyModel, IterableEntropyModel};
use models::table::Rows;
use rounding::natural;

// The logarithm of a length.
fn log2_of<P: BitArray, L: Logarithm>(length: P) -> u64
    ensures value { result ≡ L.Logarithm.value (P.BitArray.value length) }
    ensures small { result ≤ 2 ^ 21 }
{
    L::log2(length.to_u64() as u32) as u64
}

// Length × logarithm, summed over all rows.
fn weigh_rows<M: IterableEntropyModel, L: Logarithm>(model: &M) -> u64
    requires { (M.EntropyModel.meaning model.now).bits ≤ 32 }
    ensures { result ≡ weighed_rows L.Logarithm.value (M.EntropyModel.meaning model.now) }
{
    let mut sum = 0u64;
    for (_, _, length) in Rows::of(model) {
        sum += length.to_u64() * log2_of::<M::Probability, L>(length);
    }
    sum
}

// The bits that a reading takes on average: P less the mean logarithm of a length.
pub fn entropy_base2<M: IterableEntropyModel, L: Logarithm>(model: &M) -> f64
    ensures { Entropy L.Logarithm.value (M.EntropyModel.meaning model.now) result }
{
    let parts = quantiles(model) * 65536;
    let sum = weigh_rows::<M, L>(model);
    natural(model.precision() as u64) - natural(sum) / natural(parts)
}

// The bits that a reading of this length takes: P less its logarithm.
fn bits_taken<P: BitArray, L: Logarithm>(precision: u32, length: P) -> f64
    ensures { Taken L.Logarithm.value precision (P.BitArray.value length) result }
{
    natural(precision as u64) - natural(log2_of::<P, L>(length)) / 65536.0
}

// The bits that readings take by their weights, the first weight for the first row: up to the shorter of the two lists.
pub fn cross_entropy_base2<M: IterableEntropyModel, L: Logarithm>(model: &M, weights: &[f64]) -> f64
    ensures { CrossEntropy L.Logarithm.value (M.EntropyModel.meaning model.now) weights.now result }
{
    let precision = model.precision();
    let mut sum = 0.0;
    let rows = Rows::of(model);
    for (weight, (_, _, length)) in weights.iter().zip(rows) {
        sum += *weight * bits_taken::<M::Probability, L>(precision, length);
    }
    sum
}
