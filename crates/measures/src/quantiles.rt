// How many quantiles a model has: 2^P, which is at most 2^32.
ghost use Rattle.std.specs.Prelude.{◌≡◌, ◌^◌, ◌≤◌};

use models::bits::BitArray;
use models::model::{EntropyModel, IterableEntropyModel};

// 2^P. P is within the probability type's width, which is at most 32.
pub fn quantiles<M: IterableEntropyModel>(model: &M) -> u64
    ensures value { result ≡ 2 ^ (M.EntropyModel.meaning model.now).bits }
    ensures narrow { (M.EntropyModel.meaning model.now).bits ≤ 32 }
{
    1u64 << model.precision()
}
