// Some values, and a model of two symbols.
ghost use Rattle.std.specs.Prelude.{◌*◌, pos};
ghost use Rattle.std.proofs.Common.{lit<, refl, rules};
ghost use Rattle.std.proofs.Math.Nat.{lt-suc_self, mul-lt-mul_of_pos_right};

use crate::entropy::{cross_entropy_base2, entropy_base2};
use crate::logarithm::{Coarse, Fine, Logarithm};
use crate::probability::{floating_point_probability, floating_point_symbol_table};
use models::model::{EncoderModel, EntropyModel, IterableEntropyModel};

// Two symbols, 0 and 1, of eight quantiles each.
struct Coin;

impl EntropyModel for Coin {
    type Symbol = usize;

    type Probability = u16;

    ghost meaning = { λ _. record { low = pos 0; span = 1; bits = 4; start = λ i. i * 8 } };

    ghost cuts = { λ _. record { some = lit< tt; first = refl; rises = λ i _. mul-lt-mul_of_pos_right (lt-suc_self i) (lit< tt); last = refl } };

    ghost fits = { Prim.search rules };
}

impl EncoderModel for Coin {
    fn left_cumulative_and_probability(&self, symbol: usize) -> Option<(u16, u16)> {
        if symbol > 1 {
            return None;
        }
        Some((symbol as u16 * 8, 8))
    }
}

impl IterableEntropyModel for Coin {
    fn lowest_symbol(&self) -> usize {
        0
    }

    fn highest_symbol(&self) -> usize {
        1
    }

    fn precision(&self) -> u32 {
        4
    }

    fn symbol_table(&self, index: usize) -> Option<(usize, u16, u16)> {
        if index > 1 {
            return None;
        }
        Some((index, index as u16 * 8, 8))
    }

    fn left_cumulative(&self, index: usize) -> Option<u64> {
        if index > 2 {
            return None;
        }
        Some(index as u64 * 8)
    }
}

#[test]
fn logarithms(rt: HostRuntime) {
    assert_eq!(rt; Fine::log2(3), 103872);
    assert_eq!(rt; Fine::log2(8), 196608);
    assert_eq!(rt; Coarse::log2(0), 0);
    assert_eq!(rt; Coarse::log2(1), 0);
    assert_eq!(rt; Coarse::log2(4294967295), 2031616);
}

#[test]
fn a_coin_takes_one_bit(rt: HostRuntime) {
    assert!(rt; entropy_base2::<Coin, Fine>(&Coin) == 1.0);
    assert!(rt; cross_entropy_base2::<Coin, Coarse>(&Coin, &[0.25, 0.5, 8.0]) == 0.75);
    assert!(rt; floating_point_probability(&Coin, 1) == 0.5);
    assert!(rt; floating_point_probability(&Coin, 2) == 0.0);
    assert!(rt; floating_point_symbol_table(&Coin, 2).is_none());
}
