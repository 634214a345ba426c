// A flat distribution: one height everywhere, and the guess 0.
ghost use Rattle.std.specs.Prelude.{◌≡◌, true, false, MatchOption};
ghost use Rattle.distributions.specs.Peak.{within};
ghost use Rattle.rounding.specs.Fractions.{nought, half, one};
ghost use Rattle.trials.specs.Flat.{flat, within_lawful};

use models::distribution::{Distribution, Inverse};

#[derive(Clone, Copy)]
pub struct Flat {
    height: f64,
    ghost limits: { within nought one height ≡ true },
}

impl Flat {
    // The height 0.5 everywhere.
    pub fn half() -> Flat
        ensures { result.height ≡ half }
    {
        Flat { height: 0.5 }
    }

    // The same height everywhere, which has to lie from 0 to 1.
    pub fn of(height: f64) -> Option<Flat>
        ensures { MatchOption result (within nought one height ≡ false) (λ d. d.height ≡ height) }
    {
        if (0.0..=1.0).contains(&height) {
            Some(Flat { height })
        } else {
            None
        }
    }
}

impl Distribution for Flat {
    ghost height = { λ d. flat d.height };

    ghost lawful = { λ d. within_lawful d.height d.limits };

    fn distribution(&self, x: f64) -> f64 {
        self.height
    }
}

impl Inverse for Flat {
    ghost guesses = { λ d p r. r ≡ nought };

    fn inverse(&self, p: f64) -> f64 {
        0.0
    }
}
