// A peak's height and its inverse.
ghost use Rattle.std.specs.Prelude.{◌≡◌};
ghost use Rattle.distributions.specs.Peak.{height_at, inverse_at};
ghost use Rattle.distributions.specs.PeakLaws.{limits_lawful};

use crate::peak::Peak;
use models::distribution::{Distribution, Inverse};

impl Distribution for Peak {
    ghost height = { λ d. height_at d.centre d.scale };

    ghost lawful = { λ d. limits_lawful d.centre d.scale d.limits };

    fn distribution(&self, x: f64) -> f64 {
        let z = (x - self.centre) / self.scale;
        if z < 0.0 {
            0.5 / (1.0 + (-z))
        } else {
            1.0 - 0.5 / (1.0 + z)
        }
    }
}

impl Inverse for Peak {
    ghost guesses = { λ d p r. r ≡ inverse_at d.centre d.scale p };

    fn inverse(&self, p: f64) -> f64 {
        if p < 0.5 {
            self.centre + self.scale * (1.0 - 0.5 / p)
        } else {
            self.centre + self.scale * (0.5 / (1.0 - p) - 1.0)
        }
    }
}
