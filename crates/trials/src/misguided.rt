// A distribution with another's heights and two guesses of its own: one for the lower half of the quantiles, one for the upper.
ghost use Rattle.std.specs.Prelude.{◌≡◌};
ghost use Rattle.trials.specs.Misguided.{guess_at};

use models::distribution::{Distribution, Inverse};

#[derive(Clone, Copy, Drop)]
pub struct Misguided<D> {
    pub inner: D,
    pub low: f64,
    pub high: f64,
}

impl<D> Misguided<D> {
    // The same guess whatever is asked.
    pub fn constant(inner: D, guess: f64) -> Misguided<D>
        ensures { (result.inner ≡ inner) × (result.low ≡ guess) × (result.high ≡ guess) }
    {
        Misguided {
            inner,
            low: guess,
            high: guess,
        }
    }
}

impl<D: Distribution> Distribution for Misguided<D> {
    ghost height = { λ d. D.height d.inner };

    ghost lawful = { λ d. D.lawful d.inner };

    fn distribution(&self, x: f64) -> f64 {
        self.inner.distribution(x)
    }
}

impl<D: Distribution> Inverse for Misguided<D> {
    ghost guesses = { λ d p r. r ≡ guess_at d.low d.high p };

    fn inverse(&self, p: f64) -> f64 {
        if p < 0.5 { self.low } else { self.high }
    }
}
