// Distributions, by their heights, and the guess from which a quantile is looked up.
ghost use Rattle.std.specs.Prelude.{◌≡◌, Float};
ghost use Rattle.models.specs.Heights.{Height, Lawful};

pub trait Distribution {
    ghost height: { Self → Height };

    // each implementation gives the proof of the two laws
    ghost lawful: { (d : Self) → Lawful (height d) };

    fn distribution(&self, x: f64) -> f64
        ensures { result ≡ height self.now x };
}

pub trait Inverse: Distribution {
    // What is known of a guess, under no law: `guesses d p r` may hold of any r.
    ghost guesses: { Self → Float → Float → Type 0 };

    fn inverse(&self, p: f64) -> f64
        ensures { guesses self.now p result };
}
