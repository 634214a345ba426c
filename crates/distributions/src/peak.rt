// Peak: one bump around a centre. Half the mass lies on each side.
mod heights;

ghost use Rattle.std.specs.Prelude.{◌≡◌, true};
ghost use Rattle.models.specs.Answers.{Makes};
ghost use Rattle.distributions.specs.Peak.{in_limits, refusal, Shaped};

use crate::fault::DistributionFault;

// 2^40, how far a centre may lie from zero, and the widest scale
const FAR: f64 = 1099511627776.0;

// 2^-20, the narrowest scale
const NARROW: f64 = 1.0 / 1048576.0;

#[derive(Clone, Copy)]
pub struct Peak {
    centre: f64,
    scale: f64,
    ghost limits: { in_limits centre scale ≡ true },
}

fn in_limits(centre: f64, scale: f64) -> bool
    ensures { result ≡ in_limits centre scale }
{
    (-FAR..=FAR).contains(&centre) && (NARROW..=FAR).contains(&scale)
}

impl Peak {
    // The peak with this centre and scale, refused exactly where one is outside its limits.
    pub fn new(centre: f64, scale: f64) -> Result<Peak, DistributionFault>
        ensures { Makes (refusal centre scale) (λ d. Shaped centre scale d.centre d.scale) result }
    {
        if !in_limits(centre, scale) {
            return Err(DistributionFault::Shape);
        }
        Ok(Peak { centre, scale })
    }

    pub fn centre(&self) -> f64
        ensures { result ≡ self.now.centre }
    {
        self.centre
    }

    pub fn scale(&self) -> f64
        ensures { result ≡ self.now.scale }
    {
        self.scale
    }
}
