// From the numbers of a request to a quantized model of the make and shape that they name, and a question put to it.
// A number of the C interface is matched where it chooses a type: an enum between would be matched here again.
use crate::question::Ask;
use crate::refused::Refused;
use crate::request::Request;
use distributions::peak::Peak;
use distributions::profile::Profile;
use models::bits::BitArray;
use models::distribution::Inverse;
use models::symbol::Symbol;
use quantize::narrow::NarrowSymbol;
use quantize::quantizer::LeakyQuantizer;
use trials::flat::Flat;
use trials::misguided::Misguided;

// The quantizer that is asked for.
pub(crate) fn quantizer<S: NarrowSymbol, P: BitArray>(
    request: &Request,
) -> Result<LeakyQuantizer<S, P>, Refused> {
    let min = S::from_whole(request.min as i128).ok_or(Refused::NoneSuch)?;
    let max = S::from_whole(request.max as i128).ok_or(Refused::NoneSuch)?;
    Ok(LeakyQuantizer::new(min, max, request.precision)?)
}

// A question, and the numbers of the model that it is put to.
#[derive(Drop)]
pub(crate) struct Asking<'a, Q> {
    pub(crate) request: &'a Request,
    pub(crate) knots: &'a [u32],
    pub(crate) question: Q,
}

impl<'a, Q: Ask + Drop> Asking<'a, Q> {
    // Asks a model of the make that is asked for, and tells how many entries there were.
    pub(crate) fn put(self) -> Result<usize, Refused> {
        match self.request.make / 2 {
            0 => self.over::<i16>(),
            1 => self.over::<u16>(),
            2 => self.over::<i32>(),
            3 => self.over::<u32>(),
            _ => Err(Refused::NoneSuch),
        }
    }

    // At the width that is asked for.
    fn over<S: NarrowSymbol>(self) -> Result<usize, Refused> {
        if self.request.make % 2 == 0 {
            self.shaped::<S, u16>()
        } else {
            self.shaped::<S, u32>()
        }
    }

    // Over the shape that is asked for.
    fn shaped<S: NarrowSymbol, P: BitArray>(self) -> Result<usize, Refused> {
        let request = self.request;
        let quantizer = quantizer::<S, P>(request)?;
        match request.shape {
            0 => self.guessed(quantizer, Peak::new(request.a, request.b)?),
            1 => self.guessed(quantizer, Flat::of(request.a).ok_or(Refused::NoneSuch)?),
            2 => {
                let mut profile = Profile::built_in();
                profile.lay(request.first, request.width, self.knots)?;
                self.guessed(quantizer, profile)
            }
            _ => Err(Refused::NoneSuch),
        }
    }

    // With the guess that is asked for.
    fn guessed<S: NarrowSymbol, P: BitArray, D: Inverse + Drop>(
        mut self,
        quantizer: LeakyQuantizer<S, P>,
        distribution: D,
    ) -> Result<usize, Refused> {
        match self.request.guessing {
            0 => Ok(self.question.of(quantizer.quantize(distribution))),
            1 => {
                let guess = self.request.guess;
                let misguided = Misguided::constant(distribution, guess);
                Ok(self.question.of(quantizer.quantize(misguided)))
            }
            _ => Err(Refused::NoneSuch),
        }
    }
}
