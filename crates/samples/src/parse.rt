// A line of the sample is read as a case: its words stand between single blanks, and a float is the decimal number of its bits.
ghost use Rattle.std.specs.Prelude.{◌≡◌, Some, codes};
ghost use Rattle.samples.specs.Words.{Names, type_word, width_word};

use crate::case::{Case, Quantized, SymbolType, Uniform, Width};
use crate::claim::Claim;
use std::error::Error;
use std::fmt;
use std::num::{ParseIntError, f64_from_bits_with_nan};
use std::str::{FromStr, Split};

// A word is missing or means nothing at its place, or a line goes on after its case.
#[derive(Clone, Copy, PartialEq, Eq, Debug)]
pub struct NotACase;

impl fmt::Display for NotACase {
    ghost output = { λ _. Some (codes "not read") };

    fn fmt<W: fmt::Write>(&self, f: &mut fmt::Formatter<W>) -> fmt::Result {
        f.write_str("not read")
    }
}

impl Error for NotACase {}

impl From<ParseIntError> for NotACase {
    ghost from_gives = { λ _ e. e ≡ record {} };

    fn from(_fault: ParseIntError) -> NotACase {
        NotACase
    }
}

impl FromStr for SymbolType {
    type Err = NotACase;

    ghost from_str_gives = { Names type_word };

    fn from_str(word: &str) -> Result<SymbolType, NotACase> {
        match word {
            "i16" => Ok(SymbolType::I16),
            "u16" => Ok(SymbolType::U16),
            "i32" => Ok(SymbolType::I32),
            "u32" => Ok(SymbolType::U32),
            _ => Err(NotACase),
        }
    }
}

impl FromStr for Width {
    type Err = NotACase;

    ghost from_str_gives = { Names width_word };

    fn from_str(word: &str) -> Result<Width, NotACase> {
        match word {
            "16" => Ok(Width::Bits16),
            "32" => Ok(Width::Bits32),
            _ => Err(NotACase),
        }
    }
}

#[derive(Clone, Copy)]
struct Bits(f64);

impl FromStr for Bits {
    type Err = NotACase;

    fn from_str(word: &str) -> Result<Bits, NotACase> {
        Ok(Bits(f64_from_bits_with_nan(word.parse()?)))
    }
}

// where a search starts
#[derive(Clone, Copy)]
struct Guess(Option<f64>);

impl FromStr for Guess {
    type Err = NotACase;

    fn from_str(word: &str) -> Result<Guess, NotACase> {
        if word == "own" {
            return Ok(Guess(None));
        }
        let Bits(guess) = word.parse()?;
        Ok(Guess(Some(guess)))
    }
}

// What is left of a line.
#[derive(Drop)]
struct Words<'a>(Split<'a, char>);

impl<'a> Words<'a> {
    fn word(&mut self) -> Result<&'a str, NotACase> {
        self.0.next().ok_or(NotACase)
    }

    fn read<T: FromStr>(&mut self) -> Result<T, NotACase>
    where
        NotACase: From<T::Err>,
    {
        Ok(self.word()?.parse::<T>()?)
    }

    fn float(&mut self) -> Result<f64, NotACase> {
        let Bits(float) = self.read()?;
        Ok(float)
    }

    fn guess(&mut self) -> Result<Option<f64>, NotACase> {
        let Guess(guess) = self.read()?;
        Ok(guess)
    }

    fn quantized(&mut self) -> Result<Quantized, NotACase> {
        Ok(Quantized {
            symbols: self.read()?,
            width: self.read()?,
            precision: self.read()?,
            min: self.read()?,
            max: self.read()?,
            centre: self.float()?,
            scale: self.float()?,
        })
    }

    fn uniform(&mut self) -> Result<Uniform, NotACase> {
        Ok(Uniform {
            width: self.read()?,
            precision: self.read()?,
            range: self.read()?,
        })
    }

    // SYMBOL START LENGTH, or SYMBOL outside
    fn encoded(&mut self) -> Result<Claim, NotACase> {
        let symbol = self.read()?;
        let interval = match self.word()? {
            "outside" => None,
            start => Some((start.parse()?, self.read()?)),
        };
        Ok(Claim::Encoded(symbol, interval))
    }

    // Q SYMBOL START LENGTH
    fn searched(&mut self) -> Result<Claim, NotACase> {
        let quantile = self.read()?;
        let row = (self.read()?, self.read()?, self.read()?);
        Ok(Claim::Searched(quantile, row))
    }

    // SYMBOL BITS
    fn likely(&mut self) -> Result<Claim, NotACase> {
        Ok(Claim::Likely(self.read()?, self.read()?))
    }

    // Only a search has a guess.
    fn case(&mut self) -> Result<Case, NotACase> {
        match self.word()? {
            "encode" => Ok(Case::OfPeak(self.quantized()?, None, self.encoded()?)),
            "search" => Ok(Case::OfPeak(self.quantized()?, self.guess()?, self.searched()?)),
            "probability" => Ok(Case::OfPeak(self.quantized()?, None, self.likely()?)),
            "uniform-encode" => Ok(Case::OfUniform(self.uniform()?, self.encoded()?)),
            "uniform-search" => Ok(Case::OfUniform(self.uniform()?, self.searched()?)),
            "uniform-probability" => Ok(Case::OfUniform(self.uniform()?, self.likely()?)),
            _ => Err(NotACase),
        }
    }

    fn end(&mut self) -> Result<(), NotACase> {
        match self.0.next() {
            None => Ok(()),
            Some(_) => Err(NotACase),
        }
    }
}

// The case that the whole line spells.
impl FromStr for Case {
    type Err = NotACase;

    fn from_str(line: &str) -> Result<Case, NotACase> {
        let mut words = Words(line.split(' '));
        let case = words.case()?;
        words.end()?;
        Ok(case)
    }
}
