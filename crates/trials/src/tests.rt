// Figures of the models, and quantiles found from bad guesses.
use crate::flat::Flat;
use crate::misguided::Misguided;
use distributions::peak::Peak;
use distributions::profile::Profile;
use models::bits::BitArray;
use models::fault::ModelFault;
use models::model::{DecoderModel, EncoderModel};
use models::symbol::Symbol;
use quantize::narrow::NarrowSymbol;
use quantize::quantizer::{LeakilyQuantizedDistribution, LeakyQuantizer};
use std::process::Abort;
use std::test::Fail;
use uniform::model::UniformModel;

// The number of a refusal.
fn refusal<T: Drop>(made: Result<T, ModelFault>) -> Option<u8> {
    made.err().map(|fault| fault.number())
}

#[test]
fn words(rt: HostRuntime) -> Result<(), Fail> {
    for (fault, word) in [
        (ModelFault::Precision, "precision"),
        (ModelFault::Order, "order"),
        (ModelFault::Span, "span"),
        (ModelFault::Beyond, "beyond"),
        (ModelFault::Range, "range"),
    ] {
        assert_eq!(rt; fault.to_string(rt.alloc())?.as_str(), word);
    }
    Ok(())
}

#[test]
fn uniform_figures(rt: HostRuntime) -> Result<(), Fail> {
    let thirds = UniformModel::<u16>::new(16, 3)?;
    assert_eq!(rt; thirds.left_cumulative_and_probability(0), Some((0, 21845)));
    assert_eq!(rt;
        thirds.left_cumulative_and_probability(1),
        Some((21845, 21845))
    );
    assert_eq!(rt;
        thirds.left_cumulative_and_probability(2),
        Some((43690, 21846))
    );
    assert_eq!(rt; thirds.left_cumulative_and_probability(65537), None);
    let wide = UniformModel::<u32>::new(32, 3)?;
    assert_eq!(rt; wide.left_cumulative_and_probability(4294967296), None);
    let halves = UniformModel::<u32>::new(4, 2)?;
    assert_eq!(rt; halves.quantile_function(15), Ok((1, 8, 8)));
    assert_eq!(rt; halves.quantile_function(16), Err(ModelFault::Beyond));
    assert_eq!(rt; refusal(UniformModel::<u32>::new(4, 17)), Some(7));
    assert_eq!(rt; refusal(UniformModel::<u32>::new(4, 1)), Some(7));
    assert_eq!(rt; refusal(UniformModel::<u16>::new(17, 3)), Some(1));
    Ok(())
}

#[test]
fn peak_figures(rt: HostRuntime) -> Result<(), Fail> {
    let right = LeakyQuantizer::<i32, u32>::new(0, 3, 5)?.quantize(Peak::new(0.5, 1.0)?);
    let left = LeakyQuantizer::<i32, u32>::new(-2, 1, 5)?.quantize(Peak::new(-1.5, 1.0)?);
    for (a, b, start, length) in [(0, -2, 0, 15), (1, -1, 15, 8), (2, 0, 23, 3), (3, 1, 26, 6)] {
        assert_eq!(rt;
            right.left_cumulative_and_probability(a),
            Some((start, length))
        );
        assert_eq!(rt;
            left.left_cumulative_and_probability(b),
            Some((start, length))
        );
    }
    assert_eq!(rt; right.left_cumulative_and_probability(4), None);
    for (quantile, row) in [(14, (0, 0, 15)), (15, (1, 15, 8)), (31, (3, 26, 6))] {
        assert_eq!(rt; right.quantile_function(quantile), Ok(row));
    }
    assert_eq!(rt; right.quantile_function(32), Err(ModelFault::Beyond));
    Ok(())
}

#[test]
fn profile_figures(rt: HostRuntime) -> Result<(), Fail> {
    let knots = [0, 1, 4];
    let mut profile = Profile::built_in();
    profile.lay(0, 4, &knots)?;
    let model = LeakyQuantizer::<i32, u32>::new(0, 7, 4)?.quantize(profile);
    for (symbol, start, length) in [
        (0, 0, 1),
        (1, 1, 1),
        (2, 2, 2),
        (3, 4, 1),
        (4, 5, 2),
        (5, 7, 3),
        (6, 10, 2),
        (7, 12, 4),
    ] {
        assert_eq!(rt;
            model.left_cumulative_and_probability(symbol),
            Some((start, length))
        );
        assert_eq!(rt; model.quantile_function(start), Ok((symbol, start, length)));
    }
    Ok(())
}

#[test]
fn supports(rt: HostRuntime) -> Result<(), Fail> {
    let full = LeakyQuantizer::<i32, u32>::new(0, 15, 4)?.quantize(Peak::new(0.5, 1.0)?);
    for (symbol, start) in [(0, 0), (1, 1), (7, 7), (14, 14), (15, 15)] {
        assert_eq!(rt;
            full.left_cumulative_and_probability(symbol),
            Some((start, 1))
        );
    }
    assert_eq!(rt; refusal(LeakyQuantizer::<i32, u32>::new(0, 16, 4)), Some(3));
    assert_eq!(rt; refusal(LeakyQuantizer::<i32, u32>::new(5, 5, 4)), Some(2));
    assert_eq!(rt;
        refusal(LeakyQuantizer::<i16, u32>::new(-20000, 20000, 16)),
        None
    );
    assert_eq!(rt;
        refusal(LeakyQuantizer::<i32, u16>::new(0, 65536, 16)),
        Some(3)
    );
    Ok(())
}

// The symbol that a quantile belongs to.
fn symbol_of<S: NarrowSymbol, P: BitArray>(
    model: &LeakilyQuantizedDistribution<S, P, Misguided<Flat>>,
    quantile: u64,
) -> Option<i128> {
    let q = P::from_u64(quantile)?;
    let (symbol, _, _) = model.quantile_function(q).ok()?;
    Some(symbol.to_whole())
}

// Whatever is guessed, the first and the last quantile belong to the ends of the support.
fn find_ends<S: NarrowSymbol, P: BitArray>(
    rt: &impl Abort,
    min: S,
    max: S,
    precision: u32,
    last: u64,
    guesses: Misguided<Flat>,
) -> Result<(), Fail> {
    let model = LeakyQuantizer::<S, P>::new(min, max, precision)?.quantize(guesses);
    assert_eq!(rt; symbol_of(&model, 0), Some(min.to_whole()));
    assert_eq!(rt; symbol_of(&model, last), Some(max.to_whole()));
    Ok(())
}

#[test]
fn bad_guesses(rt: HostRuntime) -> Result<(), Fail> {
    let inner = Flat::half();
    for (low, high) in [
        (0.0, 0.0),
        (f64::NAN, f64::NAN),
        (f64::INFINITY, f64::NEG_INFINITY),
        (f64::NEG_INFINITY, f64::INFINITY),
        (-2147483648.0, 4294967295.0),
        (4294967295.0, -2147483648.0),
    ] {
        let guesses = Misguided { inner, low, high };
        find_ends::<i16, u32>(&rt, 0, 32767, 24, 16777215, guesses)?;
        find_ends::<i16, u16>(&rt, -32768, 32767, 16, 65535, guesses)?;
        find_ends::<u16, u16>(&rt, 0, 65535, 16, 65535, guesses)?;
        find_ends::<i32, u32>(&rt, -2147483648, 2147483647, 32, 4294967295, guesses)?;
        find_ends::<u32, u32>(&rt, 0, 4294967295, 32, 4294967295, guesses)?;
    }
    Ok(())
}
