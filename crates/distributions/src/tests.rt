// Heights, guesses, refusals and their words, at the ends of their ranges; the expected values were computed apart.
use crate::fault::DistributionFault;
use crate::peak::Peak;
use crate::profile::Profile;
use models::distribution::{Distribution, Inverse};
use std::test::Fail;

const FAR: f64 = 1099511627776.0;

const NARROW: f64 = 1.0 / 1048576.0;

// the nearest float beyond a limit
const PAST_FAR: f64 = 1099511627776.000244140625;

const PAST_NARROW: f64 = 9007199254740991.0 / 9444732965739290427392.0;

fn peak_answers(centre: f64, scale: f64, x: f64, height: f64, p: f64, guess: f64) -> bool {
    Peak::new(centre, scale).is_ok_and(|d| d.distribution(x) == height && d.inverse(p) == guess)
}

#[test]
fn peaks(rt: HostRuntime) -> Result<(), Fail> {
    for (x, height, p, guess) in [
        (f64::NEG_INFINITY, 0.0, f64::NEG_INFINITY, 3.5),
        (-1.5, 0.30000000000000004, -0.0, f64::INFINITY),
        (-0.0, 0.42857142857142855, 0.0, f64::NEG_INFINITY),
        (0.0, 0.42857142857142855, 0.25, -2.5),
        (0.5, 0.5, 0.5, 0.5),
        (2.0, 0.6666666666666667, 0.9, 12.500000000000004),
        (8589934592.0, 0.999999999825377, 1.0, f64::INFINITY),
        (f64::INFINITY, 1.0, 2.0, -4.0),
    ] {
        assert!(rt; peak_answers(0.5, 3.0, x, height, p, guess));
    }
    let d = Peak::new(0.5, 3.0)?;
    assert!(rt; d.distribution(f64::NAN).is_nan() && d.inverse(f64::NAN).is_nan());
    assert!(rt; peak_answers(-FAR, NARROW, -FAR, 0.5, 0.5, -FAR));
    assert!(rt; peak_answers(-0.0, FAR, -0.0, 0.5, 0.5, 0.0));
    for (centre, scale) in [
        (PAST_FAR, 1.0),
        (-PAST_FAR, 1.0),
        (f64::NAN, 1.0),
        (f64::INFINITY, 1.0),
        (0.0, PAST_FAR),
        (0.0, PAST_NARROW),
        (0.0, f64::NAN),
        (0.0, f64::INFINITY),
    ] {
        assert!(rt; Peak::new(centre, scale).is_err());
    }
    Ok(())
}

fn profile_answers(d: &Profile, x: f64, height: f64, p: f64, guess: f64) -> bool {
    d.distribution(x) == height && d.inverse(p) == guess
}

#[test]
fn profiles(rt: HostRuntime) {
    assert!(rt; profile_answers(&Profile::built_in(), 0.25, 0.25, 1.0, 1.0));
    let table = [0, 0, 7, 10];
    let mut d = Profile::built_in();
    assert_eq!(rt; d.lay(-3, 3, &table), Ok(()));
    let fallen = [0, 3, 2, 4];
    for (width, knots, place) in [
        (1, &fallen[0..1], 0),
        (0, &table[0..4], 0),
        (65537, &table[0..4], 0),
        (1, &table[2..4], 0),
        (1, &fallen[0..4], 2),
        (1, &table[0..2], 1),
    ] {
        assert_eq!(rt;
            d.lay(0, width, knots),
            Err(DistributionFault::Knots(place))
        );
    }
    for (x, height, p, guess) in [
        (f64::NEG_INFINITY, 0.0, f64::NEG_INFINITY, -3.0),
        (-3.0, 0.0, -0.5, -3.0),
        (-0.0, 0.0, -0.0, 0.0),
        (0.5, 0.11666666666666665, 0.69, 0.0),
        (2.999999999999, 0.6999999999997666, 0.7, 3.0),
        (3.0, 0.7, 0.71, 3.0),
        (5.5, 0.95, 1.0, 6.0),
        (6.0, 1.0, f64::INFINITY, 6.0),
        (f64::INFINITY, 1.0, 0.0, 0.0),
        (f64::NAN, 0.0, f64::NAN, -3.0),
    ] {
        assert!(rt; profile_answers(&d, x, height, p, guess));
    }
}

#[test]
fn words(rt: HostRuntime) -> Result<(), Fail> {
    for (fault, word) in [
        (DistributionFault::Shape, "shape"),
        (DistributionFault::Knots(2), "knots"),
    ] {
        assert_eq!(rt; fault.to_string(rt.alloc())?.as_str(), word);
    }
    Ok(())
}
