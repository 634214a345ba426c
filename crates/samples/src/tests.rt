// Lines of the stored sample, one of each kind, and lines that are none.
use crate::case::{Case, Quantized, SymbolType, Uniform, Width};
use crate::claim::Claim;
use crate::parse::NotACase;
use std::test::Fail;

#[test]
fn intervals(rt: HostRuntime) -> Result<(), Fail> {
    let inside = Quantized {
        symbols: SymbolType::I16,
        width: Width::Bits16,
        precision: 1,
        min: 0,
        max: 1,
        centre: 1.5,
        scale: 0.8689089421239031,
    };
    let outside = Quantized {
        symbols: SymbolType::I32,
        width: Width::Bits32,
        precision: 19,
        min: -3573,
        max: 3574,
        centre: 2768.9408392997416,
        scale: 905.8832304962758,
    };
    let even = Uniform {
        width: Width::Bits16,
        precision: 10,
        range: 2,
    };
    for (line, case) in [
        (
            "encode i16 16 1 0 1 4609434218613702656 4606001655521212620 0 0 1",
            Case::OfPeak(inside, None, Claim::Encoded(0, Some((0, 1)))),
        ),
        (
            "encode i32 32 19 -3573 3574 4658307380372590173 4651179448981684909 -2147483648 outside",
            Case::OfPeak(outside, None, Claim::Encoded(-2147483648, None)),
        ),
        (
            "uniform-encode 16 10 2 1 512 512",
            Case::OfUniform(even, Claim::Encoded(1, Some((512, 512)))),
        ),
    ] {
        assert_eq!(rt; line.parse::<Case>(), Ok(case));
    }
    Ok(())
}

#[test]
fn rows(rt: HostRuntime) -> Result<(), Fail> {
    let own = Quantized {
        symbols: SymbolType::I16,
        width: Width::Bits16,
        precision: 4,
        min: 22530,
        max: 22531,
        centre: 22531.665006950436,
        scale: 254.758536905144,
    };
    let guessed = Quantized {
        symbols: SymbolType::U16,
        width: Width::Bits32,
        precision: 8,
        min: 0,
        max: 4,
        centre: 4.042083330925212,
        scale: 16.0,
    };
    let even = Uniform {
        width: Width::Bits32,
        precision: 11,
        range: 2,
    };
    for (line, case) in [
        (
            "search i16 16 4 22530 22531 4671922670872907759 4643167535719517410 own 1 22530 0 7",
            Case::OfPeak(own, None, Claim::Searched(1, (22530, 0, 7))),
        ),
        (
            "search u16 32 8 0 4 4616236999673126724 4625196817309499392 4679240012837945344 124 3 117 8",
            Case::OfPeak(guessed, Some(65536.0), Claim::Searched(124, (3, 117, 8))),
        ),
        (
            "uniform-search 32 11 2 1739 1 1024 1024",
            Case::OfUniform(even, Claim::Searched(1739, (1, 1024, 1024))),
        ),
    ] {
        assert_eq!(rt; line.parse::<Case>(), Ok(case));
    }
    Ok(())
}

#[test]
fn shares(rt: HostRuntime) -> Result<(), Fail> {
    let edge = Quantized {
        symbols: SymbolType::I32,
        width: Width::Bits32,
        precision: 25,
        min: 2147483646,
        max: 2147483647,
        centre: 931714008652.2651,
        scale: 1.0,
    };
    let even = Uniform {
        width: Width::Bits32,
        precision: 28,
        range: 23,
    };
    for (line, case) in [
        (
            "probability i32 32 25 2147483646 2147483647 4785951805798975612 4607182418800017408 2147483646 4494592428115755008",
            Case::OfPeak(edge, None, Claim::Likely(2147483646, 4494592428115755008)),
        ),
        (
            "uniform-probability 32 28 23 1 4586426698358063104",
            Case::OfUniform(even, Claim::Likely(1, 4586426698358063104)),
        ),
    ] {
        assert_eq!(rt; line.parse::<Case>(), Ok(case));
    }
    Ok(())
}

#[test]
fn no_cases(rt: HostRuntime) -> Result<(), Fail> {
    for line in [
        "",
        // too short
        "uniform-encode 16 10 2 1 512",
        "encode i16 16 1 0 1 4609434218613702656",
        // too long
        "uniform-encode 16 10 2 1 512 512 0",
        "uniform-encode 16 10 2 1 512 512 ",
        "uniform-encode 16 11 2 2 outside 0",
        // a word that means nothing at its place
        "decode 16 10 2 1 512 512",
        "uniform-encode 24 10 2 1 512 512",
        "uniform-encode 16 ten 2 1 512 512",
        "encode u64 16 1 0 1 4609434218613702656 4606001655521212620 0 0 1",
        "search i16 16 4 22530 22531 4671922670872907759 4643167535719517410 given 1 22530 0 7",
        // two blanks
        "uniform-encode 16  10 2 1 512 512",
    ] {
        assert_eq!(rt; line.parse::<Case>(), Err(NotACase));
    }
    Ok(())
}
