// The winch end and the cab end of one line, of different makes, run through replay: readings go to intervals, numbers from the
// intervals come back as readings, the tables are walked and filled, and one end is retuned.
#![tactic(auto)]

use anyhow::Context;
use distributions::peak::Peak;
use histories::replay::{Call, Entry, Slots, replay, replay_uniform};
use models::bits::BitArray;
use quantize::narrow::NarrowSymbol;
use quantize::quantizer::LeakyQuantizer;
use std::convert::Infallible;
use trials::misguided::Misguided;
use uniform::model::UniformModel;

mod show;

use show::show;

fn main(rt: HostRuntime) -> anyhow::Result<()> {
    run(&rt)
}

fn run(rt: &HostRuntime) -> anyhow::Result<()> {
    line(rt)?;
    walk(rt)?;
    makes(rt)?;
    even::<u16>(rt, "uniform u16", 7, 65_535)?;
    even::<u32>(rt, "uniform u32", 7, 65_535)
}

// A refusal as the program's error.
fn peak(centre: f64, scale: f64) -> anyhow::Result<Peak> {
    Peak::new(centre, scale).context("a peak is refused")
}

// A line from 0 to full scale. The winch has i16 symbols, the cab i32 ones and an inverse that is of no use.
fn line(rt: &HostRuntime) -> anyhow::Result<()> {
    let heap = rt.alloc();
    let winch = LeakyQuantizer::<i16, u32>::new(0, 32767, 24).context("the winch is refused")?;
    let cab = LeakyQuantizer::<i32, u32>::new(0, 32767, 24).context("the cab is refused")?;
    let peak = peak(12000.5, 350.0)?;
    let misguided = Misguided {
        inner: peak,
        low: f64::NAN,
        high: f64::NEG_INFINITY,
    };
    let readings = [0i16, 11_650, 12_000, 12_001, 20_000, 32_767];
    for reading in readings {
        let (_, sent) = replay(heap, winch, peak, &[Call::Encode(reading)])?;
        show(rt, "winch", &sent)?;
        for entry in &sent {
            if let Entry::Encoded(_, Some((start, length))) = entry {
                // the first number of the interval, and the last
                let last = start.saturating_add(length.saturating_sub(1));
                let calls = [Call::Search(*start), Call::Search(last)];
                let (_, came) = replay(heap, cab, misguided, &calls)?;
                show(rt, "cab", &came)?;
            }
        }
    }
    Ok(())
}

// The table of four symbols: row by row, by pages, past its end, and after a retune.
fn walk(rt: &HostRuntime) -> anyhow::Result<()> {
    let quantizer = LeakyQuantizer::<u16, u16>::new(0, 3, 5).context("the table is refused")?;
    let page = Slots {
        symbols: 3,
        starts: 2,
        lengths: 4,
        symbol: 9u16,
        probability: 99u16,
    };
    let calls = [
        Call::Next,
        Call::Fill(page),
        Call::Search(32),
        Call::Next,
        Call::Next,
        Call::Rewind,
        Call::Fill(page),
        Call::Retune(peak(2.5, 1.0)?),
        Call::Encode(4),
        Call::Probability(1),
        Call::Probability(4),
        Call::TableRow(2),
        Call::TableRow(4),
        Call::Entropy,
        Call::Next,
        Call::Fill(page),
    ];
    let (_, log) = replay(rt.alloc(), quantizer, peak(0.5, 1.0)?, &calls)?;
    show(rt, "table", &log)
}

// One history on a make of channel: every call, buffers of unequal sizes and of none, the last page and past it.
// Here and in `even` the calls are pushed, since the size of an array of them is not known where types are parameters.
fn mixed<S: NarrowSymbol, P: BitArray>(
    rt: &HostRuntime,
    who: &str,
    low: S,
    high: S,
    quantile: P,
) -> anyhow::Result<()> {
    let quantizer = LeakyQuantizer::<S, P>::new(low, high, 8).context("the make is refused")?;
    let page = Slots {
        symbols: 4,
        starts: 5,
        lengths: 3,
        symbol: high,
        probability: quantile,
    };
    let none = Slots {
        symbols: 2,
        starts: 0,
        lengths: 2,
        symbol: high,
        probability: quantile,
    };
    let mut calls = Vec::new(rt.alloc());
    calls.push(Call::Fill(none))?;
    calls.push(Call::Fill(page))?;
    calls.push(Call::Encode(high))?;
    calls.push(Call::Search(quantile))?;
    calls.push(Call::Next)?;
    calls.push(Call::Fill(page))?;
    calls.push(Call::Fill(page))?;
    calls.push(Call::Rewind)?;
    calls.push(Call::Next)?;
    calls.push(Call::Retune(peak(5.25, 0.5)?))?;
    calls.push(Call::Probability(high))?;
    calls.push(Call::TableRow(3))?;
    calls.push(Call::Entropy)?;
    calls.push(Call::Fill(page))?;
    let (_, log) = replay(rt.alloc(), quantizer, peak(2.5, 0.75)?, &calls)?;
    show(rt, who, &log)
}

fn makes(rt: &HostRuntime) -> anyhow::Result<()> {
    mixed::<i16, u16>(rt, "i16/u16", 0, 6, 200)?;
    mixed::<i16, u32>(rt, "i16/u32", 0, 6, 200)?;
    mixed::<u16, u16>(rt, "u16/u16", 0, 6, 200)?;
    mixed::<u16, u32>(rt, "u16/u32", 0, 6, 200)?;
    mixed::<i32, u16>(rt, "i32/u16", 0, 6, 200)?;
    mixed::<i32, u32>(rt, "i32/u32", 0, 6, 200)?;
    mixed::<u32, u16>(rt, "u32/u16", 0, 6, 200)?;
    mixed::<u32, u32>(rt, "u32/u32", 0, 6, 200)
}

// A uniform channel walks by the same text.
fn even<P: BitArray>(rt: &HostRuntime, who: &str, other: P, quantile: P) -> anyhow::Result<()> {
    let model = UniformModel::<P>::new(16, 3).context("the uniform model is refused")?;
    let page = Slots {
        symbols: 2,
        starts: 2,
        lengths: 3,
        symbol: 9usize,
        probability: other,
    };
    let mut calls = Vec::new(rt.alloc());
    calls.push(Call::Next)?;
    calls.push(Call::Next)?;
    calls.push(Call::Next)?;
    calls.push(Call::Next)?;
    calls.push(Call::Rewind)?;
    calls.push(Call::Fill(page))?;
    calls.push(Call::Encode(65_537))?;
    calls.push(Call::Search(quantile))?;
    calls.push(Call::Entropy)?;
    let (_, log) = replay_uniform::<P>(rt.alloc(), model, &calls)?;
    show(rt, who, &log)
}
