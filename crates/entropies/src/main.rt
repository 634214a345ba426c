// How far the entropies by the fine logarithm lie from the formulas with the C library's log2, over the rows of some models.
#![tactic(auto)]

use anyhow::Context;
use channel::walk::Channel;
use distributions::peak::Peak;
use measures::logarithm::Fine;
use quantize::quantizer::LeakyQuantizer;
use std::alloc::Global;

// A model, and what the formulas give over its rows: the entropy, and the cross entropy with one weight for every row.
// They were computed in another language, from rows that it computed itself.
#[derive(Clone, Copy)]
struct Case {
    min: i32,
    max: i32,
    precision: u32,
    centre: f64,
    scale: f64,
    entropy: f64,
    cross: f64,
}

const CASES: [Case; 9] = [
    Case {
        min: 0,
        max: 3,
        precision: 5,
        centre: 0.5,
        scale: 1.0,
        entropy: 1.7853743299806815,
        cross: 2.230796100737292,
    },
    Case {
        min: -2,
        max: 1,
        precision: 5,
        centre: -1.5,
        scale: 1.0,
        entropy: 1.7853743299806815,
        cross: 2.230796100737292,
    },
    Case {
        min: -1000,
        max: 1000,
        precision: 24,
        centre: 0.0,
        scale: 16.0,
        entropy: 7.683638013248544,
        cross: 14.271397953236177,
    },
    Case {
        min: -1000,
        max: 1000,
        precision: 24,
        centre: 700.25,
        scale: 300.0,
        entropy: 8.043884694482525,
        cross: 12.407368210760087,
    },
    Case {
        min: 0,
        max: 65535,
        precision: 24,
        centre: 30000.5,
        scale: 2000.0,
        entropy: 13.827224514578145,
        cross: 17.80090459922591,
    },
    Case {
        min: -32768,
        max: 32767,
        precision: 32,
        centre: -1.5,
        scale: 0.001,
        entropy: 1.014836576726509,
        cross: 31.8111649104285,
    },
    Case {
        min: 0,
        max: 65535,
        precision: 17,
        centre: 65535.0,
        scale: 1000000.0,
        entropy: 9.721083629888247,
        cross: 16.968797172125456,
    },
    Case {
        min: 0,
        max: 1,
        precision: 1,
        centre: 0.0,
        scale: 16.0,
        entropy: 1.0,
        cross: 1.0,
    },
    Case {
        min: -100,
        max: 155,
        precision: 32,
        centre: 12.25,
        scale: 0.000001,
        entropy: 6.161602046361736e-5,
        cross: 30.494437782228445,
    },
];

// The larger of a model's two distances. The weights are one for each row, and sum to 1 or a little less or more.
fn measure(heap: Global, case: Case) -> anyhow::Result<f64> {
    let quantizer = LeakyQuantizer::<i32, u32>::new(case.min, case.max, case.precision).context(
        "a support is refused",
    )?;
    let peak = Peak::new(case.centre, case.scale).context("a peak is refused")?;
    let channel = Channel::open(quantizer.quantize(peak));
    let rows = case.max.abs_diff(case.min).saturating_add(1);
    let weights = vec![in heap; 1.0 / f64::from(rows); rows as usize]?;
    let entropy = channel.entropy_base2::<Fine>();
    let cross = channel.cross_entropy_base2::<Fine>(&weights);
    Ok(
        (entropy - case.entropy)
            .abs()
            .max((cross - case.cross).abs()),
    )
}

fn run(rt: &HostRuntime) -> anyhow::Result<()> {
    let mut largest = 0.0;
    for case in CASES {
        largest = measure(rt.alloc(), case)?.max(largest);
    }
    let within = largest < 1.0 / 16384.0;
    println!(rt; "largest distance {largest}, within 2^-14: {within}")?;
    Ok(())
}

fn main(rt: HostRuntime) -> anyhow::Result<()> {
    run(&rt)
}
