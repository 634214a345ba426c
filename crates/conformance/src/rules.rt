// The figures of the rules, each by the calls of the library.
use crate::judging::{interval, row};
use crate::show::{show_interval, show_lengths, show_made, show_row, show_starts};
use anyhow::Context;
use distributions::peak::Peak;
use distributions::profile::Profile;
use figures::figures_stand;
use measures::entropy::entropy_base2;
use measures::logarithm::{Fine, Logarithm};
use quantize::quantizer::{LeakilyQuantizedDistribution, LeakyQuantizer};
use uniform::model::UniformModel;

// A Peak over i32 symbols.
fn peaked(
    centre: f64,
    scale: f64,
    min: i32,
    max: i32,
    precision: u32,
) -> anyhow::Result<LeakilyQuantizedDistribution<i32, u32, Peak>> {
    let peak = Peak::new(centre, scale).context("a peak is refused")?;
    let quantizer = LeakyQuantizer::<i32, u32>::new(min, max, precision).context(
        "a support is refused",
    )?;
    Ok(quantizer.quantize(peak))
}

fn show_peaks(rt: &HostRuntime) -> anyhow::Result<()> {
    let name = "Peak 0.5, 1, P 5, 0 to 3";
    let model = peaked(0.5, 1.0, 0, 3, 5)?;
    show_starts(rt, name, &model)?;
    for quantile in [14, 15, 31, 32] {
        show_row(rt, name, quantile, row(&model, quantile))?;
    }
    let shifted = peaked(-1.5, 1.0, -2, 1, 5)?;
    show_starts(rt, "Peak -1.5, 1, P 5, -2 to 1", &shifted)?;
    let full = peaked(0.5, 1.0, 0, 15, 4)?;
    show_lengths(rt, "Peak 0.5, 1, P 4, 0 to 15", &full)
}

fn show_profile(rt: &HostRuntime) -> anyhow::Result<()> {
    let knots = [0, 1, 4];
    let mut profile = Profile::built_in();
    profile.lay(0, 4, &knots).context("a profile is refused")?;
    let quantizer = LeakyQuantizer::<i32, u32>::new(0, 7, 4).context("a support is refused")?;
    let model = quantizer.quantize(profile);
    show_starts(rt, "Profile 0, 4, knots 0 1 4, P 4, 0 to 7", &model)
}

fn show_refusals(rt: &HostRuntime) -> anyhow::Result<()> {
    show_made(
        rt,
        "P 4, 0 to 16",
        LeakyQuantizer::<i32, u32>::new(0, 16, 4),
    )?;
    show_made(rt, "P 4, 5 to 5", LeakyQuantizer::<i32, u32>::new(5, 5, 4))?;
    show_made(
        rt,
        "u16, P 17, 0 to 3",
        LeakyQuantizer::<i32, u16>::new(0, 3, 17),
    )?;
    let even = UniformModel::<u16>::new(17, 3);
    show_made(rt, "uniform, u16, P 17, range 3", even)
}

fn show_uniform(rt: &HostRuntime) -> anyhow::Result<()> {
    let name = "uniform, u16, P 16, range 3";
    let thirds = UniformModel::<u16>::new(16, 3).context("a range is refused")?;
    show_lengths(rt, name, &thirds)?;
    show_interval(rt, name, 65_537, interval(&thirds, 65_537))?;
    let wide = UniformModel::<u32>::new(4, 17);
    show_made(rt, "uniform, P 4, range 17", wide)?;
    let narrow = UniformModel::<u32>::new(4, 1);
    show_made(rt, "uniform, P 4, range 1", narrow)
}

fn show_measures(rt: &HostRuntime) -> anyhow::Result<()> {
    let halves = UniformModel::<u32>::new(4, 2).context("a range is refused")?;
    let bits = entropy_base2::<UniformModel<u32>, Fine>(&halves);
    println!(rt; "uniform, P 4, range 2: entropy {bits}")?;
    for n in [3, 8] {
        let value = Fine::log2(n);
        println!(rt; "fine logarithm of {n}: {value}")?;
    }
    Ok(())
}

// The joint statement stands by its proof; then what the calls answer.
pub fn show_figures(rt: &HostRuntime) -> anyhow::Result<()> {
    let stands = figures_stand();
    println!(rt; "the figures of the definitions stand: {stands}")?;
    show_peaks(rt)?;
    show_profile(rt)?;
    show_refusals(rt)?;
    show_uniform(rt)?;
    show_measures(rt)
}
