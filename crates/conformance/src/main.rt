// Runs the figures of the rules, and replays a stored sample of the original's answers from standard input.
#![tactic(auto)]

mod judging;
mod replay;
mod rules;
mod sample;
mod show;

use rules::show_figures;
use sample::replay_sample;

fn main(rt: HostRuntime) -> anyhow::Result<()> {
    run(&rt)
}

fn run(rt: &HostRuntime) -> anyhow::Result<()> {
    show_figures(rt)?;
    replay_sample(rt)
}
