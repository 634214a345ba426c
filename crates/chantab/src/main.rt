// Lists the tables of the channels whose records come on standard input.
#![tactic(auto)]

use anyhow::anyhow;
use records::layout::RECORD_LEN;
use records::listing::{push_channel, push_refused};
use records::opening::{RecordModel, open_channel};
use records::stream::{Listing, read_piece};
use std::io::{BufReader, Write};

// how many bytes of the listing are held before they are written out
const PAGE: usize = 65_536;

fn main(rt: HostRuntime) -> anyhow::Result<()> {
    run(&rt)
}

fn run(rt: &HostRuntime) -> anyhow::Result<()> {
    let mut input = BufReader::new(rt.alloc(), rt.stdin())?;
    let mut listing = Listing {
        page: Vec::with_capacity(rt.alloc(), PAGE)?,
        sink: rt.stdout(),
    };
    for channel in 0..=u32::MAX {
        let mut piece = [0u8; RECORD_LEN];
        match read_piece(&mut input, &mut piece) {
            Ok(len @ 1..) => list_channel(&mut listing, channel, &piece[..len])?,
            // what stands is written before the program ends, with an error or without
            ended => {
                listing.write_page()?;
                ended?;
                return Ok(());
            }
        }
    }
    Err(anyhow!("more records than there are channel numbers"))
}

fn list_channel<W: Write>(
    listing: &mut Listing<W>,
    channel: u32,
    bytes: &[u8],
) -> anyhow::Result<()> {
    match open_channel(channel, bytes) {
        Ok(model) => list_model(listing, channel, model)?,
        Err(refusal) => push_refused(&mut listing.page, refusal)?,
    }
    Ok(())
}

fn list_model<W: Write>(
    listing: &mut Listing<W>,
    channel: u32,
    model: RecordModel,
) -> anyhow::Result<()> {
    push_channel(&mut listing.page, channel)?;
    match model {
        RecordModel::Uniform(uniform) => listing.write_rows(&uniform)?,
        RecordModel::Peak(peak) => listing.write_rows(&peak)?,
    }
    Ok(())
}
