// The lines of a listing, each appended whole or not at all: the rules have their digits written by a table, into a page that is lent.
// A line takes at most 64 bytes: where so many are free, no memory is taken and the call succeeds.
ghost use Rattle.std.specs.Prelude.{Decides};
ghost use Rattle.records.specs.Buffer.{Room, Added, Appended};
ghost use Rattle.records.specs.Listing.{channel_line, row_line, refused_line, Fills};

use crate::fault::Refusal;
use crate::text::{Text, put_byte, put_text};
use models::model::{EntropyModel, IterableEntropyModel};
use models::symbol::Symbol;
use std::alloc::AllocError;

pub const LINE_ROOM: usize = 64;

// The heading of a channel's table.
#[derive(Clone, Copy)]
struct Heading(u32);

impl Text for Heading {
    const ROOM: usize = LINE_ROOM;

    ghost ROOM = { 64 };

    ghost bytes = { λ h. channel_line h.0 };

    fn put(&self, out: &mut Vec<u8>) {
        put_text(out, b"channel ");
        self.0.put(out);
        put_byte(out, b'\n');
    }
}

// A row of a table.
#[derive(Clone, Copy)]
struct Row {
    symbol: i128,
    start: u32,
    length: u32,
}

impl Text for Row {
    const ROOM: usize = LINE_ROOM;

    ghost ROOM = { 64 };

    ghost bytes = { λ r. row_line r.symbol r.start r.length };

    fn put(&self, out: &mut Vec<u8>) {
        self.symbol.put(out);
        put_byte(out, b' ');
        self.start.put(out);
        put_byte(out, b' ');
        self.length.put(out);
        put_byte(out, b'\n');
    }
}

impl Text for Refusal {
    const ROOM: usize = LINE_ROOM;

    ghost ROOM = { 64 };

    ghost bytes = { refused_line };

    fn put(&self, out: &mut Vec<u8>) {
        put_text(out, b"channel ");
        self.channel.put(out);
        put_text(out, b" refused ");
        (self.fault.layer() as u32).put(out);
        put_byte(out, b' ');
        (self.fault.number() as u32).put(out);
        put_byte(out, b' ');
        self.fault.place().put(out);
        put_byte(out, b'\n');
    }
}

pub fn push_channel(out: &mut Vec<u8>, channel: u32) -> Result<(), AllocError>
    ensures { Appended 64 out.old (channel_line channel) result out.new }
{
    Heading(channel).push(out)
}

pub fn push_row(out: &mut Vec<u8>, symbol: i128, start: u32, length: u32) -> Result<(), AllocError>
    ensures { Appended 64 out.old (row_line symbol start length) result out.new }
{
    let row = Row {
        symbol,
        start,
        length,
    };
    row.push(out)
}

pub fn push_refused(out: &mut Vec<u8>, refusal: Refusal) -> Result<(), AllocError>
    ensures { Appended 64 out.old (refused_line refusal) result out.new }
{
    refusal.push(out)
}

// Whether a line surely fits without taking memory.
fn has_room(out: &Vec<u8>) -> bool
    ensures { Decides result (Room out.now 64) }
{
    out.capacity() - out.len() >= LINE_ROOM
}

// Appends the rows of a model's table from the given one on, as long as a line surely fits without taking memory.
// Answers the row to go on with, or `None` once the last is written and a line more surely fits: the next heading needs it.
pub fn fill_rows<M: IterableEntropyModel>(
    out: &mut Vec<u8>,
    model: &M,
    from: usize,
) -> Option<usize>
    ensures { Fills (M.EntropyModel.meaning model.now) from out.old out.new result }
{
    let mut start = model.left_cumulative(from)?;
    let low = model.lowest_symbol().to_whole();
    let high = model.highest_symbol().to_whole();
    let rows = (high - low) as usize + 1;
    for row in from..rows {
        if !has_room(out) {
            return Some(row);
        }
        // a row ends where the next one starts
        let end = model.left_cumulative(row + 1)?;
        let line = Row {
            symbol: low + row as i128,
            start: start as u32,
            length: (end - start) as u32,
        };
        line.put(out);
        start = end;
    }
    if has_room(out) { None } else { Some(rows) }
}
