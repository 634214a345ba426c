// Records in and listing out, a piece at a time, so that memory does not grow with either.
ghost use Rattle.std.specs.Prelude.{◌≡◌, ◌≤◌, length, IfOk, MatchResult, OnOk};
ghost use Rattle.records.specs.Buffer.{Room, Emptied};
ghost use Rattle.records.specs.Listing.{Listed};

use crate::listing::{LINE_ROOM, fill_rows};
use models::model::{EntropyModel, IterableEntropyModel};
use std::io;
use std::io::{Read, Write};

// Fills a piece until it is full or the input ends, and answers how many bytes came.
// They are counted: a rest that shrinks would need its first length kept, and a subtraction at the end.
pub fn read_piece<R: Read>(input: &mut R, piece: &mut [u8]) -> io::Result<usize>
    ensures { IfOk result (λ n. n ≤ length piece.new) }
{
    let mut filled = 0;
    while filled < piece.len() {
        let n = input.read(&mut piece[filled..])?;
        if n == 0 {
            break;
        }
        filled += n;
    }
    Ok(filled)
}

// Writes the page out and empties it.
pub fn write_page<W: Write>(page: &mut Vec<u8>, sink: &mut W) -> io::Result<()>
    ensures { MatchResult result (λ _. Emptied page.old page.new) (λ _. page.new ≡ page.old) }
{
    sink.write_all(page.as_slice())?;
    page.clear();
    Ok(())
}

// Lists a whole table, and writes the page out whenever it is full: the last lines stay on it, and a line more has room.
pub fn write_rows<M: IterableEntropyModel, W: Write>(
    page: &mut Vec<u8>,
    sink: &mut W,
    model: &M,
) -> io::Result<()>
    ensures listed { OnOk result (Listed (M.EntropyModel.meaning model.now) page.old page.new) }
    ensures room { OnOk result (Room page.new 64) }
{
    page.reserve(LINE_ROOM)?;
    let mut from = 0;
    while let Some(next) = fill_rows(page, model, from) {
        write_page(page, sink)?;
        from = next;
    }
    Ok(())
}

// A listing on its way out: the page that holds its last lines, and where the pages go.
#[derive(Drop)]
pub struct Listing<W> {
    pub page: Vec<u8>,
    pub sink: W,
}

impl<W: Write> Listing<W> {
    pub fn write_page(&mut self) -> io::Result<()>
        ensures { MatchResult result (λ _. Emptied self.old.page self.new.page) (λ _. self.new.page ≡ self.old.page) }
    {
        write_page(&mut self.page, &mut self.sink)
    }

    pub fn write_rows<M: IterableEntropyModel>(&mut self, model: &M) -> io::Result<()>
        ensures listed { OnOk result (Listed (M.EntropyModel.meaning model.now) self.old.page self.new.page) }
        ensures room { OnOk result (Room self.new.page 64) }
    {
        write_rows(&mut self.page, &mut self.sink, model)
    }
}
