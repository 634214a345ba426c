// Uniform channels: u64 symbols from 0, u32 probabilities.
ghost use Rattle.std.specs.Prelude.{pos};
ghost use Rattle.channel.specs.Answered.{buffers_of};
ghost use Rattle.channel.specs.Steps.{at, itself};
ghost use Rattle.toghinzu.specs.Calls.{Opened, Encoded, Searched, Paged};
ghost use Rattle.toghinzu.specs.Channels.{opened_uniform, uniform_due, uniform_means, uniform_row, uniform_onward};

use crate::calls::{Described, encode, fill, open, search};
use crate::parts::{Interval, UniformChannel, UniformRow};
use crate::refused::tell;
use records::fault::RecordFault;
use uniform::model::UniformModel;

impl Described for UniformChannel {
    type Model = UniformModel<u32>;

    type Row = UniformRow;

    ghost due = { uniform_due };

    ghost means = { uniform_means };

    ghost reads = { uniform_row };

    ghost handed = { λ c. c.row };

    ghost onward = { uniform_onward };

    // The precision is checked first, then the range.
    fn model(&self) -> Result<UniformModel<u32>, RecordFault> {
        Ok(UniformModel::new(self.precision, self.range as usize)?)
    }

    fn row_of(symbol: usize, start: u32, length: u32) -> UniformRow {
        UniformRow {
            symbol: symbol as u64,
            start,
            length,
        }
    }

    fn handed(&self) -> usize {
        self.row as usize
    }

    fn advance(&mut self, rows: usize) {
        self.row += rows as u64;
    }
}

#[unsafe(no_mangle)]
pub extern "C" fn toghinzu_uniform_open(
    channel: &mut UniformChannel,
    range: u64,
    precision: u32,
) -> i32
    ensures { Opened (uniform_due (opened_uniform range precision)) (opened_uniform range precision) channel.old channel.new result }
{
    let asked = UniformChannel {
        range,
        precision,
        row: 0,
    };
    tell(open(&asked, asked), channel)
}

#[unsafe(no_mangle)]
pub extern "C" fn toghinzu_uniform_encode(
    channel: &UniformChannel,
    symbol: u64,
    interval: &mut Interval,
) -> i32
    ensures { Encoded (uniform_due channel.now) (uniform_means channel.now) (pos symbol) interval.old interval.new result }
{
    tell(encode(channel, symbol as usize), interval)
}

#[unsafe(no_mangle)]
pub extern "C" fn toghinzu_uniform_search(
    channel: &UniformChannel,
    quantile: u32,
    row: &mut UniformRow,
) -> i32
    ensures { Searched uniform_row (uniform_due channel.now) (uniform_means channel.now) quantile row.old row.new result }
{
    tell(search(channel, quantile), row)
}

#[unsafe(no_mangle)]
pub extern "C" fn toghinzu_uniform_fill(
    channel: &mut UniformChannel,
    symbols: &mut [usize],
    starts: &mut [u32],
    lengths: &mut [u32],
    count: &mut usize,
) -> i32
    ensures { Paged uniform_onward (uniform_due channel.old) (at (uniform_means channel.old) channel.old.row) (record { channel = channel.old; buffers = buffers_of pos itself symbols.old starts.old lengths.old; count = count.old }) (record { channel = channel.new; buffers = buffers_of pos itself symbols.new starts.new lengths.new; count = count.new }) result }
{
    tell(fill(channel, symbols, starts, lengths), count)
}
