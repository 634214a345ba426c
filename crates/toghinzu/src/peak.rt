// Peak channels: i32 symbols, u32 probabilities.
ghost use Rattle.std.specs.Prelude.{ℤ};
ghost use Rattle.channel.specs.Answered.{buffers_of};
ghost use Rattle.channel.specs.Steps.{at, itself};
ghost use Rattle.toghinzu.specs.Calls.{Opened, Encoded, Searched, Paged};
ghost use Rattle.toghinzu.specs.Channels.{opened_peak, peak_due, peak_means, peak_row, peak_onward};

use crate::calls::{Described, encode, fill, open, search};
use crate::parts::{Interval, PeakChannel, PeakRow};
use crate::refused::tell;
use distributions::peak::Peak;
use quantize::quantizer::LeakilyQuantizedDistribution;
use records::fault::RecordFault;
use records::layout::PeakFields;
use records::opening::open_peak;

impl Described for PeakChannel {
    type Model = LeakilyQuantizedDistribution<i32, u32, Peak>;

    type Row = PeakRow;

    ghost due = { peak_due };

    ghost means = { peak_means };

    ghost reads = { peak_row };

    ghost handed = { λ c. c.row };

    ghost onward = { peak_onward };

    // The support is checked first, then the shape of the Peak.
    fn model(&self) -> Result<LeakilyQuantizedDistribution<i32, u32, Peak>, RecordFault> {
        open_peak(PeakFields {
            precision: self.precision,
            min: self.min,
            max: self.max,
            centre: self.centre,
            scale: self.scale,
        })
    }

    fn row_of(symbol: i32, start: u32, length: u32) -> PeakRow {
        PeakRow {
            symbol,
            start,
            length,
        }
    }

    fn handed(&self) -> usize {
        self.row as usize
    }

    fn advance(&mut self, rows: usize) {
        self.row += rows as u64;
    }
}

#[unsafe(no_mangle)]
pub extern "C" fn toghinzu_peak_open(
    channel: &mut PeakChannel,
    min: i32,
    max: i32,
    precision: u32,
    centre: f64,
    scale: f64,
) -> i32
    ensures { Opened (peak_due (opened_peak min max precision centre scale)) (opened_peak min max precision centre scale) channel.old channel.new result }
{
    let asked = PeakChannel {
        min,
        max,
        precision,
        centre,
        scale,
        row: 0,
    };
    tell(open(&asked, asked), channel)
}

#[unsafe(no_mangle)]
pub extern "C" fn toghinzu_peak_encode(
    channel: &PeakChannel,
    symbol: i32,
    interval: &mut Interval,
) -> i32
    ensures { Encoded (peak_due channel.now) (peak_means channel.now) symbol interval.old interval.new result }
{
    tell(encode(channel, symbol), interval)
}

#[unsafe(no_mangle)]
pub extern "C" fn toghinzu_peak_search(
    channel: &PeakChannel,
    quantile: u32,
    row: &mut PeakRow,
) -> i32
    ensures { Searched peak_row (peak_due channel.now) (peak_means channel.now) quantile row.old row.new result }
{
    tell(search(channel, quantile), row)
}

#[unsafe(no_mangle)]
pub extern "C" fn toghinzu_peak_fill(
    channel: &mut PeakChannel,
    symbols: &mut [i32],
    starts: &mut [u32],
    lengths: &mut [u32],
    count: &mut usize,
) -> i32
    ensures { Paged peak_onward (peak_due channel.old) (at (peak_means channel.old) channel.old.row) (record { channel = channel.old; buffers = buffers_of {S = ℤ} itself itself symbols.old starts.old lengths.old; count = count.old }) (record { channel = channel.new; buffers = buffers_of {S = ℤ} itself itself symbols.new starts.new lengths.new; count = count.new }) result }
{
    tell(fill(channel, symbols, starts, lengths), count)
}
