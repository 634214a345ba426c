// The four calls, once for every channel: each answers by the model that the channel's numbers describe.
ghost use Rattle.std.specs.Prelude.{◌≡◌, ℕ, ◌+◌, ◌<◌, ◌^◌, Option};
ghost use Rattle.channel.specs.Answered.{buffers_of};
ghost use Rattle.channel.specs.Rows as rows;
ghost use Rattle.channel.specs.Steps.{at, itself};
ghost use Rattle.models.specs.Answers.{Makes};
ghost use Rattle.models.specs.Meaning.{Meaning};
ghost use Rattle.records.specs.declared.fault.RecordFault as fault;
ghost use Rattle.toghinzu.specs.Calls.{Opened, Encoded, Searched, Paged};
ghost use Rattle.toghinzu.specs.Told.{status_of, place_of};

use crate::parts::Interval;
use crate::refused::Refused;
use channel::page::page;
use models::model::{DecoderModel, EncoderModel, EntropyModel, IterableEntropyModel};
use records::fault::RecordFault;

// A channel as a caller hands it over: a plain struct of numbers, of which nothing is known.
pub(crate) trait Described: Copy {
    type Model: EncoderModel<Probability = u32> + DecoderModel + IterableEntropyModel + Drop;

    type Row: Copy;

    // the refusal that is due for it
    ghost due: { Self → Option fault.RecordFault };

    // what its model means where none is due
    ghost means: { Self → Meaning };

    // a row that is written, as whole numbers
    ghost reads: { Self.Row → rows.Row };

    // how many rows its walk has handed out
    ghost handed: { Self → ℕ };

    // the channel with so many rows more handed out
    ghost onward: { Self → ℕ → Self };

    fn model(&self) -> Result<Self::Model, RecordFault>
        ensures { Makes (due self.now) (λ m. Self.Model.EntropyModel.meaning m ≡ means self.now) result };

    fn row_of(symbol: <Self::Model as EntropyModel>::Symbol, start: u32, length: u32) -> Self::Row
        ensures { reads result ≡ (Self.Model.Symbol.whole symbol, start, length) };

    // Each channel writes `handed` and `advance` with the same text: each struct has a field of its own, and a trait has none.
    fn handed(&self) -> usize
        ensures { result ≡ handed self.now };

    fn advance(&mut self, rows: usize)
        requires { handed self.old + rows < 2 ^ 64 }
        ensures { self.new ≡ onward self.old rows };
}

// The channel that is asked for, where the one that is looked at describes a model.
pub(crate) fn open<C: Described>(looked_at: &C, asked: C) -> Result<C, Refused>
    ensures { (before : C) → Opened (C.due looked_at.now) asked before (place_of before result) (status_of result) }
{
    looked_at.model()?;
    Ok(asked)
}

// The interval of a symbol.
pub(crate) fn encode<C: Described>(
    channel: &C,
    symbol: <C::Model as EntropyModel>::Symbol,
) -> Result<Interval, Refused>
    ensures { (before : _) → Encoded (C.due channel.now) (C.means channel.now) (C.Model.Symbol.whole symbol) before (place_of before result) (status_of result) }
{
    let model = channel.model()?;
    let Some((start, length)) = model.left_cumulative_and_probability(symbol) else {
        return Err(Refused::Outside);
    };
    Ok(Interval { start, length })
}

// The row that holds a quantile.
pub(crate) fn search<C: Described>(channel: &C, quantile: u32) -> Result<C::Row, Refused>
    ensures { (before : _) → Searched C.reads (C.due channel.now) (C.means channel.now) quantile before (place_of before result) (status_of result) }
{
    let model = channel.model()?;
    let (symbol, start, length) = model.quantile_function(quantile)?;
    Ok(C::row_of(symbol, start, length))
}

// The next rows of the walk, in the buffers, and how many they are. They are three buffers because the C interface has three.
pub(crate) fn fill<C: Described>(
    channel: &mut C,
    symbols: &mut [<C::Model as EntropyModel>::Symbol],
    starts: &mut [u32],
    lengths: &mut [u32],
) -> Result<usize, Refused>
    ensures { (before : ℕ) → Paged C.onward (C.due channel.old) (at (C.means channel.old) (C.handed channel.old)) (record { channel = channel.old; buffers = buffers_of C.Model.Symbol.whole itself symbols.old starts.old lengths.old; count = before }) (record { channel = channel.new; buffers = buffers_of C.Model.Symbol.whole itself symbols.new starts.new lengths.new; count = place_of before result }) (status_of result) }
{
    let model = channel.model()?;
    let written = page(&model, channel.handed(), symbols, starts, lengths);
    channel.advance(written);
    Ok(written)
}
