// Replay: a list of calls run on a freshly opened channel, with a log of what came.
ghost use Rattle.std.specs.Prelude.{◌≡◌, true, map, length, replicate, pos, is_ok, IfOk};
ghost use Rattle.quantize.specs.Extents.{means};
ghost use Rattle.uniform.specs.Uniform.{uniform};
ghost use Rattle.models.specs.Heights.{Height};
ghost use Rattle.channel.specs.Events.{Untuned};
ghost use Rattle.histories.specs.Logs.{call_of, event_of, page_event, untunable};
ghost use Rattle.histories.specs.Openings.{opening_of};
ghost use Rattle.histories.specs.Tunings.{Retunes};
ghost use Rattle.histories.specs.Promises.{opened, EveryHistory, EveryUniformHistory, TwoEnds};
ghost use Rattle.channel.specs.Steps.{at, state_of, Run, Step};

use channel::walk::Channel;
use measures::logarithm::Fine;
use models::bits::BitArray;
use models::distribution::{Distribution, Inverse};
use models::fault::ModelFault;
use models::model::{DecoderModel, EncoderModel, EntropyModel, IterableEntropyModel};
use quantize::narrow::NarrowSymbol;
use quantize::quantizer::{LeakilyQuantizedDistribution, LeakyQuantizer};
use std::alloc::{AllocError, Global};
use std::convert::Infallible;
use uniform::model::UniformModel;

// The three buffers that a fill is lent, as the rules have them: their sizes, and what they hold before.
#[derive(Clone, Copy)]
pub struct Slots<S, P> {
    pub symbols: usize,
    pub starts: usize,
    pub lengths: usize,
    pub symbol: S,
    pub probability: P,
}

// The three buffers after a fill, and its count.
#[derive(Drop)]
pub struct Page<S, P> {
    pub symbols: Vec<S>,
    pub starts: Vec<P>,
    pub lengths: Vec<P>,
    pub count: usize,
}

#[derive(Clone, Copy)]
pub enum Call<S, P, T> {
    Encode(S),
    Search(P),
    Probability(S),
    TableRow(usize),
    // by the fine logarithm
    Entropy,
    Next,
    Fill(Slots<S, P>),
    Rewind,
    Retune(T),
}

// A call with its answer.
#[derive(Drop)]
pub enum Entry<S, P, T> {
    Encoded(S, Option<(P, P)>),
    Searched(P, Result<(S, P, P), ModelFault>),
    Likely(S, f64),
    Tabled(usize, Option<(S, f64, f64)>),
    Measured(f64),
    Stepped(Option<(S, P, P)>),
    Filled(Slots<S, P>, Page<S, P>),
    Rewound,
    Retuned(T),
}

// A buffer of n times x. (What `vec!` fills with are clones, and a bound does not say that they are x.)
fn blank<T: Copy>(heap: Global, x: T, n: usize) -> Result<Vec<T>, AllocError>
    ensures { IfOk result (λ v. v.items ≡ replicate n x) }
{
    let mut v = Vec::new(heap);
    v.resize(n, x)?;
    Ok(v)
}

// Lends fresh buffers to a fill. Memory is taken before the channel moves.
fn fill_page<M: IterableEntropyModel>(
    heap: Global,
    channel: &mut Channel<M>,
    slots: Slots<M::Symbol, M::Probability>,
) -> Result<Page<M::Symbol, M::Probability>, AllocError>
    ensures model { channel.new.model ≡ channel.old.model }
    ensures step { IfOk result (λ page. Step (state_of M.meaning channel.old) (page_event M.Symbol.whole M.Probability.value slots page) (state_of M.meaning channel.new)) }
{
    let mut symbols = blank(heap, slots.symbol, slots.symbols)?;
    let mut starts = blank(heap, slots.probability, slots.starts)?;
    let mut lengths = blank(heap, slots.probability, slots.lengths)?;
    let count = channel.fill(&mut symbols, &mut starts, &mut lengths);
    Ok(Page {
        symbols,
        starts,
        lengths,
        count,
    })
}

// What a list of calls asks of a model. One that takes no tuning has a `Tuning` without values, and its calls bring none.
trait Replayed: EncoderModel + DecoderModel + IterableEntropyModel {
    type Tuning;

    ghost heights: { Self.Tuning → Height };

    // Retunes a channel, where there is something to retune it by.
    fn retune(channel: &mut Channel<Self>, tuning: Option<Self::Tuning>)
    where
        Self: Sized + Drop,
        ensures { Retunes (state_of Self.EntropyModel.meaning) heights tuning channel.old channel.new };
}

impl<S: NarrowSymbol, P: BitArray, D: Inverse + Drop> Replayed
    for LeakilyQuantizedDistribution<S, P, D> {
    type Tuning = D;

    ghost heights = { D.Distribution.height };

    fn retune(channel: &mut Channel<LeakilyQuantizedDistribution<S, P, D>>, tuning: Option<D>)
        ensures { Retunes (state_of (λ m. means m.quantizer.extent (D.height m.inner))) D.height tuning channel.old channel.new }
    {
        if let Some(distribution) = tuning {
            channel.retune(distribution);
        }
    }
}

// A uniform model has no distribution to take.
impl<P: BitArray> Replayed for UniformModel<P> {
    type Tuning = Infallible;

    ghost heights = { untunable };

    fn retune(channel: &mut Channel<UniformModel<P>>, tuning: Option<Infallible>)
        ensures { Retunes (state_of (λ m. uniform m.precision m.range)) untunable tuning channel.old channel.new }
    {
        match tuning {
            None => {}
            Some(never) => match never {},
        }
    }
}

// Makes one call, and logs it with its answer.
fn apply<M: Replayed + Drop>(
    heap: Global,
    channel: &mut Channel<M>,
    call: &Call<M::Symbol, M::Probability, M::Tuning>,
) -> Result<Entry<M::Symbol, M::Probability, M::Tuning>, AllocError>
where
    M::Tuning: Copy,
    ensures call { IfOk result (λ entry. call_of entry ≡ call.now) }
    ensures step { IfOk result (λ entry. Step (state_of M.meaning channel.old) (event_of M.Symbol.whole M.Probability.value M.Replayed.heights entry) (state_of M.meaning channel.new)) }
{
    match call {
        Call::Encode(symbol) => Ok(Entry::Encoded(*symbol, channel.encode(*symbol))),
        Call::Search(quantile) => Ok(Entry::Searched(*quantile, channel.search(*quantile))),
        Call::Probability(symbol) => Ok(Entry::Likely(
            *symbol,
            channel.floating_point_probability(*symbol),
        )),
        Call::TableRow(index) => Ok(Entry::Tabled(
            *index,
            channel.floating_point_symbol_table(*index),
        )),
        Call::Entropy => Ok(Entry::Measured(channel.entropy_base2::<Fine>())),
        Call::Next => Ok(Entry::Stepped(channel.next())),
        Call::Fill(slots) => Ok(Entry::Filled(*slots, fill_page(heap, channel, *slots)?)),
        Call::Rewind => {
            channel.rewind();
            Ok(Entry::Rewound)
        }
        Call::Retune(tuning) => {
            M::retune(channel, Some(*tuning));
            Ok(Entry::Retuned(*tuning))
        }
    }
}

// Makes the calls in their order. Memory is taken only where there is a call.
fn run<M: Replayed + Drop>(
    heap: Global,
    channel: &mut Channel<M>,
    calls: &[Call<M::Symbol, M::Probability, M::Tuning>],
) -> Result<Vec<Entry<M::Symbol, M::Probability, M::Tuning>>, AllocError>
where
    M::Tuning: Copy,
    ensures calls { IfOk result (λ log. map call_of log.items ≡ calls.now) }
    ensures succeeds { length calls.now ≡ 0 → is_ok result ≡ true }
    ensures run { IfOk result (λ log. Run (state_of M.meaning channel.old) (map (event_of M.Symbol.whole M.Probability.value M.Replayed.heights) log.items) (state_of M.meaning channel.new)) }
{
    let mut log = Vec::new(heap);
    for call in calls {
        log.push(apply(heap, channel, call)?)?;
    }
    Ok(log)
}

// Opens a quantized channel, makes the calls in their order, and hands back the channel and the log.
//
// The contract is the library's main theorem. What happened is the run of these calls from the opening. Every run, of any channel
// and any list of calls, keeps to the intervals of the channel's support, precision and latest heights, and hands out its first rows.
// And what one end encodes, any other end of equal support, precision and heights finds again.
// Only the log and the buffers of fills take memory: want of it is the one error, and no calls want none.
pub fn replay<S: NarrowSymbol, P: BitArray, D: Inverse + Copy>(
    heap: Global,
    quantizer: LeakyQuantizer<S, P>,
    distribution: D,
    calls: &[Call<S, P, D>],
) -> Result<
    (
        Channel<LeakilyQuantizedDistribution<S, P, D>>,
        Vec<Entry<S, P, D>>,
    ),
    AllocError,
>
    ensures calls { IfOk result (λ o. map call_of o.1.items ≡ calls.now) }
    ensures succeeds { length calls.now ≡ 0 → is_ok result ≡ true }
    ensures run { IfOk result (λ o. Run (opened (opening_of quantizer.extent (D.Distribution.height distribution) (D.Distribution.lawful distribution))) (map (event_of S.whole P.value D.Distribution.height) o.1.items) (at (means o.0.model.quantizer.extent (D.Distribution.height o.0.model.inner)) o.0.row)) }
    ensures histories { EveryHistory }
    ensures ends { TwoEnds }
{
    let mut channel = Channel::open(quantizer.quantize(distribution));
    let log = run(heap, &mut channel, calls)?;
    Ok((channel, log))
}

// The same of a uniform channel, whose calls have no retune. Both are one `run`; what they promise of it differs.
pub fn replay_uniform<P: BitArray>(
    heap: Global,
    model: UniformModel<P>,
    calls: &[Call<usize, P, Infallible>],
) -> Result<(Channel<UniformModel<P>>, Vec<Entry<usize, P, Infallible>>), AllocError>
    ensures calls { IfOk result (λ o. map call_of o.1.items ≡ calls.now) }
    ensures succeeds { length calls.now ≡ 0 → is_ok result ≡ true }
    ensures run { IfOk result (λ o. Run (at (uniform model.precision model.range) 0) (map (event_of pos P.value untunable) o.1.items) (at (uniform o.0.model.precision o.0.model.range) o.0.row)) }
    ensures untuned { IfOk result (λ o. Untuned (map (event_of pos P.value untunable) o.1.items)) }
    ensures histories { EveryUniformHistory }
{
    let mut channel = Channel::open(model);
    let log = run(heap, &mut channel, calls)?;
    Ok((channel, log))
}
