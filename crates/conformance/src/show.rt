// One line for each answer: what was asked, and what came.
use models::bits::BitArray;
use models::fault::ModelFault;
use models::model::{EntropyModel, IterableEntropyModel};
use models::table::Rows;
use std::fmt;
use std::fmt::Display;

// The start of each row, from the first on.
pub fn show_starts<M: IterableEntropyModel>(
    rt: &HostRuntime,
    name: &str,
    model: &M,
) -> anyhow::Result<()> {
    show_column(rt, format_args!("{name}: starts"), model, |start, _| start)
}

// The length of each row, from the first on.
pub fn show_lengths<M: IterableEntropyModel>(
    rt: &HostRuntime,
    name: &str,
    model: &M,
) -> anyhow::Result<()> {
    show_column(rt, format_args!("{name}: lengths"), model, |_, length| {
        length
    })
}

// What is taken of the start and the length of each row.
fn show_column<M, C, F>(rt: &HostRuntime, column: C, model: &M, take: F) -> anyhow::Result<()>
where
    M: IterableEntropyModel,
    C: Display + Drop,
    F: Fn(M::Probability, M::Probability) -> M::Probability + Drop,
    requires { F.IsAlwaysCallable take }
{
    print!(rt; "{column}")?;
    for (_, start, length) in Rows::of(model) {
        print!(rt; " {}", take(start, length).to_u64())?;
    }
    println!(rt; "")?;
    Ok(())
}

// A row, as it is printed.
#[derive(Clone, Copy)]
struct Row((i128, u64, u64));

impl Display for Row {
    fn fmt<W: fmt::Write>(&self, f: &mut fmt::Formatter<W>) -> fmt::Result {
        let Row((symbol, start, length)) = self;
        write!(f, "{symbol} {start} {length}")
    }
}

// The row of a quantile, as it came.
pub fn show_row(
    rt: &HostRuntime,
    name: &str,
    quantile: u32,
    came: Result<(i128, u64, u64), ModelFault>,
) -> anyhow::Result<()> {
    show_answer(
        rt,
        format_args!("{name}, quantile {quantile}"),
        came.map(Row),
    )
}

// What a maker said.
pub fn show_made<T: Drop>(
    rt: &HostRuntime,
    name: &str,
    made: Result<T, ModelFault>,
) -> anyhow::Result<()> {
    show_answer(rt, name, made.map(|_| "made"))
}

// An answer, or the number of the refusal.
fn show_answer<C: Display + Drop, T: Display + Drop>(
    rt: &HostRuntime,
    asked: C,
    came: Result<T, ModelFault>,
) -> anyhow::Result<()> {
    match came {
        Ok(answer) => println!(rt; "{asked}: {answer}")?,
        Err(fault) => println!(rt; "{asked}: refused {}", fault.number())?,
    }
    Ok(())
}

// The interval of a symbol, as it came.
pub fn show_interval(
    rt: &HostRuntime,
    name: &str,
    symbol: usize,
    came: Option<(u64, u64)>,
) -> anyhow::Result<()> {
    match came {
        Some((start, length)) => println!(rt; "{name}, symbol {symbol}: {start} {length}")?,
        None => println!(rt; "{name}, symbol {symbol}: outside")?,
    }
    Ok(())
}
