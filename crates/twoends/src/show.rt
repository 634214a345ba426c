// What a call was and what came, as a line.
use histories::replay::{Entry, Page};
use models::bits::BitArray;
use models::symbol::Symbol;
use std::fmt;

// Prints a log, an entry a line.
pub fn show<S: Symbol, P: BitArray, T>(
    rt: &HostRuntime,
    who: &str,
    log: &[Entry<S, P, T>],
) -> anyhow::Result<()> {
    for entry in log {
        println!(rt; "{who}: {}", Shown(entry))?;
    }
    Ok(())
}

// An entry of a log, as it is printed.
#[derive(Drop)]
struct Shown<'a, S, P, T>(&'a Entry<S, P, T>);

impl<'a, S: Symbol, P: BitArray, T> fmt::Display for Shown<'a, S, P, T> {
    fn fmt<W: fmt::Write>(&self, f: &mut fmt::Formatter<W>) -> fmt::Result {
        match self.0 {
            Entry::Encoded(symbol, Some((start, length))) => {
                let symbol = symbol.to_whole();
                write!(
                    f,
                    "encode {symbol}: start {}, length {}",
                    start.to_u64(),
                    length.to_u64()
                )
            }
            Entry::Encoded(symbol, None) => write!(f, "encode {}: outside", symbol.to_whole()),
            Entry::Searched(quantile, Ok(row)) => {
                write!(f, "search {}: {}", quantile.to_u64(), Row::of(row))
            }
            Entry::Searched(quantile, Err(fault)) => {
                write!(
                    f,
                    "search {}: refused, {}",
                    quantile.to_u64(),
                    fault.number()
                )
            }
            Entry::Likely(symbol, share) => {
                write!(f, "probability of {}: {share}", symbol.to_whole())
            }
            Entry::Tabled(index, Some((symbol, start, length))) => {
                write!(
                    f,
                    "row {index}: {}",
                    Row(symbol.to_whole(), *start, *length)
                )
            }
            Entry::Tabled(index, None) => write!(f, "row {index}: ended"),
            Entry::Measured(bits) => write!(f, "entropy: {bits}"),
            Entry::Stepped(Some(row)) => write!(f, "next: {}", Row::of(row)),
            Entry::Stepped(None) => write!(f, "next: ended"),
            Entry::Filled(_, page) => write!(f, "fill: {}", Buffers(page)),
            Entry::Rewound => write!(f, "rewind"),
            Entry::Retuned(_) => write!(f, "retune"),
        }
    }
}

// A row, its start and length as whole numbers or as shares of 1.
#[derive(Clone, Copy)]
struct Row<N>(i128, N, N);

impl Row<u64> {
    fn of<S: Symbol, P: BitArray>(row: &(S, P, P)) -> Row<u64> {
        let (symbol, start, length) = *row;
        Row(symbol.to_whole(), start.to_u64(), length.to_u64())
    }
}

impl<N: fmt::Display> fmt::Display for Row<N> {
    fn fmt<W: fmt::Write>(&self, f: &mut fmt::Formatter<W>) -> fmt::Result {
        let Row(symbol, start, length) = self;
        write!(f, "{symbol}, start {start}, length {length}")
    }
}

// The whole buffers, so that what lies past the count shows too.
#[derive(Drop)]
struct Buffers<'a, S, P>(&'a Page<S, P>);

impl<'a, S: Symbol, P: BitArray> fmt::Display for Buffers<'a, S, P> {
    fn fmt<W: fmt::Write>(&self, f: &mut fmt::Formatter<W>) -> fmt::Result {
        write!(f, "{} rows; symbols", self.0.count)?;
        for symbol in &self.0.symbols {
            write!(f, " {}", symbol.to_whole())?;
        }
        write!(f, "; starts{}", Column(&self.0.starts))?;
        write!(f, "; lengths{}", Column(&self.0.lengths))
    }
}

// The starts or the lengths of a page, each after a blank.
#[derive(Drop)]
struct Column<'a, P>(&'a [P]);

impl<'a, P: BitArray> fmt::Display for Column<'a, P> {
    fn fmt<W: fmt::Write>(&self, f: &mut fmt::Formatter<W>) -> fmt::Result {
        for value in self.0 {
            write!(f, " {}", value.to_u64())?;
        }
        Ok(())
    }
}
