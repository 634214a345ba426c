// Replays the sample: one case a line. Blank lines and lines that begin with # are passed over.
use crate::judging::Unjudged;
use crate::replay::replay;
use samples::case::Case;
use samples::parse::NotACase;
use std::error::Error;
use std::fmt;
use std::io::{BufRead, BufReader};

// Why the answer of a line is not this library's own.
#[derive(Clone, Copy, PartialEq, Eq, Debug)]
enum Difference {
    Unread(NotACase),
    Unjudged(Unjudged),
    Differs,
}

impl fmt::Display for Difference {
    fn fmt<W: fmt::Write>(&self, f: &mut fmt::Formatter<W>) -> fmt::Result {
        match self {
            Difference::Unread(fault) => write!(f, "{fault}"),
            Difference::Unjudged(fault) => write!(f, "{fault}"),
            Difference::Differs => write!(f, "differs"),
        }
    }
}

impl Error for Difference {}

impl From<NotACase> for Difference {
    fn from(fault: NotACase) -> Difference {
        Difference::Unread(fault)
    }
}

impl From<Unjudged> for Difference {
    fn from(fault: Unjudged) -> Difference {
        Difference::Unjudged(fault)
    }
}

fn compare(line: &str) -> Result<(), Difference> {
    let case = line.parse::<Case>()?;
    if replay(case)? {
        Ok(())
    } else {
        Err(Difference::Differs)
    }
}

fn is_passed_over(line: &str) -> bool {
    line.trim().is_empty() || line.starts_with('#')
}

#[derive(Clone, Copy, Default)]
struct Tally {
    answers: u64,
    differences: u64,
}

impl Tally {
    // Counts the answer of a line, and prints it where it is the first that differs.
    fn count(&mut self, rt: &HostRuntime, place: u64, line: &str) -> anyhow::Result<()> {
        if let Err(difference) = compare(line) {
            if self.differences == 0 {
                println!(rt; "sample: line {place}: {line}: {difference}")?;
            }
            self.differences = self.differences.saturating_add(1);
        }
        self.answers = self.answers.saturating_add(1);
        Ok(())
    }
}

// Prints how many answers there are and how many differ, and the first of these.
pub fn replay_sample(rt: &HostRuntime) -> anyhow::Result<()> {
    let mut tally = Tally::default();
    let lines = BufReader::new(rt.alloc(), rt.stdin())?.lines(rt.alloc());
    for (place, line) in (1u64..).zip(lines) {
        let line = line?;
        if !is_passed_over(&line) {
            tally.count(rt, place, &line)?;
        }
    }
    let Tally {
        answers,
        differences,
    } = tally;
    println!(rt; "sample: {answers} answers, {differences} differ")?;
    Ok(())
}
