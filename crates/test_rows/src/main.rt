// Replays a list of rows from standard input: sets layouts, asks each row with `gains` and each count with `num_outputs`, and compares bit by bit.
// It writes the first five lines that differ or are malformed, how many lines there were of each name, and how many differed.
#![tactic(auto)]

mod asked;
mod set;

use layout_record::VbapPanner;
use std::fmt;
use test_lines::lines::{Case, List, Told};
use test_lines::report::{Difference, Differences, Tally, write_tallies};
use test_lines::values::Shown;

#[derive(Clone, Copy)]
enum Name {
    Layout,
    Record,
    Gains,
    NumOutputs,
}

// How many names there are. Origin: Name.
const COUNT: usize = 4;

// What was answered where a line says otherwise: the number, the count, or what the first place that differs holds.
#[derive(Clone, Copy)]
pub enum Got {
    Number(u32),
    Count(usize),
    Place(usize, Shown),
}

impl fmt::Display for Got {
    fn fmt<W: fmt::Write>(&self, f: &mut fmt::Formatter<W>) -> fmt::Result {
        match self {
            Got::Number(got) => write!(f, " got number {got}"),
            Got::Count(got) => write!(f, " got count {got}"),
            Got::Place(place, got) => write!(f, " at {place} got {got}"),
        }
    }
}

// The layout that stands, and how many lines there were of each name.
#[derive(Clone, Copy)]
struct Rows {
    panner: VbapPanner,
    tallies: [Tally<Name>; COUNT],
}

// A line, which counts for its name where it has one. A layout stands until a line sets another.
fn replayed(case: Case<'_>, rows: &mut Rows) -> Result<(), Difference<Got>> {
    let mut words = case.words()?;
    match words.counted(&mut rows.tallies)? {
        Name::Layout => set::layout(&mut words, &mut rows.panner),
        Name::Record => set::record(&mut words, &mut rows.panner),
        Name::Gains => asked::check_gains(&mut words, &rows.panner),
        Name::NumOutputs => asked::check_outputs(&mut words, &rows.panner),
    }
}

// Takes the array, whose length a proof knows: of one that a closure has changed it does not.
fn totals(out: &impl Print, tallies: &[Tally<Name>; COUNT], differences: Differences) {
    write_tallies(out, tallies, differences);
}

fn main(rt: HostRuntime) {
    let mut rows = Rows {
        // Before the first line the layout is the one that stands beside a refusal.
        panner: layout_record::no_panner(),
        tallies: [
            Tally::of("layout", Name::Layout),
            Tally::of("record", Name::Record),
            Tally::of("gains", Name::Gains),
            Tally::of("num_outputs", Name::NumOutputs),
        ],
    };
    let mut list = List::of(rt.reader());
    let differences = list.replay(&rt, Told::Line, |case| replayed(case, &mut rows));
    totals(&rt, &rows.tallies, differences);
}
