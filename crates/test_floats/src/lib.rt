// Replays a list of cases from standard input: computes each with the functions of the float_ crates, and compares bit by bit.
// It writes the first five lines that differ or are malformed, how many cases there were of each function, and how many differed.
#![tactic(auto)]

mod functions;

use functions::{Function, check, tallies};
use std::fmt;
use test_lines::lines::{Case, List, Told};
use test_lines::report::{Difference, Tally, write_tallies};
use test_lines::values::Shown;

// What the function answered, where the line says otherwise.
#[derive(Clone, Copy)]
enum Answered {
    One(Shown),
    Two(Shown, Shown),
}

impl fmt::Display for Answered {
    fn fmt<W: fmt::Write>(&self, f: &mut fmt::Formatter<W>) -> fmt::Result {
        f.write_str(" got")?;
        match self {
            Answered::One(got) => write!(f, " {got}"),
            Answered::Two(first, second) => write!(f, " {first} {second}"),
        }
    }
}

// Checks a case, which counts for its function where it is not malformed, so only after its check.
fn replayed(case: Case<'_>, tallies: &mut [Tally<Function>]) -> Result<(), Difference<Answered>> {
    let mut words = case.words()?;
    let tally = words.tally_of(tallies)?;
    let outcome = check(tally.of, &mut words);
    if let Err(Difference::Malformed) = outcome {
        return outcome;
    }
    tally.add();
    outcome
}

// Replays the list of standard input.
pub fn replay(rt: &(impl Input + Print)) {
    let tallies = &mut tallies()[..];
    let mut list = List::of(rt.reader());
    let differences = list.replay(rt, Told::Part, |case| replayed(case, tallies));
    write_tallies(rt, tallies, differences);
}
