// Replays lists of calls from standard input: opens sessions or takes them as they are given, makes each call, and compares its number, every output buffer and, at the end of a list, the whole session bit by bit.
// It writes the first five lines that differ or are malformed, how many calls there were of each name and how often each number was answered, and how many lines differed.
#![tactic(auto)]

mod call;
mod ending;
mod given;
mod report;

use call::Calls;
use report::{Got, Name, totals};
use session_calls::Session;
use std::io::Read;
use std::{fs, io};
use test_lines::lines::{Case, List, Told};
use test_lines::report::{Difference, put};

// The samples of eight sources, and those of forty outputs. Origin: document 01, refusals 3, 2 and 8; one more than a block may have.
const SAMPLES: usize = 8200;

const OUTPUTS: usize = 41000;

// A line, which counts for its name where it has one. A list begins with a session, and calls stand in a list.
fn replayed(
    case: Case<'_>,
    calls: &mut Calls,
    samples: &mut [f32; SAMPLES],
    outputs: &mut [f32; OUTPUTS],
) -> Result<(), Difference<Got>> {
    let mut words = case.words()?;
    match words.counted(&mut calls.tallies)? {
        Name::Open => calls.open(&mut words),
        Name::Session => calls.give(&mut words),
        Name::Place => calls.place(&mut words),
        Name::TakeBack => calls.on_source(&mut words, |s: Session, source: usize| {
            session_calls::take_back(s, source)
        }),
        Name::Settle => calls.on_source(&mut words, |s: Session, source: usize| {
            session_calls::settle(s, source)
        }),
        Name::Render => calls.render(&mut words, samples, outputs),
        Name::End => calls.end(&mut words),
    }
}

// The lists of a reader, and what they come to. A list that has no end counts as one that differs.
fn replay(out: &impl Print, input: &mut impl Read) {
    let mut calls = Calls::none();
    let mut samples = [0.0f32; SAMPLES];
    let mut outputs = [0.0f32; OUTPUTS];
    let mut list = List::of(input);
    let mut differences = list.replay(out, Told::Line, |case| {
        replayed(case, &mut calls, &mut samples, &mut outputs)
    });
    if calls.is_begun() {
        let outcome: Result<(), Difference<Got>> = Err(Difference::Malformed);
        let line = Case {
            number: list.lines.number,
            line: Ok(b""),
        };
        differences.tell(out, line, Told::Line, outcome);
    }
    totals(out, &calls.tallies, &calls.numbers, differences);
}

// The lists of standard input, none of which may differ; then those of the file `faults`, wrong expectations and malformed lines, which all have to be found.
fn main(rt: HostRuntime) -> io::Result<()> {
    replay(&rt, &mut rt.reader());
    put(&rt, "faults, each of which has to be found:\n");
    replay(&rt, &mut fs::open(&rt, "faults")?);
    Ok(())
}
