// The names of lines, how a line differs, and what the lists of a replay come to.
use refusals::Refusal;
use std::fmt;
use test_call_words::sums::Sum;
use test_lines::report::{Differences, Tally, put};
use test_lines::values::Shown;

#[derive(Clone, Copy)]
pub enum Name {
    Open,
    Session,
    Place,
    TakeBack,
    Settle,
    Render,
    End,
}

// How many names there are. Origin: Name.
pub const COUNT: usize = 7;

// How many numbers a call may answer: 0, and those of the refusals, of which Malformed is the last.
pub const NUMBERS: usize = Refusal::Malformed as usize + 1;

pub fn tallies() -> [Tally<Name>; COUNT] {
    [
        Tally::of("open", Name::Open),
        Tally::of("session", Name::Session),
        Tally::of("place", Name::Place),
        Tally::of("take_back", Name::TakeBack),
        Tally::of("settle", Name::Settle),
        Tally::of("render", Name::Render),
        Tally::of("end", Name::End),
    ]
}

// What was answered where a line says otherwise, and at which place.
#[derive(Clone, Copy)]
pub enum Got {
    Number(u32),
    Imaginary(usize),
    Answers(Sum),
    Record(Sum),
    Sources(u8),
    Count(usize, u8),
    Standing(usize, Shown),
    Start(usize, Shown),
}

impl fmt::Display for Got {
    fn fmt<W: fmt::Write>(&self, f: &mut fmt::Formatter<W>) -> fmt::Result {
        match self {
            Got::Number(got) => write!(f, " got number {got}"),
            Got::Imaginary(got) => write!(f, " got imaginary {got}"),
            Got::Answers(got) => write!(f, " got sum of answers {got}"),
            Got::Record(got) => write!(f, " got sum of record {got}"),
            Got::Sources(got) => write!(f, " got sources {got}"),
            Got::Count(place, got) => write!(f, " count {place} got {got}"),
            Got::Standing(place, got) => write!(f, " standing {place} got {got}"),
            Got::Start(place, got) => write!(f, " start {place} got {got}"),
        }
    }
}

// How many lines there were of each name, how often each number was answered, and how many calls, lists and lines that differ there were.
pub fn totals(
    out: &impl Print,
    tallies: &[Tally<Name>; COUNT],
    numbers: &[u64; NUMBERS],
    differences: Differences,
) {
    let mut calls: u64 = 0;
    let mut lists: u64 = 0;
    for tally in tallies {
        match tally.of {
            Name::End => lists = tally.count,
            Name::Session => put(out, format_args!("{tally}\n")),
            _ => {
                put(out, format_args!("{tally}\n"));
                calls = calls.wrapping_add(tally.count);
            }
        }
    }
    for (number, count) in numbers.iter().enumerate() {
        put(out, format_args!("number {number}{} {count}\n", ":"));
    }
    put(
        out,
        format_args!("{} {calls}\n{} {lists}\n{differences}\n", "calls", "lists"),
    );
}
