// What every replay writes to standard output.
ghost use Rattle.std.specs.Prelude.{◌≡◌, ◌+◌, ◌%◌, ◌^◌, true, false, MatchResult};
ghost use Rattle.test_lines.specs.declared.report.Difference.TheVariants.{At};

use crate::Malformed;
use crate::lines::{Case, Told};
use std::fmt;

// How many lines that differ are written. Origin: docs/CASES.md, "Replaying".
const SHOWN: u64 = 5;

// Where texts are written piece by piece. A piece that cannot be written is passed over, and those behind it are tried all the same; a text that `print!` writes ends there.
#[derive(Drop)]
struct Pieces<'a, P> {
    to: &'a P,
}

impl<P: Print> fmt::Write for Pieces<'_, P> {
    fn write_str(&mut self, s: &str) -> fmt::Result {
        let _ = Print::write_all(self.to, s.as_bytes());
        Ok(())
    }
}

// Writes a text so: what stands between the braces of its format, and what they hold, are pieces.
pub fn put<P: Print, D: fmt::Display + Drop>(to: &P, text: D) {
    let mut pieces = Pieces { to };
    let _ = fmt::Write::write(&mut pieces, text);
}

// How a line differs: what was answered, and where, or that its words are not as they have to be. No Option: it is an error, which `?` makes of a malformed line.
#[derive(Clone, Copy)]
pub enum Difference<T> {
    At(T),
    Malformed,
}

impl<T: Copy> Difference<T> {
    // What was answered, unless it is what the line says.
    pub fn unless(is_same: bool, got: T) -> Result<(), Difference<T>>
        ensures { MatchResult result (λ _. is_same ≡ true) (λ d. (is_same ≡ false) × (d ≡ At got)) }
    {
        if is_same {
            Ok(())
        } else {
            Err(Difference::At(got))
        }
    }
}

impl<T> From<Malformed> for Difference<T> {
    fn from(_: Malformed) -> Difference<T> {
        Difference::Malformed
    }
}

impl<T: fmt::Display> fmt::Display for Difference<T> {
    fn fmt<W: fmt::Write>(&self, f: &mut fmt::Formatter<W>) -> fmt::Result {
        match self {
            Difference::At(what) => write!(f, "{what}"),
            Difference::Malformed => f.write_str("malformed"),
        }
    }
}

// Each answer has to be what the line says at its place. `position` would give the first place that differs alone.
pub fn each_same<T: Copy, U: Copy, D: Copy, F: Fn(T, U) -> bool, G: Fn(usize, T) -> D>(
    got: &[T],
    told: &[U],
    is_same: F,
    differs: G,
) -> Result<(), Difference<D>>
    requires is_same { F.IsAlwaysCallable is_same }
    requires differs { G.IsAlwaysCallable differs }
{
    for (place, (got, told)) in got.iter().zip(told).enumerate() {
        if !is_same(*got, *told) {
            return Err(Difference::At(differs(place, *got)));
        }
    }
    Ok(())
}

// How many lines differ so far.
#[derive(Clone, Copy)]
pub struct Differences {
    pub count: u64,
}

impl Differences {
    pub fn none() -> Differences {
        Differences { count: 0 }
    }

    // Counts a line that differs, and writes its number, its bytes, where the replay shows them, and the difference, where it is among the first.
    pub fn tell<T: fmt::Display + Copy>(
        &mut self,
        out: &impl Print,
        case: Case<'_>,
        what: Told,
        outcome: Result<(), Difference<T>>,
    ) {
        if let Err(difference) = outcome {
            if self.count < SHOWN {
                let number = case.number;
                put(out, format_args!("line {number}: "));
                let _ = out.write_all(case.told(what));
                match (difference, what) {
                    (Difference::Malformed, Told::Line) => put(
                        out,
                        format_args!("{}\n", " malformed"),
                    ),
                    (Difference::Malformed, Told::Part) => put(out, " malformed\n"),
                    _ => put(out, format_args!("{difference}\n")),
                }
            }
            self.count = self.count.wrapping_add(1);
        }
    }
}

// Names are pieces of their own, here and below.
impl fmt::Display for Differences {
    fn fmt<W: fmt::Write>(&self, f: &mut fmt::Formatter<W>) -> fmt::Result {
        write!(f, "{} {}", "differences", self.count)
    }
}

// A name, what it stands for, and how many lines had it.
#[derive(Clone, Copy)]
pub struct Tally<T> {
    pub name: &'static str,
    pub of: T,
    pub count: u64,
}

impl<T> Tally<T> {
    pub fn of(name: &'static str, of: T) -> Tally<T>
        ensures { (result.name.now ≡ name.now) × (result.of ≡ of) × (result.count ≡ 0) }
    {
        Tally { name, of, count: 0 }
    }

    // One line more.
    pub fn add(&mut self)
        ensures { (self.new.name.now ≡ self.old.name.now) × (self.new.of ≡ self.old.of) × (self.new.count ≡ (self.old.count + 1) % 2 ^ 64) }
    {
        self.count = u64::wrapping_add(self.count, 1);
    }
}

impl<T> fmt::Display for Tally<T> {
    fn fmt<W: fmt::Write>(&self, f: &mut fmt::Formatter<W>) -> fmt::Result {
        write!(f, "{} {}", self.name, self.count)
    }
}

// How many cases there were of each name that had any, how many in all, and how many lines differed.
pub fn write_tallies<T>(out: &impl Print, tallies: &[Tally<T>], differences: Differences) {
    let mut cases: u64 = 0;
    for tally in tallies {
        if tally.count > 0 {
            put(out, format_args!("{tally}\n"));
        }
        cases = cases.wrapping_add(tally.count);
    }
    write_cases(out, cases, differences);
}

// How many cases there were, and how many lines differed.
pub fn write_cases(out: &impl Print, cases: u64, differences: Differences) {
    put(out, format_args!("{} {cases}\n{differences}\n", "cases"));
}
