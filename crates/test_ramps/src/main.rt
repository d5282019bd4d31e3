// Replays a list of ramps and mixed gains from standard input: computes each with `mix_ramp::ramp_add` and `mix_gain::normalized_lerp_gain`, and compares bit by bit.
// It writes the first five lines that differ or are malformed, how many cases there were of each function, and how many differed.
#![tactic(auto)]

use std::fmt;
use test_lines::Words;
use test_lines::lines::{Case, List, Told};
use test_lines::report::{Difference, Tally, each_same, write_tallies};
use test_lines::values::{Form, Pattern, Role, Shown, Value};

// The most samples that a line may list. Origin: docs/CASES.md, "Rows and ramps".
const SAMPLES: usize = 1024;

#[derive(Clone, Copy)]
enum Function {
    RampAdd,
    NormalizedLerpGain,
}

// The first place that differs, and what was answered there.
#[derive(Clone, Copy)]
struct Other {
    place: usize,
    got: Shown,
}

impl fmt::Display for Other {
    fn fmt<W: fmt::Write>(&self, f: &mut fmt::Formatter<W>) -> fmt::Result {
        let Other { place, got } = *self;
        write!(f, " at {place} got {got}")
    }
}

// ---- a case

// Floats against the words that are left of a line.
fn compare(words: &mut Words<'_>, got: &[f32]) -> Result<(), Difference<Other>> {
    let mut told = [Value::Bits(0); SAMPLES];
    for value in told.iter_mut().take(got.len()) {
        *value = words.take(Form::Single, Role::Expected)?;
    }
    words.end()?;
    each_same(
        got,
        &told,
        |x: f32, value: Value| x.pattern().agrees(value),
        |place: usize, x: f32| Other {
            place,
            got: Shown::of(x),
        },
    )
}

// A case of `ramp_add`, from its arguments on.
fn check_ramp(words: &mut Words<'_>) -> Result<(), Difference<Other>> {
    let mut dst = [0.0f32; SAMPLES];
    let mut src = [0.0f32; SAMPLES];
    let dst = words.list(&mut dst)?;
    let src = words.list(&mut src)?;
    let g0 = words.read()?;
    let g1 = words.read()?;
    mix_ramp::ramp_add(dst, src, g0, g1);
    compare(words, dst)
}

// A case of `normalized_lerp_gain`, from its arguments on.
fn check_mix(words: &mut Words<'_>) -> Result<(), Difference<Other>> {
    let from = words.read()?;
    let to = words.read()?;
    let dot = words.read()?;
    let t = words.read()?;
    compare(words, &[mix_gain::normalized_lerp_gain(from, to, dot, t)])
}

// ---- all cases

// Checks a case, which counts for its function where it names one.
fn replayed(case: Case<'_>, tallies: &mut [Tally<Function>]) -> Result<(), Difference<Other>> {
    let mut words = case.words()?;
    match words.counted(tallies)? {
        Function::RampAdd => check_ramp(&mut words),
        Function::NormalizedLerpGain => check_mix(&mut words),
    }
}

fn main(rt: HostRuntime) {
    let tallies = &mut [
        Tally::of("ramp_add", Function::RampAdd),
        Tally::of("normalized_lerp_gain", Function::NormalizedLerpGain),
    ][..];
    let mut list = List::of(rt.reader());
    let differences = list.replay(&rt, Told::Line, |case| replayed(case, tallies));
    write_tallies(&rt, tallies, differences);
}
