// The functions that a case may name, and what each takes and answers.
use crate::Answered;
use test_lines::Words;
use test_lines::report::{Difference, Tally};
use test_lines::values::{Answer, Given, Shown};

#[derive(Clone, Copy)]
pub enum Function {
    Sqrt32,
    Clamp,
    Abs32,
    Powi4,
    Sin32,
    Cos32,
    IsFinite32,
    SignBit32,
    Widen,
    SinCos32,
    Max32,
    Min32,
    RemEuclid32,
    Sqrt64,
    Abs64,
    Sin64,
    Cos64,
    Atan64,
    IsFinite64,
    SignBit64,
    Narrow,
    SinCos64,
    Max64,
    RemEuclid64,
    Atan2,
    F32FromU64,
    F64FromU64,
}

// How many functions there are. Origin: docs/CASES.md, "Functions of the numbers".
pub const COUNT: usize = 27;

// Each function beside its name, in the order of the counts that are written.
pub fn tallies() -> [Tally<Function>; COUNT] {
    [
        Tally::of("sqrt32", Function::Sqrt32),
        Tally::of("clamp", Function::Clamp),
        Tally::of("abs32", Function::Abs32),
        Tally::of("powi4", Function::Powi4),
        Tally::of("sin32", Function::Sin32),
        Tally::of("cos32", Function::Cos32),
        Tally::of("is_finite32", Function::IsFinite32),
        Tally::of("sign_bit32", Function::SignBit32),
        Tally::of("widen", Function::Widen),
        Tally::of("sin_cos32", Function::SinCos32),
        Tally::of("max32", Function::Max32),
        Tally::of("min32", Function::Min32),
        Tally::of("rem_euclid32", Function::RemEuclid32),
        Tally::of("sqrt64", Function::Sqrt64),
        Tally::of("abs64", Function::Abs64),
        Tally::of("sin64", Function::Sin64),
        Tally::of("cos64", Function::Cos64),
        Tally::of("atan64", Function::Atan64),
        Tally::of("is_finite64", Function::IsFinite64),
        Tally::of("sign_bit64", Function::SignBit64),
        Tally::of("narrow", Function::Narrow),
        Tally::of("sin_cos64", Function::SinCos64),
        Tally::of("max64", Function::Max64),
        Tally::of("rem_euclid64", Function::RemEuclid64),
        Tally::of("atan2", Function::Atan2),
        Tally::of("f32_from_u64", Function::F32FromU64),
        Tally::of("f64_from_u64", Function::F64FromU64),
    ]
}

// An answer against the last word of a line.
fn compare<R: Answer>(words: &mut Words<'_>, got: R) -> Result<(), Difference<Answered>> {
    let is_same = words.says(got)?;
    words.end()?;
    Difference::unless(is_same, Answered::One(Shown::of(got)))
}

// Both functions below call a closure that they are given, and owe for it the clause that it may be called.

// One answer.
fn one<A: Given, R: Answer, F: Fn(A) -> R>(
    words: &mut Words<'_>,
    f: F,
) -> Result<(), Difference<Answered>>
    requires { F.IsAlwaysCallable f }
{
    let x = words.read()?;
    compare(words, f(x))
}

// Two answers.
fn both<A: Given + Answer, F: Fn(A) -> (A, A)>(
    words: &mut Words<'_>,
    f: F,
) -> Result<(), Difference<Answered>>
    requires { F.IsAlwaysCallable f }
{
    let x = words.read()?;
    let (first, second) = f(x);
    let is_first = words.says(first)?;
    let is_second = words.says(second)?;
    words.end()?;
    Difference::unless(
        is_first && is_second,
        Answered::Two(Shown::of(first), Shown::of(second)),
    )
}

// A function on the arguments of a line, against the answers that it says.
pub fn check(function: Function, words: &mut Words<'_>) -> Result<(), Difference<Answered>> {
    match function {
        Function::Sqrt32 => one(words, |x: f32| float_root::sqrt32(x)),
        Function::Clamp => one(words, |x: f32| float_order::clamp(x)),
        Function::Abs32 => one(words, |x: f32| float_order::abs(x)),
        Function::Powi4 => one(words, |x: f32| float_order::powi4(x)),
        Function::Sin32 => one(words, |x: f32| float_sine::sin32(x)),
        Function::Cos32 => one(words, |x: f32| float_sine::cos32(x)),
        Function::IsFinite32 => one(words, |x: f32| float_order::is_finite(x)),
        Function::SignBit32 => one(words, |x: f32| float_order::sign_bit(x)),
        Function::Widen => one(words, |x: f32| float_widths::widen(x)),
        Function::SinCos32 => both(words, |x: f32| {
            let r = float_sine::sin_cos32(x);
            (r.sin, r.cos)
        }),
        Function::Max32 => one(words, |(x, y): (f32, f32)| float_order::max(x, y)),
        Function::Min32 => one(words, |(x, y): (f32, f32)| float_order::min32(x, y)),
        Function::RemEuclid32 => one(words, |(x, m): (f32, f32)| float_order::rem_euclid(x, m)),
        Function::Sqrt64 => one(words, |x: f64| float_root::sqrt64(x)),
        Function::Abs64 => one(words, |x: f64| float_order::abs(x)),
        Function::Sin64 => one(words, |x: f64| float_sine::sin(x)),
        Function::Cos64 => one(words, |x: f64| float_sine::cos(x)),
        Function::Atan64 => one(words, |x: f64| float_arctangent::atan(x)),
        Function::IsFinite64 => one(words, |x: f64| float_order::is_finite(x)),
        Function::SignBit64 => one(words, |x: f64| float_order::sign_bit(x)),
        Function::Narrow => one(words, |x: f64| float_widths::narrow(x)),
        Function::SinCos64 => both(words, |x: f64| {
            let r = float_sine::sin_cos(x);
            (r.sin, r.cos)
        }),
        Function::Max64 => one(words, |(x, y): (f64, f64)| float_order::max(x, y)),
        Function::RemEuclid64 => one(words, |(x, m): (f64, f64)| float_order::rem_euclid(x, m)),
        Function::Atan2 => one(words, |(y, x): (f64, f64)| float_arctangent::atan2(y, x)),
        Function::F32FromU64 => one(words, |n: u64| float_widths::f32_from_u64(n)),
        Function::F64FromU64 => one(words, |n: u64| float_widths::f64_from_u64(n)),
    }
}
