// What is asked of the layout that is set, compared with the rest of a line.
use crate::Got;
use layout_record::VbapPanner;
use refusals::{Refusal, number_in};
use test_lines::report::{Difference, each_same};
use test_lines::values::{Pattern, Role, Shown, Value};
use test_lines::{Malformed, Words};
use test_record_words::places::places;

// The places of the longest buffer, and the first bits in it: place i holds the float of these bits and i more. Origin: docs/CASES.md, "A row's buffer".
const PLACES: usize = 43;

const HELD: u64 = 0x4e00_0000;

// The number of the refusal that the line says; of a call that is accepted it says 0.
fn refusal(words: &mut Words<'_>) -> Result<Option<u32>, Malformed> {
    let number: u8 = words.read()?;
    Ok((number > 0).then_some(u32::from(number)))
}

fn check_refusal<T>(answer: &Result<T, Refusal>, told: Option<u32>) -> Result<(), Difference<Got>> {
    let got = match answer {
        Ok(_) => None,
        Err(why) => Some(why.number()),
    };
    Difference::unless(got == told, Got::Number(number_in(answer)))
}

// A case of `gains`, from its arguments on. Where the call is accepted, the row reaches as many places as there are outputs.
pub fn check_gains(words: &mut Words<'_>, panner: &VbapPanner) -> Result<(), Difference<Got>> {
    let az = words.read()?;
    let el = words.read()?;
    let n = words.up_to(PLACES)?;
    let refusal = refusal(words)?;
    let mut out = [0.0f32; PLACES];
    let mut want = [Value::Bits(0); PLACES];
    for (bits, (x, w)) in (HELD..HELD + PLACES as u64).zip(out.iter_mut().zip(&mut want)) {
        *x = f32::of_bits(bits);
        *w = Value::Bits(bits);
    }
    let reached = match refusal {
        None => n.min(usize::from(panner.num_outputs)),
        Some(_) => 0,
    };
    want[..reached].fill(Value::Bits(0));
    places(words, &mut want[..reached], Role::Expected)?;
    words.end()?;
    check_refusal(&row_gains::gains(panner, az, el, &mut out[..n]), refusal)?;
    each_same(
        &out,
        &want,
        |x: f32, value: Value| x.pattern().agrees(value),
        |place: usize, x: f32| Got::Place(place, Shown::of(x)),
    )
}

// A case of `num_outputs`, from its results on.
pub fn check_outputs(words: &mut Words<'_>, panner: &VbapPanner) -> Result<(), Difference<Got>> {
    let refusal = refusal(words)?;
    let count: u8 = words.read()?;
    words.end()?;
    let answer = layout_record::num_outputs(panner);
    check_refusal(&answer, refusal)?;
    // Beside a refusal there is no count: the list has 0 there.
    let got = answer.unwrap_or(0);
    Difference::unless(got == usize::from(count), Got::Count(got))
}
