// The end of a list of calls: every field of the session, compared with the rest of a line.
use crate::report::Got;
use mix_block::GAINS;
use session_calls::Session;
use session_standing::PLACES;
use test_call_words::sums::{Sum, record_sum, word_of};
use test_lines::Words;
use test_lines::report::{Difference, each_same};
use test_lines::values::{Pattern, Role, Shown, Value};
use test_record_words::places::places;

// Whether a float is what the line says, as words of a sum.
fn is_same(x: f32, value: Value) -> bool {
    word_of(x.pattern()) == word_of(value)
}

// A session against the words of a line, from the sum of the answers on.
pub fn check_end(words: &mut Words<'_>, s: &Session, sum: Sum) -> Result<(), Difference<Got>> {
    let told: u64 = words.read()?;
    let record: u64 = words.read()?;
    let sources: u8 = words.read()?;
    let mut counts = [0u8; 8];
    let mut standing = [Value::Bits(0); PLACES];
    let mut starts = [Value::Bits(0); GAINS];
    words.fill(&mut counts)?;
    places(words, &mut standing, Role::Expected)?;
    places(words, &mut starts, Role::Expected)?;
    words.end()?;
    Difference::unless(sum.value == told, Got::Answers(sum))?;
    let got_record = record_sum(&s.panner);
    Difference::unless(got_record.value == record, Got::Record(got_record))?;
    Difference::unless(s.sources == sources, Got::Sources(s.sources))?;
    each_same(
        &s.counts,
        &counts,
        |got: u8, told: u8| got == told,
        |place: usize, got: u8| Got::Count(place, got),
    )?;
    each_same(
        &s.standing,
        &standing,
        |x: f32, value: Value| is_same(x, value),
        |place: usize, x: f32| Got::Standing(place, Shown::of(x)),
    )?;
    each_same(
        &s.starts,
        &starts,
        |x: f32, value: Value| is_same(x, value),
        |place: usize, x: f32| Got::Start(place, Shown::of(x)),
    )
}
