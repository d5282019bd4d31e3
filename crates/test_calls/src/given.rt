// A session made by hand: a list begins with it.
use layout_record::VbapPanner;
use mix_block::GAINS;
use session_calls::Session;
use session_standing::PLACES;
use test_lines::values::{Pattern, Role, Value};
use test_lines::{Malformed, Words};
use test_record_words::places::places;
use test_record_words::record::record;

// A record with the counts that the line gives behind it.
fn recounted(words: &mut Words<'_>) -> Result<VbapPanner, Malformed> {
    let mut panner = record(words)?;
    panner.num_pairs = words.read()?;
    panner.num_slots = words.read()?;
    panner.num_real = words.read()?;
    panner.num_tris = words.read()?;
    panner.num_imag = words.read()?;
    words.fill(&mut panner.num_nbrs)?;
    Ok(panner)
}

// Floats by their places, NaNs as patterns.
fn floats(words: &mut Words<'_>, listed: &mut [Value], to: &mut [f32]) -> Result<(), Malformed> {
    places(words, listed, Role::Argument)?;
    for (x, value) in to.iter_mut().zip(listed) {
        if let Value::Bits(bits) = *value {
            *x = f32::of_bits(bits);
        }
    }
    Ok(())
}

pub fn session(words: &mut Words<'_>) -> Result<Session, Malformed> {
    let panner = recounted(words)?;
    let sources = words.read()?;
    let mut counts = [0u8; 8];
    words.fill(&mut counts)?;
    let mut standing = [0.0f32; PLACES];
    let mut starts = [0.0f32; GAINS];
    floats(words, &mut [Value::Bits(0); PLACES], &mut standing)?;
    floats(words, &mut [Value::Bits(0); GAINS], &mut starts)?;
    Ok(Session {
        panner,
        sources,
        counts,
        standing,
        starts,
    })
}
