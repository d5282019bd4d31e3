// Render: document 01, "Session" ("Render: ..") and refusals 8 to 11.
#![tactic(auto)]

ghost use Rattle.std.specs.Prelude.{◌≡◌, false, ℕ, ◌+◌, ◌*◌, ◌<◌, length, get_or};
ghost use mathlib.Core.List.{flat_map};
ghost use Rattle.std.specs.Float.{nan};
ghost use Rattle.refusals.specs.Refusals.{number_in};
ghost use Rattle.lists.specs.Lists.{range};
ghost use Rattle.mix_block.specs.Limits.{most_sources, row_places};
ghost use Rattle.session_history.specs.Calls.{render};
ghost use Rattle.session_calls.specs.Session.{malformed_session, number_of, target, new_start, rendered_buffer};
ghost use Rattle.session_calls.specs.Answers.{answer_of, answered, left};

use mix_block::{Block, ROW, Starts};
use refusals::Refusal;
use session_calls::Session;
use session_standing::WIDTH;

// The longest block, in samples. Origin: document 01, refusal 8.
const LONGEST_BLOCK: usize = 1024;

// What refuses a render.
fn refusal(s: &Session, block: usize, samples: &[f32], outputs: &[f32]) -> Result<(), Refusal>
    ensures { number_in result ≡ number_of s.now (render block samples.now outputs.now) }
{
    if session_calls::malformed_session(s) {
        return Err(Refusal::Malformed);
    }
    if !(1..=LONGEST_BLOCK).contains(&block) {
        return Err(Refusal::BlockLength);
    }
    if samples.len() != (s.sources as usize) * block {
        return Err(Refusal::SampleLength);
    }
    if outputs.len() != (s.panner.num_outputs as usize) * block {
        return Err(Refusal::OutputLength);
    }
    Ok(())
}

// The row of source i by the last direction that stands: +0 throughout where none stands.
fn target(s: &Session, i: usize, row: &mut [f32])
    requires { (malformed_session s.now ≡ false) × (i < most_sources) × (length row.old ≡ s.now.panner.num_outputs) }
    ensures { row.new ≡ target s.now i }
{
    match s.counts[i].checked_sub(1) {
        None => row_places::zero(row),
        Some(j) => {
            let last = i * WIDTH + (j as usize) * 2;
            // of a record that is not malformed no row is refused
            let _ = row_gains::gains(&s.panner, s.standing[last], s.standing[last + 1], row);
        }
    }
}

// The start rows after a render: for each source its target, the places from outputs on unchanged.
fn new_starts(s: &Session) -> Starts
    requires { malformed_session s.now ≡ false }
    ensures made { result ≡ flat_map (new_start s.now) (range most_sources) }
    ensures gains { (i o : ℕ) → i < s.now.sources → o < s.now.panner.num_outputs → get_or result (i * row_places + o) nan ≡ get_or (target s.now i) o nan }
{
    let outputs = s.panner.num_outputs as usize;
    let mut next = s.starts;
    for i in 0..s.sources as usize {
        let a = i * ROW;
        target(s, i, &mut next[a..a + outputs]);
    }
    next
}

// `block` samples of each source, added to the output buffer; each start row becomes its target. An `Err` leaves the buffer and the session as they are.
pub fn render_on(
    s: &mut Session,
    block: usize,
    samples: &[f32],
    outputs: &mut [f32],
) -> Result<(), Refusal>
    // The program's choice: sign and payload of a gain that is a NaN, in the start rows of a hand-made layout. Every choice is a quiet NaN. Every other number is the definition's, bit for bit.
    ensures value { left result s.new ≡ answer_of s.old (render block samples.now outputs.old) }
    // The program's choice: sign and payload of a ramped sample that is a NaN. Every choice is a quiet NaN. A refused render leaves every sample as it is.
    ensures outputs_after { outputs.new ≡ rendered_buffer s.old block samples.now outputs.old }
{
    refusal(&*s, block, samples, &*outputs)?;
    let to = new_starts(&*s);
    let mixed = Block {
        block,
        outputs: s.panner.num_outputs as usize,
        sources: s.sources as usize,
        samples,
        from: &s.starts,
        to: &to,
    };
    mixed.mix(outputs);
    s.starts = to;
    Ok(())
}

// The same on a session by value. An `Err` leaves the buffer, and the caller's session, as it is.
pub fn render(
    s: Session,
    block: usize,
    samples: &[f32],
    outputs: &mut [f32],
) -> Result<Session, Refusal>
    ensures value { answered s result ≡ answer_of s (render block samples.now outputs.old) }
    ensures outputs_after { outputs.new ≡ rendered_buffer s block samples.now outputs.old }
{
    let mut s = s;
    render_on(&mut s, block, samples, outputs)?;
    Ok(s)
}
