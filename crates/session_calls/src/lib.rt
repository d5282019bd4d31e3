// A session by value: placements that stand for each source, and the row from which its next render starts.
#![tactic(auto)]

ghost use Rattle.std.specs.Prelude.{◌≡◌, ◌<◌, ltb, Float};
ghost use Rattle.refusals.specs.Refusals.{number_in};
ghost use Rattle.lists.specs.Lists.{any};
ghost use Rattle.session_history.specs.Calls.{place, take_back, settle};
ghost use Rattle.session_history.specs.History.{depth};
ghost use Rattle.session_calls.specs.Session.{malformed_session, on_source, number_of, with_starts};
ghost use Rattle.session_calls.specs.Answers.{answer_of, answered, left};

use layout_record::VbapPanner;
use mix_block::{SOURCES, Starts};
use refusals::Refusal;
use session_standing::{Counts, DEPTH, Standing};

// The counts and standing directions lie as crate session_standing says, the start rows as crate mix_block says.
#[derive(Clone, Copy)]
pub struct Session {
    pub panner: VbapPanner,
    pub sources: u8,
    pub counts: Counts,
    pub standing: Standing,
    pub starts: Starts,
}

// ---- refusals

// Whether a standing count is over the depth.
fn counts_over(counts: &Counts) -> bool
    ensures { result ≡ any (λ n. ltb depth n) counts.now }
{
    counts.iter().any(|n| *n > DEPTH)
}

// Whether its layout is malformed, its sources are not 1 to 8, or a standing count is over the depth.
#[tactic(auto, unfolding(crate::specs::Session::malformed_by))]
pub fn malformed_session(s: &Session) -> bool
    ensures { result ≡ malformed_session s.now }
{
    layout_record::malformed(&s.panner)
        | (s.sources < 1)
        | (SOURCES < s.sources as usize)
        | counts_over(&s.counts)
}

// The refusals that the calls on one source share.
#[tactic(auto, unfolding(crate::specs::Session::on_source))]
fn source_refusal(s: &Session, source: usize) -> Result<(), Refusal>
    ensures { number_in result ≡ on_source s.now source 0 }
{
    if malformed_session(s) {
        return Err(Refusal::Malformed);
    }
    if source >= s.sources as usize {
        return Err(Refusal::NoSuchSource);
    }
    Ok(())
}

// What refuses a place, whatever its direction: the shared refusals, then a full list.
#[tactic(auto, using(crate::proofs::Refusals::shared_source))]
pub fn place_refusal(s: &Session, source: usize) -> Result<(), Refusal>
    ensures { (az el : Float) → number_in result ≡ number_of s.now (place source az el) }
{
    source_refusal(s, source)?;
    if s.counts[source] >= DEPTH {
        return Err(Refusal::Full);
    }
    Ok(())
}

// What refuses a take back: the shared refusals, then an empty list.
#[tactic(auto, using(crate::proofs::Refusals::shared_source))]
fn take_back_refusal(s: &Session, source: usize) -> Result<(), Refusal>
    ensures { number_in result ≡ number_of s.now (take_back source) }
{
    source_refusal(s, source)?;
    if s.counts[source] == 0 {
        return Err(Refusal::NoneStands);
    }
    Ok(())
}

// ---- a session by each kind of change

// With other start rows.
pub fn with_starts(s: Session, starts: Starts) -> Session
    ensures { result ≡ with_starts s starts }
{
    Session { starts, ..s }
}

// ---- place, take back, settle on a session that is lent: a session is 7.7 KB, and no copy of it is made. An `Err` leaves it as it is.

// Appends a direction.
#[tactic(auto, using(crate::proofs::Refusals::place_source, crate::proofs::Refusals::place_room))]
pub fn place_on(s: &mut Session, source: usize, az: f32, el: f32) -> Result<(), Refusal>
    ensures { left result s.new ≡ answer_of s.old (place source az el) }
{
    place_refusal(&*s, source)?;
    let n = s.counts[source];
    let az = row_gains::finite_or_0(az);
    let el = row_gains::finite_or_0(el);
    session_standing::put(&mut s.standing, source, n as usize, az, el);
    s.counts[source] = n + 1;
    Ok(())
}

// Removes the last direction, +0 into the freed place.
#[tactic(auto, using(crate::proofs::Refusals::take_source, crate::proofs::Refusals::take_some))]
pub fn take_back_on(s: &mut Session, source: usize) -> Result<(), Refusal>
    ensures { left result s.new ≡ answer_of s.old (take_back source) }
{
    take_back_refusal(&*s, source)?;
    let n = s.counts[source] - 1;
    session_standing::put(&mut s.standing, source, n as usize, 0.0, 0.0);
    s.counts[source] = n;
    Ok(())
}

// Keeps only the last direction; an empty list stays as it is.
#[tactic(auto, using(crate::proofs::Refusals::shared_source, crate::proofs::Refusals::shared_few))]
pub fn settle_on(s: &mut Session, source: usize) -> Result<(), Refusal>
    // The last direction is copied to the first place as it is held. In a hand-made record it may hold a NaN: the promise says that a NaN stands there afterwards,
    // and the code copies its bits. Its sign and payload are not the program's choice, but the logic has one NaN and cannot say so.
    ensures { left result s.new ≡ answer_of s.old (settle source) }
{
    source_refusal(&*s, source)?;
    let n = s.counts[source];
    if n == 0 {
        return Ok(());
    }
    session_standing::keep(&mut s.standing, source, (n - 1) as usize);
    s.counts[source] = 1;
    Ok(())
}

// ---- and on a session by value, as document 01 has it: values handed in and back. An `Err` leaves the caller's session as it is. The three are alike but for the call, which is what each is named for.

pub fn place(s: Session, source: usize, az: f32, el: f32) -> Result<Session, Refusal>
    ensures { answered s result ≡ answer_of s (place source az el) }
{
    let mut s = s;
    place_on(&mut s, source, az, el)?;
    Ok(s)
}

pub fn take_back(s: Session, source: usize) -> Result<Session, Refusal>
    ensures { answered s result ≡ answer_of s (take_back source) }
{
    let mut s = s;
    take_back_on(&mut s, source)?;
    Ok(s)
}

pub fn settle(s: Session, source: usize) -> Result<Session, Refusal>
    ensures { answered s result ≡ answer_of s (settle source) }
{
    let mut s = s;
    settle_on(&mut s, source)?;
    Ok(s)
}
