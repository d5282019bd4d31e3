// A session in two lent arrays: its record's places, and behind them its own.
//
// Its bytes: those of the record, the count of sources, and a standing count for each source.
// Its floats: those of the record, the start rows as crate mix_block has them, and the standing directions as crate session_standing has them.
// Each part begins where the one before ends; specs/Places.antt has the same numbers.
ghost use Rattle.std.specs.Prelude.{◌≡◌, ◌++◌, take};
ghost use Rattle.refusals.specs.Refusals.{number_in};
ghost use Rattle.session_calls.specs.declared.Session.{Session};
ghost use Rattle.mix_block.specs.Limits.{most_sources};
ghost use Rattle.boundary_records.specs.Places.{record_byte_places, record_float_places, counts_at, start_places, standing_at, standing_places, session_byte_places, session_float_places};
ghost use Rattle.boundary_records.specs.Sessions.{session_bytes, session_floats, own_bytes, own_floats, session_from, bytes_left, floats_left, left_beside};

use crate::copies::{put, section};
use crate::record;
use mix_block::{GAINS, SOURCES};
use refusals::{Refusal, number_in};
use session_calls::Session;
use session_standing::PLACES;

const COUNTS_AT: usize = record::BYTES + 1;

const STANDING_AT: usize = record::FLOATS + GAINS;

// A session's bytes: those of the record, the count of sources, and the standing counts.
pub const BYTES: usize = COUNTS_AT + SOURCES;

// A session's floats: those of the record, the start rows, and the standing directions.
pub const FLOATS: usize = STANDING_AT + PLACES;

pub type SessionBytes = [u8; BYTES];

pub type SessionFloats = [f32; FLOATS];

// The session in the arrays.
#[tactic(auto, unfolding(crate::specs::Sessions::session_from))]
pub fn taken_in(bytes: &SessionBytes, floats: &SessionFloats) -> Session
    ensures { result ≡ session_from bytes.now floats.now }
{
    Session {
        panner: record::taken_in(bytes, floats),
        sources: bytes[record::BYTES],
        counts: section(bytes, COUNTS_AT),
        standing: section(floats, STANDING_AT),
        starts: section(floats, record::FLOATS),
    }
}

// The session's own part into its places: the count of sources and the standing counts; the start rows and the standing directions. The places of the record stay.
fn hand_out_own(s: &Session, bytes: &mut SessionBytes, floats: &mut SessionFloats)
    ensures bytes { bytes.new ≡ take record_byte_places bytes.old ++ own_bytes s.now }
    ensures floats { floats.new ≡ take record_float_places floats.old ++ own_floats s.now }
{
    put(&[s.sources], bytes, record::BYTES);
    put(&s.counts, bytes, COUNTS_AT);
    put(&s.starts, floats, record::FLOATS);
    put(&s.standing, floats, STANDING_AT);
}

// The whole session into the arrays.
pub fn hand_out(s: &Session, bytes: &mut SessionBytes, floats: &mut SessionFloats)
    ensures bytes { bytes.new ≡ session_bytes s.now }
    ensures floats { floats.new ≡ session_floats s.now }
{
    record::hand_out(&s.panner, bytes, floats);
    hand_out_own(s, bytes, floats);
}

// The answer of a call on the session s that was read from the arrays: its number, and the session's own part where it is accepted. A call leaves the layout as it is.
#[tactic(auto, unfolding(crate::specs::Sessions::bytes_left, crate::specs::Sessions::floats_left))]
pub fn leave(
    answer: Result<(), Refusal>,
    s: &Session,
    bytes: &mut SessionBytes,
    floats: &mut SessionFloats,
) -> u32
    ensures number { result ≡ number_in answer }
    ensures bytes { bytes.new ≡ bytes_left bytes.old (left_beside answer s.now) }
    ensures floats { floats.new ≡ floats_left floats.old (left_beside answer s.now) }
{
    if answer.is_ok() {
        hand_out_own(s, bytes, floats);
    }
    number_in(&answer)
}
