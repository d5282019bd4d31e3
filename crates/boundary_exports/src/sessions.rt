// A session in two lent arrays. A call takes it in, and where it is accepted hands its own part back; the record's places stay.
// Place, take back, settle and render are alike but for the call: the C interface has a function for each.
ghost use Rattle.std.specs.Prelude.{◌≡◌};
ghost use Rattle.session_history.specs.Calls.{place, take_back, settle, render};
ghost use Rattle.session_calls.specs.Session.{rendered_buffer};
ghost use Rattle.session_calls.specs.Answers.{answer_of};
ghost use Rattle.session_open.specs.Open.{open_of};
ghost use Rattle.boundary_records.specs.Sessions.{session_bytes, session_floats, session_from, written, bytes_left, floats_left, place_take_back};

use boundary_records::sessions::{SessionBytes, SessionFloats, hand_out, leave, taken_in};
use refusals::number_in;

// `session_open::open`: its number, and where it is 0 the imaginary count and the session. No float of such a session is a NaN.
pub fn panner_open(
    positions: &[f32],
    lfe: &[usize],
    sources: usize,
    imaginary: &mut usize,
    bytes: &mut SessionBytes,
    floats: &mut SessionFloats,
) -> u32
    ensures number { result ≡ (open_of positions.now lfe.now sources).number }
    ensures imaginary { imaginary.new ≡ written result (open_of positions.now lfe.now sources).imaginary imaginary.old }
    ensures bytes { bytes.new ≡ written result (session_bytes (open_of positions.now lfe.now sources).session) bytes.old }
    ensures floats { floats.new ≡ written result (session_floats (open_of positions.now lfe.now sources).session) floats.old }
{
    let answer = session_open::open(positions, lfe, sources);
    if let Ok(opened) = &answer {
        *imaginary = opened.imaginary;
        hand_out(&opened.session, bytes, floats);
    }
    number_in(&answer)
}

// `session_calls::place`. Every float travels, and an angle that is not finite is written as +0.
pub fn panner_place(
    bytes: &mut SessionBytes,
    floats: &mut SessionFloats,
    source: usize,
    az: f32,
    el: f32,
) -> u32
    ensures number { result ≡ (answer_of (session_from bytes.old floats.old) (place source az el)).number }
    ensures bytes { bytes.new ≡ bytes_left bytes.old (answer_of (session_from bytes.old floats.old) (place source az el)) }
    ensures floats { floats.new ≡ floats_left floats.old (answer_of (session_from bytes.old floats.old) (place source az el)) }
{
    let mut s = taken_in(bytes, floats);
    let r = session_calls::place_on(&mut s, source, az, el);
    leave(r, &s, bytes, floats)
}

// `session_calls::take_back`. Every float travels.
pub fn panner_take_back(bytes: &mut SessionBytes, floats: &mut SessionFloats, source: usize) -> u32
    ensures number { result ≡ (answer_of (session_from bytes.old floats.old) (take_back source)).number }
    ensures bytes { bytes.new ≡ bytes_left bytes.old (answer_of (session_from bytes.old floats.old) (take_back source)) }
    ensures floats { floats.new ≡ floats_left floats.old (answer_of (session_from bytes.old floats.old) (take_back source)) }
{
    let mut s = taken_in(bytes, floats);
    let r = session_calls::take_back_on(&mut s, source);
    leave(r, &s, bytes, floats)
}

// `session_calls::settle`. Every float travels, the moved direction of a session made by hand too: it keeps its bits.
pub fn panner_settle(bytes: &mut SessionBytes, floats: &mut SessionFloats, source: usize) -> u32
    ensures number { result ≡ (answer_of (session_from bytes.old floats.old) (settle source)).number }
    ensures bytes { bytes.new ≡ bytes_left bytes.old (answer_of (session_from bytes.old floats.old) (settle source)) }
    ensures floats { floats.new ≡ floats_left floats.old (answer_of (session_from bytes.old floats.old) (settle source)) }
{
    let mut s = taken_in(bytes, floats);
    let r = session_calls::settle_on(&mut s, source);
    leave(r, &s, bytes, floats)
}

// `session_render::render`. A NaN among the outputs, and in the start rows of a session whose layout was made by hand, is computed: its sign and
// payload are the program's choice, and each is a quiet NaN. The other places of the session keep their bits, and all places beside a refusal.
pub fn panner_render(
    bytes: &mut SessionBytes,
    floats: &mut SessionFloats,
    block: usize,
    samples: &[f32],
    outputs: &mut [f32],
) -> u32
    ensures number { result ≡ (answer_of (session_from bytes.old floats.old) (render block samples.now outputs.old)).number }
    ensures bytes { bytes.new ≡ bytes_left bytes.old (answer_of (session_from bytes.old floats.old) (render block samples.now outputs.old)) }
    ensures floats { floats.new ≡ floats_left floats.old (answer_of (session_from bytes.old floats.old) (render block samples.now outputs.old)) }
    ensures buffer { outputs.new ≡ rendered_buffer (session_from bytes.old floats.old) block samples.now outputs.old }
{
    let mut s = taken_in(bytes, floats);
    let r = session_render::render_on(&mut s, block, samples, outputs);
    leave(r, &s, bytes, floats)
}

// For each direction a place and a take back, up to the first that is refused, on a session that is read once; where one is refused, nothing is written.
pub fn panner_place_take_back_all(
    bytes: &mut SessionBytes,
    floats: &mut SessionFloats,
    source: usize,
    az: &[f32],
    el: &[f32],
) -> u32
    ensures number { result ≡ (place_take_back (session_from bytes.old floats.old) source az.now el.now).number }
    ensures bytes { bytes.new ≡ bytes_left bytes.old (place_take_back (session_from bytes.old floats.old) source az.now el.now) }
    ensures floats { floats.new ≡ floats_left floats.old (place_take_back (session_from bytes.old floats.old) source az.now el.now) }
{
    let mut s = taken_in(bytes, floats);
    let r = boundary_records::directions::place_take_back(&mut s, source, az, el);
    leave(r, &s, bytes, floats)
}
