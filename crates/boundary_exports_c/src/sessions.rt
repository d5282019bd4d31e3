// A session in two lent arrays, for callers of C: the functions of `boundary_exports::sessions`, whose clauses they state again.
ghost use Rattle.std.specs.Prelude.{◌≡◌};
ghost use Rattle.session_history.specs.Calls.{place, take_back, settle, render};
ghost use Rattle.session_calls.specs.Session.{rendered_buffer};
ghost use Rattle.session_calls.specs.Answers.{answer_of};
ghost use Rattle.session_open.specs.Open.{open_of};
ghost use Rattle.boundary_records.specs.Sessions.{session_bytes, session_floats, session_from, written, bytes_left, floats_left, place_take_back};

use boundary_records::sessions::{SessionBytes, SessionFloats};

// `boundary_exports::sessions::panner_open`.
#[unsafe(no_mangle)]
pub extern "C" fn panner_open(
    positions: &[f32],
    lfe: &[usize],
    sources: usize,
    imaginary: &mut usize,
    bytes: &mut SessionBytes,
    floats: &mut SessionFloats,
) -> u32
    ensures number { result ≡ (open_of positions.now lfe.now sources).number }
    ensures imaginary { imaginary.new ≡ written result (open_of positions.now lfe.now sources).imaginary imaginary.old }
    ensures bytes { bytes.new ≡ written result (session_bytes (open_of positions.now lfe.now sources).session) bytes.old }
    ensures floats { floats.new ≡ written result (session_floats (open_of positions.now lfe.now sources).session) floats.old }
{
    boundary_exports::sessions::panner_open(positions, lfe, sources, imaginary, bytes, floats)
}

// `boundary_exports::sessions::panner_place`.
#[unsafe(no_mangle)]
pub extern "C" fn panner_place(
    bytes: &mut SessionBytes,
    floats: &mut SessionFloats,
    source: usize,
    az: f32,
    el: f32,
) -> u32
    ensures number { result ≡ (answer_of (session_from bytes.old floats.old) (place source az el)).number }
    ensures bytes { bytes.new ≡ bytes_left bytes.old (answer_of (session_from bytes.old floats.old) (place source az el)) }
    ensures floats { floats.new ≡ floats_left floats.old (answer_of (session_from bytes.old floats.old) (place source az el)) }
{
    boundary_exports::sessions::panner_place(bytes, floats, source, az, el)
}

// `boundary_exports::sessions::panner_take_back`.
#[unsafe(no_mangle)]
pub extern "C" fn panner_take_back(
    bytes: &mut SessionBytes,
    floats: &mut SessionFloats,
    source: usize,
) -> u32
    ensures number { result ≡ (answer_of (session_from bytes.old floats.old) (take_back source)).number }
    ensures bytes { bytes.new ≡ bytes_left bytes.old (answer_of (session_from bytes.old floats.old) (take_back source)) }
    ensures floats { floats.new ≡ floats_left floats.old (answer_of (session_from bytes.old floats.old) (take_back source)) }
{
    boundary_exports::sessions::panner_take_back(bytes, floats, source)
}

// `boundary_exports::sessions::panner_settle`.
#[unsafe(no_mangle)]
pub extern "C" fn panner_settle(
    bytes: &mut SessionBytes,
    floats: &mut SessionFloats,
    source: usize,
) -> u32
    ensures number { result ≡ (answer_of (session_from bytes.old floats.old) (settle source)).number }
    ensures bytes { bytes.new ≡ bytes_left bytes.old (answer_of (session_from bytes.old floats.old) (settle source)) }
    ensures floats { floats.new ≡ floats_left floats.old (answer_of (session_from bytes.old floats.old) (settle source)) }
{
    boundary_exports::sessions::panner_settle(bytes, floats, source)
}

// `boundary_exports::sessions::panner_render`.
#[unsafe(no_mangle)]
pub extern "C" fn panner_render(
    bytes: &mut SessionBytes,
    floats: &mut SessionFloats,
    block: usize,
    samples: &[f32],
    outputs: &mut [f32],
) -> u32
    ensures number { result ≡ (answer_of (session_from bytes.old floats.old) (render block samples.now outputs.old)).number }
    ensures bytes { bytes.new ≡ bytes_left bytes.old (answer_of (session_from bytes.old floats.old) (render block samples.now outputs.old)) }
    ensures floats { floats.new ≡ floats_left floats.old (answer_of (session_from bytes.old floats.old) (render block samples.now outputs.old)) }
    ensures buffer { outputs.new ≡ rendered_buffer (session_from bytes.old floats.old) block samples.now outputs.old }
{
    boundary_exports::sessions::panner_render(bytes, floats, block, samples, outputs)
}

// `boundary_exports::sessions::panner_place_take_back_all`.
#[unsafe(no_mangle)]
pub extern "C" fn panner_place_take_back_all(
    bytes: &mut SessionBytes,
    floats: &mut SessionFloats,
    source: usize,
    az: &[f32],
    el: &[f32],
) -> u32
    ensures number { result ≡ (place_take_back (session_from bytes.old floats.old) source az.now el.now).number }
    ensures bytes { bytes.new ≡ bytes_left bytes.old (place_take_back (session_from bytes.old floats.old) source az.now el.now) }
    ensures floats { floats.new ≡ floats_left floats.old (place_take_back (session_from bytes.old floats.old) source az.now el.now) }
{
    boundary_exports::sessions::panner_place_take_back_all(bytes, floats, source, az, el)
}
