// Layouts: `new`, whose record is written to two arrays of the caller, and the calls on such a record. A session's arrays begin with its record's.
ghost use Rattle.std.specs.Prelude.{◌≡◌};
ghost use Rattle.layout_new.specs.Layout.{new_of};
ghost use Rattle.layout_record.specs.Malformed.{num_outputs_of};
ghost use Rattle.row_gains.specs.Gains.{gains_number, gains_buffer};
ghost use Rattle.boundary_records.specs.Records.{record_bytes, record_floats, record_from};
ghost use Rattle.boundary_records.specs.Rows.{rows_of};
ghost use Rattle.boundary_records.specs.Sessions.{written};

use boundary_records::record::{RecordBytes, RecordFloats, hand_out, taken_in};
use refusals::number_in;

// `layout_new::new`: its number, and where it is 0 the imaginary count and the record. No float of such a record is a NaN.
pub fn panner_new(
    positions: &[f32],
    lfe: &[usize],
    imaginary: &mut usize,
    bytes: &mut RecordBytes,
    floats: &mut RecordFloats,
) -> u32
    ensures number { result ≡ (new_of positions.now lfe.now).number }
    ensures imaginary { imaginary.new ≡ written result (new_of positions.now lfe.now).imaginary imaginary.old }
    ensures bytes { bytes.new ≡ written result (record_bytes (new_of positions.now lfe.now).panner) bytes.old }
    ensures floats { floats.new ≡ written result (record_floats (new_of positions.now lfe.now).panner) floats.old }
{
    let answer = layout_new::new(positions, lfe);
    if let Ok(made) = &answer {
        *imaginary = made.imaginary;
        hand_out(&made.panner, bytes, floats);
    }
    number_in(&answer)
}

// `layout_record::num_outputs`: 0 and the count of outputs, or 11 and the count stays as it was.
pub fn panner_num_outputs(bytes: &RecordBytes, floats: &RecordFloats, count: &mut usize) -> u32
    ensures number { result ≡ (num_outputs_of (record_from bytes.now floats.now)).number }
    ensures count { count.new ≡ written result (num_outputs_of (record_from bytes.now floats.now)).count count.old }
{
    let p = taken_in(bytes, floats);
    let counted = layout_record::num_outputs(&p);
    if let Ok(outputs) = &counted {
        *count = *outputs;
    }
    number_in(&counted)
}

// `row_gains::gains`. A NaN in a row of a record made by hand is computed: its sign and payload are the program's choice, and each is a quiet NaN.
// Slots from the outputs on, and all beside 11, keep their bits.
pub fn panner_gains(
    bytes: &RecordBytes,
    floats: &RecordFloats,
    az: f32,
    el: f32,
    out: &mut [f32],
) -> u32
    ensures number { result ≡ gains_number (record_from bytes.now floats.now) }
    ensures buffer { out.new ≡ gains_buffer (record_from bytes.now floats.now) az el out.old }
{
    let p = taken_in(bytes, floats);
    let answer = row_gains::gains(&p, az, el, out);
    number_in(&answer)
}

// A row for each direction, `width` places each; the record is read once. Of NaNs as `panner_gains`.
pub fn panner_gains_all(
    bytes: &RecordBytes,
    floats: &RecordFloats,
    az: &[f32],
    el: &[f32],
    width: usize,
    out: &mut [f32],
) -> u32
    ensures number { result ≡ (num_outputs_of (record_from bytes.now floats.now)).number }
    ensures buffer { out.new ≡ rows_of (record_from bytes.now floats.now) az.now el.now width out.old }
{
    let p = taken_in(bytes, floats);
    boundary_records::directions::rows(&p, az, el, width, out);
    let answer = layout_record::num_outputs(&p);
    number_in(&answer)
}
