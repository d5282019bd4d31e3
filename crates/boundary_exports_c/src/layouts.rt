// Layouts, for callers of C: the functions of `boundary_exports::layouts`, whose clauses they state again.
ghost use Rattle.std.specs.Prelude.{◌≡◌};
ghost use Rattle.layout_new.specs.Layout.{new_of};
ghost use Rattle.layout_record.specs.Malformed.{num_outputs_of};
ghost use Rattle.row_gains.specs.Gains.{gains_number, gains_buffer};
ghost use Rattle.boundary_records.specs.Records.{record_bytes, record_floats, record_from};
ghost use Rattle.boundary_records.specs.Rows.{rows_of};
ghost use Rattle.boundary_records.specs.Sessions.{written};

use boundary_records::record::{RecordBytes, RecordFloats};

// `boundary_exports::layouts::panner_new`.
#[unsafe(no_mangle)]
pub extern "C" fn panner_new(
    positions: &[f32],
    lfe: &[usize],
    imaginary: &mut usize,
    bytes: &mut RecordBytes,
    floats: &mut RecordFloats,
) -> u32
    ensures number { result ≡ (new_of positions.now lfe.now).number }
    ensures imaginary { imaginary.new ≡ written result (new_of positions.now lfe.now).imaginary imaginary.old }
    ensures bytes { bytes.new ≡ written result (record_bytes (new_of positions.now lfe.now).panner) bytes.old }
    ensures floats { floats.new ≡ written result (record_floats (new_of positions.now lfe.now).panner) floats.old }
{
    boundary_exports::layouts::panner_new(positions, lfe, imaginary, bytes, floats)
}

// `boundary_exports::layouts::panner_num_outputs`.
#[unsafe(no_mangle)]
pub extern "C" fn panner_num_outputs(
    bytes: &RecordBytes,
    floats: &RecordFloats,
    count: &mut usize,
) -> u32
    ensures number { result ≡ (num_outputs_of (record_from bytes.now floats.now)).number }
    ensures count { count.new ≡ written result (num_outputs_of (record_from bytes.now floats.now)).count count.old }
{
    boundary_exports::layouts::panner_num_outputs(bytes, floats, count)
}

// `boundary_exports::layouts::panner_gains`.
#[unsafe(no_mangle)]
pub extern "C" fn panner_gains(
    bytes: &RecordBytes,
    floats: &RecordFloats,
    az: f32,
    el: f32,
    out: &mut [f32],
) -> u32
    ensures number { result ≡ gains_number (record_from bytes.now floats.now) }
    ensures buffer { out.new ≡ gains_buffer (record_from bytes.now floats.now) az el out.old }
{
    boundary_exports::layouts::panner_gains(bytes, floats, az, el, out)
}

// `boundary_exports::layouts::panner_gains_all`.
#[unsafe(no_mangle)]
pub extern "C" fn panner_gains_all(
    bytes: &RecordBytes,
    floats: &RecordFloats,
    az: &[f32],
    el: &[f32],
    width: usize,
    out: &mut [f32],
) -> u32
    ensures number { result ≡ (num_outputs_of (record_from bytes.now floats.now)).number }
    ensures buffer { out.new ≡ rows_of (record_from bytes.now floats.now) az.now el.now width out.old }
{
    boundary_exports::layouts::panner_gains_all(bytes, floats, az, el, width, out)
}
