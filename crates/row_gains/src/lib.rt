// A row by the record: gains of a direction, for a panner of any kind. Document 01, "A row"; source lines 441 to 583.
#![tactic(auto)]

ghost use Rattle.std.specs.Prelude.{◌≡◌, false, length};
ghost use Rattle.refusals.specs.Refusals.{number_in};
ghost use Rattle.layout_record.specs.Panner.{layout_in};
ghost use Rattle.layout_record.specs.Malformed.{counts_over};
ghost use Rattle.row_gains.specs.Gains.{finite_or0, row_in, gains_number, gains_buffer};

use layout_record::{Kind, VbapPanner};
use refusals::Refusal;

// A non-finite angle counts as +0.
#[tactic(auto, unfolding(crate::specs::Gains::finite_or0))]
pub fn finite_or_0(x: f32) -> f32
    ensures { result ≡ finite_or0 x }
{
    if float_order::is_finite(x) { x } else { 0.0 }
}

// The row of the record's kind, in all places of out.
fn row(panner: &VbapPanner, az: f32, el: f32, out: &mut [f32])
    requires { counts_over panner.now ≡ false }
    ensures { out.new ≡ row_in (length out.old) az el (layout_in panner.now).shape }
{
    match panner.kind {
        Kind::Silent => row_places::zero(out),
        Kind::Mono => {
            row_places::zero(out);
            row_places::put(out, panner.mono, 1.0);
        }
        Kind::Planar => {
            row_planar::planar_row(panner.ring_pairs(), panner.ring_slots(), az, el, out);
        }
        Kind::Hull => row_hull::hull_row(panner, az, el, out),
    }
}

// `VbapPanner::gains`: refused for a malformed record, the buffer unchanged; else the row in the first of the places, as many as there are outputs. az and el are two parameters, as the source has them.
// Free to the program: the sign and payload of a NaN in a row of a record made by hand. Every choice is a NaN, and a quiet one, since every gain is computed. A record from `new` gives none (crate theorem_rows).
pub fn gains(panner: &VbapPanner, az: f32, el: f32, out: &mut [f32]) -> Result<(), Refusal>
    ensures value { number_in result ≡ gains_number panner.now }
    ensures out_after { out.new ≡ gains_buffer panner.now az el out.old }
{
    if layout_record::malformed(panner) {
        return Err(Refusal::Malformed);
    }
    let n = (panner.num_outputs as usize).min(out.len());
    row(panner, finite_or_0(az), finite_or_0(el), &mut out[..n]);
    Ok(())
}
