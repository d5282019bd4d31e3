// Several directions, one after another, on one record or session.
ghost use Rattle.std.specs.Prelude.{◌≡◌};
ghost use Rattle.boundary_records.specs.Rows.{rows_of};
ghost use Rattle.boundary_records.specs.Sessions.{left_beside, place_take_back};

use layout_record::VbapPanner;
use refusals::Refusal;
use session_calls::Session;

// Row i of the directions into the i-th part of `width` places, as many as there are azimuths, elevations and parts. The caller answers with `num_outputs`, so a refusal is not told here.
pub fn rows(p: &VbapPanner, az: &[f32], el: &[f32], width: usize, out: &mut [f32])
    ensures { out.new ≡ rows_of p.now az.now el.now width out.old }
{
    // by places and not by `chunks_exact_mut(width)`: width may be 0, and after a `zip` with it a proof knows nothing of the elements
    let mut from: usize = 0;
    for (a, e) in az.iter().zip(el) {
        if out.len() - from < width {
            return;
        }
        let to = from + width;
        let _ = row_gains::gains(p, *a, *e, &mut out[from..to]);
        from = to;
    }
}

// For each direction a `place` of it and a `take_back`, up to the first that is refused; s is then as it was before that call.
pub fn place_take_back(
    s: &mut Session,
    source: usize,
    az: &[f32],
    el: &[f32],
) -> Result<(), Refusal>
    ensures { left_beside result s.new ≡ place_take_back s.old source az.now el.now }
{
    for (a, e) in az.iter().zip(el) {
        session_calls::place_on(&mut *s, source, *a, *e)?;
        session_calls::take_back_on(&mut *s, source)?;
    }
    Ok(())
}
