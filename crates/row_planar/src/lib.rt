// A row of a planar layout: document 01, "A row" (Planar); source lines 80 to 93 and 460 to 511.
#![tactic(auto)]

ghost use Rattle.std.specs.Prelude.{◌≡◌, cond, length, replicate, None, Some};
ghost use Rattle.std.specs.Option.{option_copied};
ghost use Rattle.lists.specs.Lists.{is_empty};
ghost use Rattle.float_order.specs.Values.{+0};
ghost use Rattle.row_planar.specs.PlanarRow.{rel, contains, chosen, by_inverse, shaped, by_crossfade, by_law, planar_spread, spread_gain, spread_at, spread, pair_row, planar_row};

use layout_planar::{Law, PlanarPair};
// Origin: the source's constants, TAU (40c90fdb) at vbap.rs line 464, FRAC_PI_2 (3fc90fdb) at lines 90, 91 and 488.
use std::f32::consts::{FRAC_PI_2, TAU};

// Origin: vbap.rs line 52; 3db2ca58. The elevation up to which a speaker or a source counts as planar.
const PLANAR_MAX_ELEVATION: f32 = 0.0873;

// Origin: vbap.rs line 57; 358637bd. How far past a pair's gap an azimuth is still inside it.
const INSIDE_EPS: f32 = 1e-6;

// Origin: vbap.rs line 493; 2b8cbccc. The norm of a pair's two gains has to be above it: else the row stays silent, and nothing is divided by it.
const LEAST_PAIR_NORM: f32 = 1e-12;

// The gains of a and b, before they are scaled.
#[derive(Clone, Copy)]
struct PairGains {
    ga: f32,
    gb: f32,
}

// ---- the chosen pair

// The azimuth from the pair's start on, going positive.
#[tactic(auto, unfolding(crate::specs::PlanarRow::rel))]
fn rel_of(az: f32, p: &PlanarPair) -> f32
    ensures { result ≡ rel az p.now }
{
    float_order::rem_euclid(az - p.start, TAU)
}

// Whether the azimuth lies in the pair's gap.
#[tactic(auto, unfolding(crate::specs::PlanarRow::contains))]
fn is_inside(az: f32, p: &PlanarPair) -> bool
    ensures { result ≡ contains az p.now }
{
    rel_of(az, p) <= p.gap + INSIDE_EPS
}

// The first pair that contains the azimuth, else the last; none where there is no pair.
// `pairs.iter().find(..).or(pairs.last())` was tried: the proof of what `find` gives did not close.
fn chosen_pair(pairs: &[PlanarPair], az: f32) -> Option<&PlanarPair>
    ensures { option_copied result ≡ cond (is_empty pairs.now) None (Some (chosen az pairs.now)) }
{
    for p in pairs {
        if is_inside(az, p) {
            return Some(p);
        }
    }
    pairs.last()
}

// ---- the two gains

// The direction times the inverse (Pulkki's equation); nothing below +0.
#[tactic(auto, unfolding(crate::specs::PlanarRow::by_inverse))]
fn by_inverse(az: f32, m0: f32, m1: f32, m2: f32, m3: f32) -> PairGains
    ensures { result ≡ by_inverse az m0 m1 m2 m3 }
{
    let t = float_sine::sin_cos32(az);
    let px = t.sin;
    let pz = -t.cos;
    PairGains {
        ga: float_order::max(m0 * px + m1 * pz, 0.0),
        gb: float_order::max(m2 * px + m3 * pz, 0.0),
    }
}

// The fraction t of the gap, shaped: lateral sources stay with the near speaker.
#[tactic(auto, unfolding(crate::specs::PlanarRow::shaped))]
fn shape(t: f32) -> f32
    ensures { result ≡ shaped t }
{
    let t4 = float_order::powi4(t);
    t4 / (t4 + float_order::powi4(1.0 - t))
}

// Cosine and sine of the shaped part of a quarter turn; nothing below +0.
#[tactic(auto, unfolding(crate::specs::PlanarRow::by_crossfade))]
fn by_crossfade(r: f32, gap: f32) -> PairGains
    ensures { result ≡ by_crossfade r gap }
{
    let t = float_sine::sin_cos32(shape(float_order::clamp(r / gap)) * FRAC_PI_2);
    PairGains {
        ga: float_order::max(t.cos, 0.0),
        gb: float_order::max(t.sin, 0.0),
    }
}

// The gains of a pair by its law.
#[tactic(auto, unfolding(crate::specs::PlanarRow::by_law))]
fn by_law(az: f32, p: &PlanarPair) -> PairGains
    ensures { result ≡ by_law az p.now p.now.law }
{
    match p.law {
        Law::Inverse(m0, m1, m2, m3) => by_inverse(az, m0, m1, m2, m3),
        Law::Crossfade => by_crossfade(rel_of(az, p), p.gap),
    }
}

// ---- elevation

// The part of the power that goes to all speakers alike.
#[tactic(auto, using(crate::proofs::Zeros::still_spread), unfolding(crate::specs::PlanarRow::planar_spread, float_order::specs::Order::square_of, std::specs::Prelude::from_bits))]
fn planar_spread(el: f32) -> f32
    ensures { result ≡ planar_spread el }
{
    let lo = PLANAR_MAX_ELEVATION;
    let t = float_order::clamp((float_order::abs(el) - lo) / (FRAC_PI_2 - lo));
    // inside the planar band the sine of nothing is nothing
    if t == 0.0 {
        return 0.0;
    }
    let s = float_sine::sin32(t * FRAC_PI_2);
    s * s
}

// The gain g with the part w of the power taken, and d2 of it given to each slot.
#[tactic(auto, unfolding(crate::specs::PlanarRow::spread_gain))]
fn spread_gain(w: f32, d2: f32, g: f32) -> f32
    ensures { result ≡ spread_gain w d2 g }
{
    float_root::sqrt32((1.0 - w) * g * g + d2)
}

// The part w of the power, d2 of it for each slot, and what a gain of zero becomes by them.
#[derive(Drop)]
struct Spread {
    w: f32,
    d2: f32,
    silent: f32,
    ghost zero: { silent ≡ spread_gain w d2 +0 },
}

// One slot's gain, spread.
#[tactic(auto, using(crate::proofs::Rows::spread_by, crate::proofs::Zeros::silent_spread), unfolding(crate::specs::PlanarRow::spread_at, std::specs::Prelude::from_bits))]
fn spread_at(row: &mut [f32], slot: u8, s: &Spread)
    ensures { row.new ≡ spread_at s.now.w s.now.d2 row.old slot }
{
    // not by `get_mut`, as `row_places::put`
    let i = slot as usize;
    if i < row.len() {
        let g = row[i];
        row[i] = if g == 0.0 {
            s.silent
        } else {
            spread_gain(s.w, s.d2, g)
        };
    }
}

// The part w of the power, over the slots alike.
fn spread_over(w: f32, slots: &[u8], row: &mut [f32])
    ensures { row.new ≡ spread w slots.now row.old }
{
    if (0.0 < w) & !slots.is_empty() {
        let d2 = w / float_widths::f32_from_u64(slots.len() as u64);
        let s = Spread {
            w,
            d2,
            silent: spread_gain(w, d2, 0.0),
        };
        for slot in slots {
            spread_at(row, *slot, &s);
        }
    }
}

// ---- the row

// a's gain, then b's added, over their root sum of squares, then the spread; a norm of 1e-12 or less stays silent.
fn pair_row(el: f32, p: &PlanarPair, g: PairGains, slots: &[u8], row: &mut [f32])
    requires { row.old ≡ replicate (length row.old) +0 }
    ensures { row.new ≡ pair_row (length row.old) el p.now g slots.now }
{
    let norm = float_root::sqrt32(g.ga * g.ga + g.gb * g.gb);
    if LEAST_PAIR_NORM < norm {
        row_places::put(row, p.a, g.ga / norm);
        row_places::add_at(row, p.b, g.gb / norm);
        spread_over(planar_spread(el), slots, row);
    }
}

// The row of the pairs and slots in all places of out.
// Free to the program: the sign and payload of a NaN in a row of a layout made by hand. Every choice is a NaN, and a quiet one, since every gain is computed. A layout from `new` gives none (crate theorem_rows).
#[tactic(auto, using(crate::proofs::Branches::planar_silent, crate::proofs::Branches::planar_sounds))]
pub fn planar_row(pairs: &[PlanarPair], slots: &[u8], az: f32, el: f32, out: &mut [f32])
    ensures { out.new ≡ planar_row (length out.old) az el pairs.now slots.now }
{
    row_places::zero(out);
    if let Some(p) = chosen_pair(pairs, az) {
        pair_row(el, p, by_law(az, p), slots, out);
    }
}
