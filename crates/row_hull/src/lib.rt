// A row of a hull: the triplet whose least gain is greatest, its gains in their slots, scaled to power 1. Document 01, "A row" (Hull); source lines 513 to 581.
// Origin of the arrays' lengths: document 01, "Returned numbers" (malformed): 40 real points with 3 numbers each, 120; 80 triplets with an inverse of 3 times 3 numbers each, 720.
// Entry e of the inverse of triplet t stands at e * 80 + t, so row r, three entries, starts at r * 240 + t, and the next entries are 80 and 160 further.
#![tactic(auto)]

ghost use Rattle.std.specs.Prelude.{◌≡◌, ℕ, [], ◌∷◌, ◌<◌, ◌≤◌, length, get_or, replicate, IfSome};
ghost use Rattle.std.specs.Option.{unwrap_or};
ghost use Rattle.std.specs.Float.{nan, binary32};
ghost use Rattle.lists.specs.Lists.{part};
ghost use Rattle.float_order.specs.Values.{+0};
ghost use Rattle.float_order.specs.Order.{min_of};
ghost use Rattle.vector.specs.Vector.{dot_in};
ghost use Rattle.row_greatest.specs.Greatest.{first_greatest};
ghost use Rattle.row_fill.specs.Counts.{PointCounts, HullCounts};
ghost use Rattle.row_hull.specs.HullRow.{hull_row, scaled};
ghost use Rattle.row_hull.specs.Inner.Steps.{hull_shape, gain_at, gains_at, leasts_of, products_of, nearest_in, power_of, times_of};

use layout_record::VbapPanner;

// Origin: vbap.rs line 574; 2b8cbccc. The power of a row has to be above it: else the row is left as it is, and nothing is divided by its root.
const LEAST_ROW_POWER: f32 = 1e-12;

// ---- the chosen triplet

// The lesser of two floats; of a NaN and another, the other. Not std's `min`, whose promise leaves open which of two zeros comes, and not `float_order::min32`, whose branches keep many from being compared at once.
#[tactic(auto, using(crate::proofs::Places::lesser_second, crate::proofs::Places::lesser_first))]
fn lesser(a: f32, b: f32) -> f32
    ensures { result ≡ min_of a b }
{
    if (b < a) | (a != a) { b } else { a }
}

// The product of a row with the direction. Not `vector::dot`, which is of f64: over a trait of both widths its sum would be calls in place of operators.
#[tactic(auto, unfolding(vector::specs::Vector::dot_in))]
fn dot(row: [f32; 3], s: [f32; 3]) -> f32
    ensures { result ≡ dot_in binary32 row s }
{
    row[0] * s[0] + row[1] * s[1] + row[2] * s[2]
}

// Row r of the inverse of triplet t, times the direction.
#[tactic(auto, using(crate::proofs::Places::gain_told))]
fn gain(inv: &[f32; 720], t: usize, r: usize, s: [f32; 3]) -> f32
    requires { (t < 80) × (r < 3) }
    ensures { result ≡ gain_at s inv.now t r }
{
    let at = r * 240 + t;
    dot([inv[at], inv[at + 80], inv[at + 160]], s)
}

fn gains_at(inv: &[f32; 720], t: usize, s: [f32; 3]) -> [f32; 3]
    requires { t < 80 }
    ensures { result ≡ gains_at s inv.now t }
{
    [gain(inv, t, 0, s), gain(inv, t, 1, s), gain(inv, t, 2, s)]
}

fn least(g: [f32; 3]) -> f32
    ensures { result ≡ min_of (min_of (get_or g 0 nan) (get_or g 1 nan)) (get_or g 2 nan) }
{
    lesser(lesser(g[0], g[1]), g[2])
}

// The number of the triplet whose least gain is greatest, if there is one.
fn chosen(panner: &VbapPanner, s: [f32; 3]) -> Option<usize>
    requires { panner.now.num_tris ≤ 80 }
    ensures place { (none : ℕ) → unwrap_or result none ≡ first_greatest none (leasts_of s panner.now.inv panner.now.num_tris) }
    ensures within { IfSome result (λ t. t < panner.now.num_tris) }
{
    let mut room = [0.0; 80];
    let leasts = &mut room[..panner.num_tris as usize];
    for (t, l) in leasts.iter_mut().enumerate() {
        *l = least(gains_at(&panner.inv, t, s));
    }
    row_greatest::first_greatest(leasts)
}

// ---- power

#[tactic(auto, unfolding(float_order::specs::Order::square_of))]
fn power(out: &[f32]) -> f32
    ensures { result ≡ power_of out.now }
{
    let mut p = 0.0;
    for g in out {
        p += *g * *g;
    }
    p
}

fn times(out: &mut [f32], x: f32)
    ensures { out.new ≡ times_of x out.old }
{
    for g in out.iter_mut() {
        *g *= x;
    }
}

// To power 1.
#[tactic(auto, using(crate::proofs::Places::scaled_yes, crate::proofs::Places::scaled_no), unfolding(std::specs::Prelude::from_bits))]
fn scale(out: &mut [f32])
    ensures { out.new ≡ scaled out.old }
{
    let pow = power(out);
    if pow > LEAST_ROW_POWER {
        times(out, 1.0 / float_root::sqrt32(pow));
    }
}

// ---- the nearest speaker, where no triplet was chosen

#[tactic(auto, using(crate::proofs::Places::product_told))]
fn product(dirs: &[f32; 120], i: usize, s: [f32; 3]) -> f32
    requires { i < 40 }
    ensures { result ≡ dot_in binary32 (part 3 dirs.now i) s }
{
    dot(vector::point(dirs, i), s)
}

// The number of the real point whose product with the direction is greatest; 0 where there is none.
fn nearest_point(panner: &VbapPanner, s: [f32; 3]) -> usize
    requires { PointCounts panner.now }
    ensures { result ≡ first_greatest 0 (products_of s panner.now.pt_dir panner.now.num_real) }
{
    let mut room = [0.0; 40];
    let products = &mut room[..panner.num_real as usize];
    for (i, p) in products.iter_mut().enumerate() {
        *p = product(&panner.pt_dir, i, s);
    }
    row_greatest::first_greatest(products).unwrap_or(0)
}

// +0 throughout, and 1 in the slot of the nearest real point; nothing there where there is none.
#[tactic(auto, using(crate::proofs::Places::nearest_set, crate::proofs::Places::nearest_none), unfolding(std::specs::Prelude::from_bits))]
fn nearest(out: &mut [f32], panner: &VbapPanner, s: [f32; 3])
    requires { PointCounts panner.now }
    ensures { out.new ≡ nearest_in s panner.now.pt_out panner.now.pt_dir panner.now.num_real (replicate (length out.old) +0) }
{
    let i = nearest_point(panner, s);
    let slots = panner.real_slots();
    row_places::zero(out);
    if let Some(slot) = slots.get(i) {
        row_places::put(out, *slot, 1.0);
    }
}

// ---- the row

// The row of the record's hull; every place of out is one of the row's.
// Free to the program: the sign and payload of a NaN in a row of a layout made by hand. Every choice is a NaN, and a quiet one, since every gain is computed. A layout from `new` gives none (crate theorem_rows).
pub fn hull_row(panner: &VbapPanner, az: f32, el: f32, out: &mut [f32])
    requires { HullCounts panner.now }
    ensures { out.new ≡ hull_row (length out.old) az el (hull_shape panner.now) }
{
    let s = vector::dir_vec(az, el);
    match chosen(panner, s) {
        None => nearest(out, panner, s),
        Some(t) => {
            row_fill::fill(
                out,
                panner.real_slots(),
                panner,
                t,
                gains_at(&panner.inv, t, s),
            );
            scale(out);
        }
    }
}
