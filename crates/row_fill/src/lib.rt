// The gains of a triplet in the places of a row: real points in their slots, imaginary ones shared among their neighbours. Source lines 550 to 572.
// Origin of the numbers: document 01, "Returned numbers" (malformed): 80 triplets with 3 point numbers each; MAX_IMAGINARY imaginary points (vbap.rs line 60) with 40 neighbours each.
#![tactic(auto)]

ghost use Rattle.std.specs.Prelude.{◌≡◌, ◌<◌, ◌≤◌, true, leb, length};
ghost use Rattle.lists.specs.Lists.{every};
ghost use Rattle.row_fill.specs.Inner.Filling.{to_real, to_imag, corners, is_real, real_points, imag_points, shared_by, shared_out, placed};

use layout_record::VbapPanner;
use vector::MAX_IMAGINARY;

// The last place of an imaginary point's sum. Origin: vbap.rs line 560.
const LAST: usize = MAX_IMAGINARY - 1;

// ---- the points of a triplet

// A gain of point p, nothing below +0, to its slot where p is a real point.
#[tactic(auto, unfolding(crate::specs::Inner::Filling::to_real))]
fn to_real(out: &mut [f32], slots: &[u8], p: u8, g: f32)
    ensures { out.new ≡ to_real slots.now out.old p g }
{
    if let Some(slot) = slots.get(p as usize) {
        row_places::add_at(out, *slot, float_order::max(g, 0.0));
    }
}

// The same to its sum where p is an imaginary point, behind the n real ones.
#[tactic(auto, unfolding(crate::specs::Inner::Filling::to_imag, row_places::specs::Places::add_at))]
fn to_imag(sums: &mut [f32; MAX_IMAGINARY], n: usize, p: u8, g: f32)
    ensures { sums.new ≡ to_imag n sums.old p g }
{
    let p = p as usize;
    if n <= p {
        sums[(p - n).min(LAST)] += float_order::max(g, 0.0);
    }
}

// The numbers of triplet t's points.
#[tactic(auto, unfolding(vector::specs::Vector::places_in))]
fn corners(panner: &VbapPanner, t: usize) -> [u8; 3]
    requires { t < 80 }
    ensures { result ≡ corners panner.now.idx t }
{
    vector::point(&panner.idx, t)
}

// The gains of three points to the real ones.
#[tactic(auto, unfolding(crate::specs::Inner::Filling::real_points, lists::specs::Lists::from, lists::specs::Lists::range))]
fn real_points(out: &mut [f32], slots: &[u8], points: [u8; 3], g: [f32; 3])
    ensures { out.new ≡ real_points slots.now points g out.old }
{
    for (i, p) in points.iter().enumerate() {
        to_real(out, slots, *p, g[i]);
    }
}

// The gains of three points to the imaginary ones, behind the n real ones.
#[tactic(auto, unfolding(crate::specs::Inner::Filling::imag_points, lists::specs::Lists::from, lists::specs::Lists::range, std::specs::Prelude::from_bits))]
fn imag_points(n: usize, points: [u8; 3], g: [f32; 3]) -> [f32; MAX_IMAGINARY]
    ensures { result ≡ imag_points n points g }
{
    let mut sums = [0.0; MAX_IMAGINARY];
    for (i, p) in points.iter().enumerate() {
        to_imag(&mut sums, n, *p, g[i]);
    }
    sums
}

// Whether three points are real ones, of which there are n.
#[tactic(auto, unfolding(crate::specs::Inner::Filling::is_real))]
fn is_real(n: usize, points: [u8; 3]) -> bool
    ensures { result ≡ is_real n points }
{
    points.iter().all(|p| (*p as usize) < n)
}

// ---- imaginary points

// An imaginary gain over the root of its count of neighbours, to each of them.
fn share(out: &mut [f32], nbrs: &[u8], g: f32)
    ensures { out.new ≡ shared_by nbrs.now g out.old }
{
    if (g > 0.0) & !nbrs.is_empty() {
        let w = g / float_root::sqrt32(float_widths::f32_from_u64(nbrs.len() as u64));
        for slot in nbrs {
            row_places::add_at(out, *slot, w);
        }
    }
}

// Those of all imaginary points.
#[tactic(auto, using(crate::proofs::Places::shared_none, crate::proofs::Places::shared_more, lists::proofs::Tests::every_get_d))]
fn share_out(out: &mut [f32], panner: &VbapPanner, sums: &[f32; MAX_IMAGINARY])
    requires { (panner.now.num_imag ≤ 14) × (every (λ n. leb n 40) panner.now.num_nbrs ≡ true) }
    ensures { out.new ≡ shared_out panner.now.num_nbrs panner.now.imag_nbrs sums.now panner.now.num_imag out.old }
{
    // tried by `enumerate` over a cut of the sums: k names the neighbours there too, so it is no plainer, and the check asks for an answer
    for k in 0..panner.num_imag as usize {
        share(out, panner.neighbours(k), sums[k]);
    }
}

// The gains of the record's triplet t in an empty row: in the slots of real points, and shared out from its imaginary ones. The points' slots are any; the record's are `real_slots`.
pub fn fill(out: &mut [f32], slots: &[u8], panner: &VbapPanner, t: usize, g: [f32; 3])
    requires { (panner.now.num_imag ≤ 14) × (every (λ n. leb n 40) panner.now.num_nbrs ≡ true) × (t < 80) }
    ensures { out.new ≡ placed slots.now panner.now t g (length out.old) }
{
    let points = corners(panner, t);
    row_places::zero(out);
    real_points(out, slots, points, g);
    if !is_real(slots.len(), points) {
        share_out(out, panner, &imag_points(slots.len(), points, g));
    }
}
