// The pairs of a planar layout.
// Lengths of arrays: 40 speakers (document 01, refusal 2), so at most 40 spots and 40 pairs.
#![tactic(auto)]

ghost use Rattle.std.specs.Prelude.{◌≡◌, ◌≤◌, true, length, take, replicate};
ghost use Rattle.lists.specs.Lists.{every};
ghost use Rattle.layout_planar.specs.Planar.{spot_of, ring, gap_at, inverse_law, pair_of, no_pair};
ghost use Rattle.layout_planar.specs.Inner.Arrays.{slot_fits, sin_cos_of, law_by, told_of, planar_in};

use angle_sort::Spot;
use float_sine::SinCos;
use vector::Speaker;

// How a planar pair shares its power, in the form that document 01 names (the law): the inverse of its two directions' matrix, row after row, or the crossfade.
#[derive(Clone, Copy)]
pub enum Law {
    Inverse(f32, f32, f32, f32),
    Crossfade,
}

// Two neighbours on the ring: the azimuth of a, the gap from a to b going positive, both slots, and the law.
#[derive(Clone, Copy)]
pub struct PlanarPair {
    pub start: f32,
    pub gap: f32,
    pub a: u8,
    pub b: u8,
    pub law: Law,
}

// The pairs in the order of the ring, and how many there are: an array by value with its count, since no layout asks for memory.
#[derive(Clone, Copy)]
pub struct Planar {
    pub pairs: [PlanarPair; 40],
    pub num_pairs: usize,
}

// Origin: vbap.rs line 232; below it the second gap of two speakers is the whole circle.
const LEAST_SECOND_GAP: f64 = 1e-9;

// Origin: vbap.rs line 240; guards the division by a pair's determinant.
const LEAST_PAIR_DETERMINANT: f64 = 1e-9;

// Origin: vbap.rs line 233; a smaller gap is one of coincident speakers.
const COINCIDENT: f64 = 1e-6;

// Just under pi: the 32-bit pi less 1e-3. Origin: vbap.rs line 55; a pair with this gap or more has the crossfade.
const MAX_VBAP_GAP: f32 = 3.1405928;

// The azimuth and the slot of a speaker. That a slot fits in 8 bits is promised here, since a spot's number is a usize: a `Spot<N>` would put a type parameter into each definition and function of the sort, the ring and the fan for this one fact, and a u8 there would ask more of whoever sorts.
#[tactic(auto, unfolding(crate::specs::Planar::spot_of, crate::specs::Inner::Arrays::slot_fits))]
fn spot(s: Speaker) -> Spot
    ensures is { result ≡ spot_of s }
    ensures slot { slot_fits result ≡ true }
{
    Spot {
        angle: float_arctangent::atan2(s.dir[0], -s.dir[2]),
        number: s.slot as usize,
    }
}

// The azimuths and slots of the active speakers in ascending order of azimuth, equals in slot order, in the array's first places.
fn sorted_spots(active: &[Speaker]) -> [Spot; 40]
    requires { length active.now ≤ 40 }
    ensures are { take (length active.now) result ≡ ring active.now }
    ensures slots { every slot_fits (take (length active.now) result) ≡ true }
{
    let mut a = [Spot {
        angle: 0.0,
        number: 0,
    }; 40];
    for (i, s) in active.iter().enumerate() {
        a[i] = spot(*s);
    }
    angle_sort::sort(&mut a[..active.len()]);
    a
}

// The gap from spot i of m to the next, going positive; of exactly two spots the second is 2·pi when below 1e-9.
fn gap_at(m: usize, i: usize, az_a: f64, az_b: f64) -> f64
    ensures { result ≡ gap_at m i az_a az_b }
{
    let gap = float_order::rem_euclid(az_b - az_a, float_sine::TWO_PI);
    if (m == 2) & (i == 1) & (gap < LEAST_SECOND_GAP) {
        return float_sine::TWO_PI;
    }
    gap
}

// The inverse of the matrix of two directions, narrowed; the crossfade where it has next to no determinant.
fn inverse_law(ax: f64, az: f64, bx: f64, bz: f64) -> Law
    ensures { result ≡ inverse_law ax az bx bz }
{
    let det = ax * bz - bx * az;
    if float_order::abs(det) < LEAST_PAIR_DETERMINANT {
        return Law::Crossfade;
    }
    Law::Inverse(
        float_widths::narrow(bz / det),
        float_widths::narrow(-bx / det),
        float_widths::narrow(-az / det),
        float_widths::narrow(ax / det),
    )
}

// The law of a pair by the sines and cosines of its two azimuths, with the gap between them.
#[tactic(auto, using(crate::proofs::Chosen::law_far, crate::proofs::Chosen::law_near))]
fn law_of(a: SinCos<f64>, b: SinCos<f64>, gap: f64) -> Law
    ensures { result ≡ law_by a b gap }
{
    if float_widths::narrow(gap) < MAX_VBAP_GAP {
        return inverse_law(a.sin, -a.cos, b.sin, -b.cos);
    }
    Law::Crossfade
}

// The pair from spot s to spot t, whose sines and cosines are a and b, with the gap g; a gap below 1e-6 makes none.
fn pair_of(g: f64, s: Spot, t: Spot, a: SinCos<f64>, b: SinCos<f64>) -> Option<PlanarPair>
    requires s_value { (slot_fits s ≡ true) × (slot_fits t ≡ true) }
    requires a_value { (a ≡ sin_cos_of s.angle) × (b ≡ sin_cos_of t.angle) }
    ensures { result ≡ told_of (pair_of g s t) }
{
    if g < COINCIDENT {
        return None;
    }
    let law = law_of(a, b, g);
    Some(PlanarPair {
        start: float_widths::narrow(s.angle),
        gap: float_widths::narrow(g),
        a: s.number as u8,
        b: t.number as u8,
        law,
    })
}

// What an unused place of the pairs holds: 0, +0 or the crossfade.
#[tactic(auto, unfolding(std::specs::Prelude::from_bits))]
fn no_pair() -> PlanarPair
    ensures { result ≡ no_pair }
{
    PlanarPair {
        start: 0.0,
        gap: 0.0,
        a: 0,
        b: 0,
        law: Law::Crossfade,
    }
}

// The pairs of no ring.
pub fn no_pairs() -> [PlanarPair; 40]
    ensures { result ≡ replicate 40 no_pair }
{
    let none = no_pair();
    [none; 40]
}

// The pairs of the ring that the active speakers make.
// The sine and the cosine of each spot serve the pair that ends at it and the one that starts there.
pub fn build_planar(active: &[Speaker]) -> Planar
    requires { length active.now ≤ 40 }
    ensures { result ≡ planar_in active.now }
{
    let n = active.len();
    let a = sorted_spots(active);
    let ring = &a[..n];
    let first = a[0];
    let mut here = float_sine::sin_cos(first.angle);
    // the pairs begin in place, and not as `no_pairs()`, whose answer would be an array of 40 copied here; they and their count become the fields of the record, whose memory is fixed
    let none = no_pair();
    let mut pairs = [none; 40];
    let mut num_pairs: usize = 0;
    for (i, s) in ring.iter().enumerate() {
        let s = *s;
        let t = ring[(i + 1) % n];
        let next = float_sine::sin_cos(t.angle);
        let pair = pair_of(gap_at(n, i, s.angle, t.angle), s, t, here, next);
        here = next;
        let Some(p) = pair else {
            continue;
        };
        pairs[num_pairs] = p;
        num_pairs += 1;
    }
    Planar { pairs, num_pairs }
}
