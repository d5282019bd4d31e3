// The points in one plane with a face of the hull, and the one fan that they make.
// Lengths of arrays: 40 directions (document 01, refusal 2) and 14 imaginary points (vbap.rs line 60) are 54 points. A fan has all of them but its lowest, 53; with a triple in one plane are all but its own three, 51.
#![tactic(auto)]

ghost use Rattle.std.specs.Prelude.{◌≡◌, true, ◌∷◌, ◌≤◌, ◌<◌, ltb, map, length};
ghost use Rattle.lists.specs.Lists.{every};
ghost use Rattle.layout_faces.specs.Faces.{others, point};
ghost use Rattle.layout_fan.specs.Fan.{helper, angle_in, coplanar, fan, adjacent};
ghost use Rattle.layout_fan.specs.Inner.Steps.{is_coplanar, basis_of, angle_by, spot_of, pos_of, fan_test};

use angle_sort::Spot;
use arrayvec::ArrayVec;
use layout_faces::{Corners, Plane, Triple};

// 3feccccccccccccd. Origin: vbap.rs line 325; from there on a normal counts as along the first axis.
const STEEP: f64 = 0.9;

// Two directions in a plane, at a right angle.
#[derive(Clone, Copy)]
struct Basis {
    u: [f64; 3],
    v: [f64; 3],
}

// Whether point p, which lies at `at`, is coplanar with the triple, and none of it.
#[tactic(auto, unfolding(crate::specs::Inner::Steps::is_coplanar))]
fn is_coplanar(t: Triple, plane: Plane, p: usize, at: [f64; 3]) -> bool
    ensures { result ≡ is_coplanar t.i t.j t.k plane p at }
{
    layout_faces::is_other(t, p) & (layout_faces::height(plane, at) >= -layout_faces::EPS)
}

// The numbers of those points that are coplanar with the triple.
fn coplanar(c: Corners, plane: Plane) -> ArrayVec<usize, 54>
    requires { length c.pts.now ≤ 54 }
    ensures { result.items ≡ coplanar c.entry.pts.now plane (others (length c.entry.pts.now) c.entry.t.i c.entry.t.j c.entry.t.k) }
{
    let mut numbers = ArrayVec::new();
    for (p, at) in c.pts.iter().enumerate() {
        if !is_coplanar(c.t, plane, p, *at) {
            continue;
        }
        numbers.push(p);
    }
    numbers
}

// Whether i is below the numbers.
fn is_lowest(i: usize, numbers: &[usize]) -> bool
    ensures { result ≡ every (λ p. ltb i p) numbers.now }
{
    numbers.iter().all(|p| i < *p)
}

// An axis that is not along the normal. Origin: vbap.rs line 325, the first axis or the second.
#[tactic(auto, unfolding(crate::specs::Fan::helper, std::specs::Prelude::from_bits))]
fn helper_axis(nrm: [f64; 3]) -> [f64; 3]
    ensures { result ≡ helper nrm }
{
    if float_order::abs(nrm[0]) < STEEP {
        return [1.0, 0.0, 0.0];
    }
    [0.0, 1.0, 0.0]
}

// A basis in the plane with the normal.
#[tactic(auto, unfolding(crate::specs::Fan::basis_u))]
fn basis_in(nrm: [f64; 3]) -> Basis
    ensures { result ≡ basis_of nrm }
{
    let across = vector::cross(nrm, helper_axis(nrm));
    let u = vector::over(across, vector::length64(across));
    Basis {
        u,
        v: vector::cross(nrm, u),
    }
}

// The angle of a point in the plane of the basis.
fn angle(basis: Basis, at: [f64; 3]) -> f64
    ensures { result ≡ angle_by basis at }
{
    float_arctangent::atan2(vector::dot(at, basis.v), vector::dot(at, basis.u))
}

// Point p, which lies at `at`, with its angle from `first` on, within a turn. Origin: vbap.rs line 335.
fn spot(basis: Basis, first: f64, p: usize, at: [f64; 3]) -> Spot
    ensures { result ≡ spot_of basis first p at }
{
    Spot {
        angle: float_order::rem_euclid(angle(basis, at) - first, float_sine::TWO_PI),
        number: p,
    }
}

// The triple's points j and k and those numbered, with their angles from `first` on.
fn spots(c: Corners, basis: Basis, first: f64, numbers: &[usize]) -> ArrayVec<Spot, 53>
    requires few { length numbers.now ≤ 51 }
    requires within { every (λ p. ltb p (length c.pts.now)) numbers.now ≡ true }
    ensures { result.items ≡ map (λ p. spot_of basis first p (point c.entry.pts.now p)) (c.entry.t.j ∷ c.entry.t.k ∷ numbers.now) }
{
    let mut ring = ArrayVec::new();
    ring.push(spot(basis, first, c.t.j, c.pts[c.t.j]));
    ring.push(spot(basis, first, c.t.k, c.pts[c.t.k]));
    for p in numbers {
        ring.push(spot(basis, first, *p, c.pts[*p]));
    }
    ring
}

// How many spots stand before that of point p: the length where there is none, as the definition's `position` has it. The points that are asked for are always among the spots, so an Option would be taken apart for a None that can't occur.
fn pos_of(ring: &[Spot], p: usize) -> usize
    ensures is { result ≡ pos_of p ring.now }
    ensures within { result ≤ length ring.now }
{
    let found = ring.iter().position(|s| s.number == p);
    found.unwrap_or(ring.len())
}

// Whether j and k are next to each other among the spots.
#[tactic(auto, unfolding(crate::specs::Fan::adjacent, crate::specs::Inner::Steps::pos_of))]
fn is_adjacent(ring: &[Spot], j: usize, k: usize) -> bool
    requires { length ring.now ≤ 53 }
    ensures { result ≡ adjacent j k ring.now }
{
    let pj = pos_of(ring, j);
    let pk = pos_of(ring, k);
    (pk == pj + 1) | (pj == pk + 1)
}

// Whether j and k are next to each other among the points of a plane, in the order of their angles from i.
fn next_in_fan(c: Corners, nrm: [f64; 3], numbers: &[usize]) -> bool
    requires few { length numbers.now ≤ 51 }
    requires within { every (λ p. ltb p (length c.pts.now)) numbers.now ≡ true }
    ensures { result ≡ adjacent c.entry.t.j c.entry.t.k (fan c.entry.pts.now nrm c.entry.t.i (c.entry.t.j ∷ c.entry.t.k ∷ numbers.now)) }
{
    let basis = basis_in(nrm);
    let first = angle(basis, c.pts[c.t.i]);
    let mut ring = spots(c, basis, first, numbers);
    angle_sort::sort(ring.as_mut_slice());
    is_adjacent(ring.as_slice(), c.t.j, c.t.k)
}

// Coplanar points make one fan, from the lowest of them: whether the triple is a part of it.
pub fn in_fan(c: Corners, plane: Plane) -> bool
    requires { (length c.pts.now ≤ 54) × (c.t.i < c.t.j) × (c.t.j < c.t.k) }
    ensures { result ≡ fan_test c.entry.pts.now c.entry.t.i c.entry.t.j c.entry.t.k plane }
{
    let found = coplanar(c, plane);
    let numbers = found.as_slice();
    if numbers.is_empty() {
        return true;
    }
    if !is_lowest(c.t.i, numbers) {
        return false;
    }
    next_in_fan(c, plane.nrm, numbers)
}
