// The faces of the convex hull of points about the origin, as triplets of point numbers with the inverse of their matrix.
// Lengths of arrays: 40 speakers (document 01, refusal 2) and 14 imaginary points (vbap.rs line 60) are 54 points. 80 triplets (document 01, refusal 4) have 3 point numbers and 9 inverse entries each: 240 and 720.
#![tactic(auto)]

ghost use Rattle.std.specs.Prelude.{◌≡◌, [], ◌∷◌, ◌*◌, ◌≤◌, ◌<◌, length};
ghost use Rattle.std.proofs.lemmas.List.Edits.{sets};
ghost use Rattle.vector.specs.Vector.{determinant_of};
ghost use Rattle.layout_hull.specs.Triplets.{inverse_by};
ghost use Rattle.layout_hull.specs.Inner.Steps.{row_of, inverses_with};
ghost use Rattle.layout_hull.specs.Inner.Flat.{hull_of};

use layout_faces::{Corners, Face, Triple};
use vector::MOST_TRIPLETS;

// Origin: vbap.rs line 345; guards the division by a triplet's determinant.
const LEAST_DETERMINANT: f64 = 1e-9;

// The triplets of a hull laid flat (the source's `tris`), whether there were more than 80, and whether they tile the sphere (the source's `tiled`). Triplets stand there whatever the two flags say, so neither makes an Option of the rest. `over` is a flag and no Result: `hull_triplets` and `layout_closing::close` promise a hull for all points, and cannot fail.
#[derive(Clone, Copy)]
pub struct Hull {
    pub idx: [u8; 240],
    pub inv: [f32; 720],
    pub count: usize,
    pub over: bool,
    pub enclosed: bool,
}

// The determinant of the matrix of three points. `inverse` has the three too; a struct of them would be made for this one pair of calls, and the definitions take three.
#[tactic(auto, using(vector::proofs::Rows::determinant_dot))]
fn determinant(a: [f64; 3], b: [f64; 3], c: [f64; 3]) -> f64
    ensures { result ≡ determinant_of a b c }
{
    vector::dot(a, vector::cross(b, c))
}

// A row of the inverse, in 32 bits.
#[tactic(auto, unfolding(crate::specs::Inner::Steps::row_of))]
fn row(r: [f64; 3], det: f64) -> [f32; 3]
    ensures { result ≡ row_of r det }
{
    r.map(|x| float_widths::narrow(x / det))
}

// The inverse of the matrix of three points, whose determinant is det.
fn inverse(a: [f64; 3], b: [f64; 3], c: [f64; 3], det: f64) -> [f32; 9]
    ensures { result ≡ inverse_by a b c det }
{
    let r0 = row(vector::cross(b, c), det);
    let r1 = row(vector::cross(c, a), det);
    let r2 = row(vector::cross(a, b), det);
    [
        r0[0], r0[1], r0[2], r1[0], r1[1], r1[2], r2[0], r2[1], r2[2],
    ]
}

// The numbers of a triplet stored as the one at place p.
fn put_numbers(to: &mut [u8; 240], p: usize, t: Triple)
    requires { (p < 80) × (t.i < 256) × (t.j < 256) × (t.k < 256) }
    ensures { to.new ≡ sets to.old (p * 3) (t.i ∷ t.j ∷ t.k ∷ []) }
{
    let at = p * 3;
    to[at] = t.i as u8;
    to[at + 1] = t.j as u8;
    to[at + 2] = t.k as u8;
}

// The inverse of the triplet at place p stored, entry e at e * 80 + p. Origin of 80: document 01, refusal 4.
#[tactic(auto, using(lists::proofs::Collect::foldl_snoc, lists::proofs::Ranges::range_none, lists::proofs::Ranges::range_snoc), unfolding(crate::specs::Inner::Steps::inverses_with))]
fn put_inverse(to: &mut [f32; 720], p: usize, m: [f32; 9])
    requires { p < 80 }
    ensures { to.new ≡ inverses_with to.old p m 9 }
{
    for (e, entry) in m.iter().enumerate() {
        to[e * 80 + p] = *entry;
    }
}

// The faces of the hull of the points that can span a source cone, in the order of their numbers.
pub fn hull_triplets(pts: &[[f64; 3]]) -> Hull
    requires { length pts.now ≤ 54 }
    ensures { result ≡ hull_of pts.now }
{
    let n = pts.len();
    let near = layout_faces::all_near(pts);
    let mut h = Hull {
        idx: [0u8; 240],
        inv: [0.0; 720],
        count: 0,
        over: false,
        // Origin of 4: vbap.rs line 264
        enclosed: 4 <= n,
    };
    // nested loops with labels: the form that document 01 names
    'first: for i in 0..n {
        'second: for j in i + 1..n {
            'third: for k in j + 1..n {
                let t = Triple { i, j, k };
                let corners = Corners { pts, near, t };
                match corners.face_test() {
                    Face::Skip => {
                        continue 'third;
                    }
                    Face::Open => {
                        h.enclosed = false;
                        continue 'third;
                    }
                    Face::Outward(plane) => {
                        if !layout_fan::in_fan(corners, plane) {
                            continue 'third;
                        }
                    }
                }
                let a = pts[i];
                let b = pts[j];
                let c = pts[k];
                let det = determinant(a, b, c);
                if float_order::abs(det) < LEAST_DETERMINANT {
                    continue 'third;
                }
                let p = h.count;
                if MOST_TRIPLETS <= p {
                    h.over = true;
                    continue 'third;
                }
                let m = inverse(a, b, c, det);
                put_numbers(&mut h.idx, p, t);
                put_inverse(&mut h.inv, p, m);
                h.count = p + 1;
            }
        }
    }
    h.enclosed = h.enclosed & !(h.count == 0);
    h
}
