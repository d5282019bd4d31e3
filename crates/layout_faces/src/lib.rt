// The tests of a triple of points for a face of the hull, up to the distance of its plane.
#![tactic(auto)]

ghost use Rattle.std.specs.Prelude.{◌≡◌, true, length};
ghost use Rattle.layout_faces.specs.Faces.{is_other, others, raw_normal, point};
ghost use Rattle.layout_faces.specs.Inner.Steps.{height_of, beside_of, sides_of, turned_of, facing, face_of, Within};
ghost use Rattle.layout_faces.specs.Inner.Margin.{Near, NearPoint, NearIn, level_of};
ghost use Rattle.layout_faces.specs.declared.Face.TheVariants.{Skip};

// Origin: vbap.rs line 274; guards the division by a normal's length.
const LEAST_NORMAL: f64 = 1e-9;

// How far a point may stand over a face's plane. Origin: vbap.rs line 263.
pub const EPS: f64 = 1e-7;

// The least distance of a face's plane from the origin. Origin: vbap.rs line 303.
const LEAST_DISTANCE: f64 = 1e-4;

// How large a coordinate of a near point may be. Origin: a direction's are at most 1; 2 is the bound of crate layout_margin.
const LARGEST: f64 = 2.0;

// How far a point stands well over a plane, by the normal before it is scaled. Origin: 2^-16, crate layout_margin: the normal of near points is at most 2^6 long, and 2^-22 is above EPS.
const MARGIN: f64 = 0.0000152587890625;

// The numbers of three points.
#[derive(Clone, Copy)]
pub struct Triple {
    pub i: usize,
    pub j: usize,
    pub k: usize,
}

// Three of the points of a hull, which are tested as the corners of a face. `near` tells of all the points, once for all triples of them, that they are near.
#[derive(Clone, Copy)]
pub struct Corners<'a> {
    pub pts: &'a [[f64; 3]],
    pub near: bool,
    pub t: Triple,
    ghost within: { Within (length pts.now) t },
    ghost told: { near ≡ true → NearIn pts.now },
}

// A plane: its normal, and its distance from the origin along that.
#[derive(Clone, Copy)]
pub struct Plane {
    pub nrm: [f64; 3],
    pub d: f64,
}

// On which sides of a plane no other point stands. Both are looked for at once, and neither tells of a value beside it.
#[derive(Clone, Copy)]
pub struct Sides {
    pub below: bool,
    pub above: bool,
}

// What the face tests say of a triple.
#[derive(Clone, Copy)]
pub enum Face {
    // no face of the hull
    Skip,
    // a face whose plane passes through the origin, or behind it
    Open,
    // a face, with its outward plane
    Outward(Plane),
}

// Whether p is none of the triple.
pub fn is_other(t: Triple, p: usize) -> bool
    ensures { result ≡ is_other t.i t.j t.k p }
{
    !((p == t.i) | (p == t.j) | (p == t.k))
}

// How far a point stands over a plane.
pub fn height(plane: Plane, p: [f64; 3]) -> f64
    ensures { result ≡ height_of plane p }
{
    vector::dot(plane.nrm, p) - plane.d
}

// The sides without a point, from s, once a point is looked at too.
#[tactic(auto, unfolding(crate::specs::Inner::Steps::beside_of))]
fn beside(plane: Plane, p: [f64; 3], s: Sides) -> Sides
    ensures { result ≡ beside_of plane p s }
{
    let v = height(plane, p);
    Sides {
        below: !(v > EPS) & s.below,
        above: !(v < -EPS) & s.above,
    }
}

// The normal of the plane through three points, before it is scaled.
#[tactic(auto, unfolding(crate::specs::Faces::raw_normal))]
fn raw_normal(a: [f64; 3], b: [f64; 3], c: [f64; 3]) -> [f64; 3]
    ensures { result ≡ raw_normal a b c }
{
    vector::cross(vector::less(b, a), vector::less(c, a))
}

// The plane seen from its other side.
fn turned(plane: Plane) -> Plane
    ensures { result ≡ turned_of plane }
{
    Plane {
        nrm: vector::negated(plane.nrm),
        d: -plane.d,
    }
}

// A face with the outward plane.
#[tactic(auto, unfolding(crate::specs::Inner::Steps::facing))]
fn outward(plane: Plane) -> Face
    ensures { result ≡ facing plane }
{
    if plane.d < LEAST_DISTANCE {
        return Face::Open;
    }
    Face::Outward(plane)
}

// Whether a coordinate is finite and at most 2 in size.
fn is_near(c: f64) -> bool
    ensures { result ≡ true → Near c }
{
    float_order::abs(c) <= LARGEST
}

// Whether a point's coordinates are.
fn is_near_point(p: [f64; 3]) -> bool
    ensures { result ≡ true → NearPoint p }
{
    is_near(p[0]) & is_near(p[1]) & is_near(p[2])
}

// Whether the points are near: their coordinates are finite and at most 2 in size. It promises what a true says and nothing of a false, on which no result rests: `face_test` answers the same with either, and takes longer without it.
pub fn all_near(pts: &[[f64; 3]]) -> bool
    ensures { result ≡ true → NearIn pts.now }
{
    pts.iter().all(|p| is_near_point(*p))
}

// Whether a point stands neither well over the plane nor well under it.
#[tactic(auto, unfolding(crate::specs::Inner::Margin::level_of))]
fn is_level(plane: Plane, p: [f64; 3]) -> bool
    ensures { result ≡ level_of plane p }
{
    let w = height(plane, p);
    !(w > MARGIN) & !(w < -MARGIN)
}

impl<'a> Corners<'a> {
    // On which sides of the plane none of the points but the triple's own stands: from the last point on, until both sides have one.
    fn sides(self, plane: Plane) -> Sides
        ensures { result ≡ sides_of self.entry.pts.now plane (others (length self.entry.pts.now) self.entry.t.i self.entry.t.j self.entry.t.k) }
    {
        let mut s = Sides {
            below: true,
            above: true,
        };
        for (p, at) in self.pts.iter().enumerate().rev() {
            if !is_other(self.t, p) {
                continue;
            }
            s = beside(plane, *at, s);
            if !(s.below | s.above) {
                return s;
            }
        }
        s
    }

    // Whether one of the points stands well over the plane of the triple and one well under it, by the normal before it is scaled, and neither is the triple's own. Then near points need no root: the triple is no face.
    fn well_apart(self, raw: [f64; 3]) -> bool
        requires { raw ≡ raw_normal (point self.pts.now self.t.i) (point self.pts.now self.t.j) (point self.pts.now self.t.k) }
        ensures { result ≡ true → NearIn self.entry.pts.now → face_of self.entry.pts.now self.entry.t.i self.entry.t.j self.entry.t.k ≡ Skip }
    {
        let pts = self.pts;
        let t = self.t;
        let a = pts[t.i];
        let plane = Plane {
            nrm: raw,
            d: vector::dot(raw, a),
        };
        let n = pts.len();
        let mut over = false;
        let mut under = false;
        // half of the points, the greater one, each with its fellow from the other end
        for (p, q) in pts[..n - n / 2].iter().zip(pts.iter().rev()) {
            let v = height(plane, *p);
            let w = height(plane, *q);
            over = over | (v > MARGIN) | (w > MARGIN);
            under = under | (v < -MARGIN) | (w < -MARGIN);
            if over & under {
                return is_level(plane, a) & is_level(plane, pts[t.j]) & is_level(plane, pts[t.k]);
            }
        }
        false
    }

    // The tests of a triple of the points, up to that of its plane's distance.
    pub fn face_test(self) -> Face
        ensures { result ≡ face_of self.entry.pts.now self.entry.t.i self.entry.t.j self.entry.t.k }
    {
        let a = self.pts[self.t.i];
        let raw = raw_normal(a, self.pts[self.t.j], self.pts[self.t.k]);
        if self.near & self.well_apart(raw) {
            return Face::Skip;
        }
        let nl = vector::length64(raw);
        if nl < LEAST_NORMAL {
            return Face::Skip;
        }
        let nrm = vector::over(raw, nl);
        let d = vector::dot(nrm, a);
        let plane = Plane { nrm, d };
        let s = self.sides(plane);
        if s.below {
            return outward(plane);
        }
        if s.above {
            return outward(turned(plane));
        }
        Face::Skip
    }
}
