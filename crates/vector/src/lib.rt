// Vectors of three numbers: directions and the points of a hull.
#![tactic(auto)]

ghost use Rattle.std.specs.Prelude.{◌≡◌, ◌+◌, ◌*◌, ◌≤◌, length};
ghost use Rattle.lists.specs.Lists.{part};
ghost use Rattle.vector.specs.Vector.{dot_of, cross_of, less_of, over_of, negated_of, length_of, unit_of, dir_vec_of, places_in};

// Origin: vbap.rs line 158; a shorter position has no direction.
const SHORTEST: f64 = 1e-6;

// How many imaginary points there are at most, poles counted. Origin: vbap.rs line 60 and document 01.
pub const MAX_IMAGINARY: usize = 14;

// How many triplets a hull may have. Origin: document 01, refusal 4.
pub const MOST_TRIPLETS: usize = 80;

// An active speaker: its output slot and its unit direction, in 64 bits.
#[derive(Clone, Copy)]
pub struct Speaker {
    pub slot: u8,
    pub dir: [f64; 3],
}

// The position as a direction, where its length is finite and above 1e-6.
pub fn unit(p: [f32; 3]) -> Option<[f64; 3]>
    ensures { result ≡ unit_of p }
{
    let v = widened(p);
    let l = length64(v);
    if (l <= SHORTEST) | !float_order::is_finite(l) {
        return None;
    }
    Some(over(v, l))
}

// The same three numbers, in 64 bits.
fn widened(p: [f32; 3]) -> [f64; 3]
    ensures { result ≡ p }
{
    p.map(|x| float_widths::widen(x))
}

#[tactic(auto, unfolding(crate::specs::Vector::cross_of, crate::specs::Vector::minor))]
pub fn cross(a: [f64; 3], b: [f64; 3]) -> [f64; 3]
    ensures { result ≡ cross_of a b }
{
    [
        a[1] * b[2] - a[2] * b[1],
        a[2] * b[0] - a[0] * b[2],
        a[0] * b[1] - a[1] * b[0],
    ]
}

#[tactic(auto, unfolding(crate::specs::Vector::dot_of, crate::specs::Vector::dot_in))]
pub fn dot(a: [f64; 3], b: [f64; 3]) -> f64
    ensures { result ≡ dot_of a b }
{
    a[0] * b[0] + a[1] * b[1] + a[2] * b[2]
}

// a - b.
#[tactic(auto, unfolding(crate::specs::Vector::less_of))]
pub fn less(a: [f64; 3], b: [f64; 3]) -> [f64; 3]
    ensures { result ≡ less_of a b }
{
    [a[0] - b[0], a[1] - b[1], a[2] - b[2]]
}

// a / l.
#[tactic(auto, unfolding(crate::specs::Vector::over_of))]
pub fn over(a: [f64; 3], l: f64) -> [f64; 3]
    ensures { result ≡ over_of a l }
{
    a.map(|x| x / l)
}

// -a.
#[tactic(auto, unfolding(crate::specs::Vector::negated_of))]
pub fn negated(a: [f64; 3]) -> [f64; 3]
    ensures { result ≡ negated_of a }
{
    a.map(|x| -x)
}

// The square root of a·a.
#[tactic(auto, unfolding(crate::specs::Vector::length_of))]
pub fn length64(a: [f64; 3]) -> f64
    ensures { result ≡ length_of a }
{
    float_root::sqrt64(dot(a, a))
}

// Point i of a flat array, three numbers a point.
pub fn point<T: Copy>(flat: &[T], i: usize) -> [T; 3]
    requires { i * 3 + 3 ≤ length flat.now }
    ensures read { (d : T) → result ≡ places_in d flat.now i }
    ensures part { result ≡ part 3 flat.now i }
{
    [flat[i * 3], flat[i * 3 + 1], flat[i * 3 + 2]]
}

// The direction of a source at an azimuth and an elevation.
#[tactic(auto, unfolding(crate::specs::Vector::dir_vec_of))]
pub fn dir_vec(az: f32, el: f32) -> [f32; 3]
    ensures { result ≡ dir_vec_of az el }
{
    let a = float_sine::sin_cos32(az);
    let e = float_sine::sin_cos32(el);
    [a.sin * e.cos, e.sin, -a.cos * e.cos]
}
