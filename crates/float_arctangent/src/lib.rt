// Arctangent and atan2 by the steps of document 01, "Number work". Where the angle is a NaN, its sign and payload are the program's: every choice is a NaN, and a quiet one.
#![tactic(auto)]

ghost use Rattle.std.specs.Prelude.{◌≡◌};
ghost use Rattle.float_arctangent.specs.Arctangent.{halved_of, atan_of, ratio_of, first_quadrant_of, with_sign_of_x, with_sign_of_y, atan2_of};

// The coefficients of A, (-1)^i / (2i + 1), each quotient rounded once, with its pattern beside it. Origin: document 01, A.
const ARCTANGENTS: [f64; 8] = [
    1.0, // 1 / 1, 3ff0000000000000
    -0.3333333333333333, // -1 / 3, bfd5555555555555
    0.2, // 1 / 5, 3fc999999999999a
    -0.14285714285714285, // -1 / 7, bfc2492492492492
    0.1111111111111111, // 1 / 9, 3fbc71c71c71c71c
    -0.09090909090909091, // -1 / 11, bfb745d1745d1746
    0.07692307692307693, // 1 / 13, 3fb3b13b13b13b14
    -0.06666666666666667, // -1 / 15, bfb1111111111111
];

// One of A's three steps, which halve the angle. Origin of 1.0: document 01, q / (1 + sqrt(1 + q q)).
#[tactic(auto, unfolding(crate::specs::Arctangent::halved_of, std::specs::Prelude::from_bits))]
fn halved(q: f64) -> f64
    ensures { result ≡ halved_of q }
{
    q / (1.0 + float_root::sqrt64(1.0 + q * q))
}

// A(q). Origin of 8.0: document 01, 8 (q times the sum), after three halvings.
pub fn atan(q: f64) -> f64
    ensures { result ≡ atan_of q }
{
    let h = halved(halved(halved(q)));
    8.0 * (h * float_sine::sum(&ARCTANGENTS, h * h))
}

// y ÷ x, of two zeros 0.
#[tactic(auto, unfolding(crate::specs::Arctangent::ratio_of, std::specs::Prelude::from_bits))]
fn ratio(y: f64, x: f64) -> f64
    ensures { result ≡ ratio_of y x }
{
    if (y == 0.0) & (x == 0.0) {
        return 0.0;
    }
    y / x
}

// The angle from 0 to pi/2, of a y and an x without their signs.
fn first_quadrant(y: f64, x: f64) -> f64
    ensures { result ≡ first_quadrant_of y x }
{
    if y <= x {
        return atan(ratio(y, x));
    }
    float_sine::HALF_PI - atan(ratio(x, y))
}

// With x's sign bit set, of -0 too, pi minus the angle.
fn with_sign_of_x(x: f64, a: f64) -> f64
    ensures { result ≡ with_sign_of_x x a }
{
    if float_order::sign_bit(x) {
        return float_sine::PI64 - a;
    }
    a
}

// With y's sign bit set, of -0 too, the angle negated.
#[tactic(auto, unfolding(crate::specs::Arctangent::with_sign_of_y))]
fn with_sign_of_y(y: f64, b: f64) -> f64
    ensures { result ≡ with_sign_of_y y b }
{
    if float_order::sign_bit(y) {
        return -b;
    }
    b
}

// The angle of (x, y), from -pi to pi; NaN where one is NaN or both are infinite.
#[tactic(auto, unfolding(crate::specs::Arctangent::atan2_of))]
pub fn atan2(y: f64, x: f64) -> f64
    ensures { result ≡ atan2_of y x }
{
    let a = first_quadrant(float_order::abs(y), float_order::abs(x));
    with_sign_of_y(y, with_sign_of_x(x, a))
}
