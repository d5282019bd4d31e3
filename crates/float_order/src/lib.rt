// Document 01, "Number work": signs, maximum, minimum, clamp, the fourth power and rem_euclid. Widths and whole numbers are in crate float_widths, the root in crate float_root.
// Of a NaN the promises say only that it is one: its sign and payload are the program's, and every choice is a NaN. What is computed is a quiet one (IEEE 754-2019, 6.2);
// abs and clamp hand a NaN on as it came, as copies do.
#![tactic(auto)]

ghost use Rattle.std.specs.Prelude.{◌≡◌, ℕ, ◌*◌, ◌<◌, T, MatchOption, cond, not, true, is_nan, from_bits};
ghost use Rattle.std.specs.Float.Ieee.{add, rem, lt, nan_bits, fits};
ghost use Rattle.float_order.specs.Values.{+0, abs, sign_bit, is_finite};
ghost use Rattle.float_order.specs.Order.{max_of, min_of, clamp_of, powi4_of};
ghost use Rattle.float_order.specs.Remainder.{rem_euclid_of};
ghost use Rattle.float_order.specs.Width.{Weights, Patterned, Sizes, weights32, weights64, sizes32, sizes64};

use float_remainder::Field;
use num_traits::Float;

// ---- the two widths

// A float type of the kit's `num_traits`, whose laws say by its format what the operators do, with its patterns: binary32 or binary64 of IEEE 754-2019, table 3.5.
// Each number stands as a constant for the code and as a ghost item for the clauses: a clause can't cite a trait's constant, and the check proves the two equal.
pub trait Width: Float {
    ghost SIGN: { ℕ };

    ghost FIELD: { ℕ };

    ghost HIGHEST: { ℕ };

    ghost DIGITS: { ℕ };

    ghost LOWEST: { ℕ };

    // The weights of the sign and of the exponent's field in a pattern, and the highest field, of infinities and NaNs.
    const SIGN: u64;

    const FIELD: u64;

    const HIGHEST: u64;

    // How many digits a value has, the leading one counted, and the power of two of which the smallest value is one part.
    const DIGITS: u32;

    const LOWEST: u32;

    // The bit pattern; of a NaN none, as its bits are the program's.
    fn pattern(self) -> Option<u64>
        ensures { MatchOption result (is_nan (Self.float self) ≡ true) (Patterned Self.format (Self.float self)) };

    // `<` of a type parameter goes by `partial_cmp` and its `Option<Ordering>`, and stays so in the machine code: with it `is_finite` has 40 instructions in place of 8. And it says that `self` is a value of the format, which no law of `Float` does.
    fn is_less(self, other: Self) -> bool
        ensures held { T (fits Self.format (Self.float self)) }
        ensures less { result ≡ lt (Self.float self) (Self.float other) };

    // The value of a pattern that is no NaN's.
    fn of_pattern(n: u64) -> Self
        requires { (n < 2 * SIGN) × T (not (nan_bits Self.format n)) }
        ensures { Self.float result ≡ from_bits Self.format n };

    ghost weights: { Weights Self.format SIGN FIELD HIGHEST };

    ghost sizes: { Sizes Self.format DIGITS LOWEST };
}

impl Width for f32 {
    ghost SIGN = { 0x8000_0000 };

    ghost FIELD = { 0x80_0000 };

    ghost HIGHEST = { 255 };

    ghost DIGITS = { 24 };

    ghost LOWEST = { 149 };

    // Origin: IEEE 754-2019, table 3.5: 2^31.
    const SIGN: u64 = 0x8000_0000;

    // Origin: the same: 2^23.
    const FIELD: u64 = 0x80_0000;

    // Origin: the same: 2 * 127 + 1, emax twice and one.
    const HIGHEST: u64 = 255;

    // Origin: the same: the digits.
    const DIGITS: u32 = 24;

    // Origin: the same: the smallest value is 2^-149.
    const LOWEST: u32 = 149;

    ghost weights = { weights32 };

    ghost sizes = { sizes32 };

    fn pattern(self) -> Option<u64> {
        if self.is_nan() {
            return None;
        }
        Some(f32::to_bits(self) as u64)
    }

    fn is_less(self, other: f32) -> bool {
        self < other
    }

    fn of_pattern(n: u64) -> f32 {
        f32::from_bits(n as u32)
    }
}

impl Width for f64 {
    ghost SIGN = { 0x8000_0000_0000_0000 };

    ghost FIELD = { 0x10_0000_0000_0000 };

    ghost HIGHEST = { 2047 };

    ghost DIGITS = { 53 };

    ghost LOWEST = { 1074 };

    // Origin: IEEE 754-2019, table 3.5: 2^63.
    const SIGN: u64 = 0x8000_0000_0000_0000;

    // Origin: the same: 2^52.
    const FIELD: u64 = 0x10_0000_0000_0000;

    // Origin: the same: 2 * 1023 + 1.
    const HIGHEST: u64 = 2047;

    // Origin: the same: the digits.
    const DIGITS: u32 = 53;

    // Origin: the same: the smallest value is 2^-1074.
    const LOWEST: u32 = 1074;

    ghost weights = { weights64 };

    ghost sizes = { sizes64 };

    fn pattern(self) -> Option<u64> {
        if self.is_nan() {
            return None;
        }
        Some(f64::to_bits(self))
    }

    fn is_less(self, other: f64) -> bool {
        self < other
    }

    fn of_pattern(n: u64) -> f64 {
        f64::from_bits(n)
    }
}

// ---- signs and kinds

// Whether the sign bit is set, of -0 too. The logic's one NaN has no sign, so what a NaN answers is the program's choice: its sign counts as clear.
pub fn sign_bit<W: Width>(x: W) -> bool
    ensures { result ≡ sign_bit (W.float x) }
{
    match x.pattern() {
        Some(p) => p >= W::SIGN,
        None => false, // the choice: clear
    }
}

// x without its sign.
pub fn abs<W: Width>(x: W) -> W
    ensures { W.float result ≡ abs (W.float x) }
{
    if sign_bit(x) { -x } else { x }
}

// Neither a NaN nor an infinity.
pub fn is_finite<W: Width>(x: W) -> bool
    ensures { result ≡ is_finite (W.float x) }
{
    x.is_less(W::infinity()) & W::neg_infinity().is_less(x)
}

// ---- order and powers

// The greater; the other value for a NaN, +0 for two zeros. Of two NaNs the sum, which is a quiet NaN.
pub fn max<W: Width>(x: W, y: W) -> W
    ensures { W.float result ≡ max_of (W.float x) (W.float y) }
{
    if x.is_nan() {
        return if y.is_nan() { x + y } else { y }; // a NaN, and a quiet one, or y
    }
    if y.is_nan() {
        return x;
    }
    if x.is_zero() & y.is_zero() {
        return W::zero();
    }
    if x.is_less(y) { y } else { x }
}

// The lesser; the other value for a NaN, and of two NaNs the sum, which is a quiet NaN.
// Of two zeros document 01 leaves the choice to the program: here the first; every choice is a zero. No crate of the panner calls this: it is here since document 01 names a minimum, and test_floats tests it.
pub fn min32(x: f32, y: f32) -> f32
    ensures { result ≡ min_of x y }
{
    if x.is_nan() {
        return if y.is_nan() { x + y } else { y };
    }
    if y.is_nan() {
        return x;
    }
    if y < x { y } else { x }
}

// From 0 to 1; a NaN and -0 stay as they came. Origin of 0 and 1: the bounds of every clamp in vbap.rs, lines 90, 149, 151 and 484.
#[tactic(auto, unfolding(crate::specs::Order::clamp_of))]
pub fn clamp(x: f32) -> f32
    ensures { result ≡ clamp_of x }
{
    x.clamp(0.0, 1.0)
}

// The square of the square.
pub fn powi4(x: f32) -> f32
    ensures { result ≡ powi4_of x }
{
    let s = x * x;
    s * s
}

// ---- remainder

// The remainder with the sign of x, as C's fmod has it, by whole-number work: the operator % of floats asks the platform's library for it.
pub fn rem<W: Width>(x: W, m: W) -> W
    ensures { W.float result ≡ rem W.format (W.float x) (W.float m) }
{
    let Some(p) = x.pattern() else { return x + m };
    let Some(q) = m.pattern() else { return x + m };
    let (sign, weight, highest) = (W::SIGN, W::FIELD, W::HIGHEST);
    let a = p % sign;
    let b = q % sign;
    if a / weight == highest {
        return x - x;
    }
    if b / weight == highest {
        return x;
    }
    if b == 0 {
        return m / m;
    }
    let r = Field { weight }.rem_patterns(a, b);
    W::of_pattern(p - a + r)
}

// r, plus the modulus where r is negative.
fn raised<W: Width>(r: W, m: W) -> W
    ensures { W.float result ≡ cond (lt (W.float r) +0) (add W.format (W.float r) (W.float m)) (W.float r) }
{
    if r.is_less(W::zero()) { r + m } else { r }
}

// The remainder, plus the modulus where negative; -0 stays. Between m and -m the remainder is x.
pub fn rem_euclid<W: Width>(x: W, m: W) -> W
    ensures { W.float result ≡ rem_euclid_of W.format (W.float x) (W.float m) }
{
    if x.is_less(m) & (-m).is_less(x) {
        return raised(x, m);
    }
    raised(rem(x, m), m)
}
