// Sine and cosine by the steps of document 01, "Number work". Of a NaN or an infinity both are NaN: its sign and payload are the program's, every choice is a NaN, and it is a quiet one.
#![tactic(auto)]

ghost use Rattle.std.specs.Prelude.{◌≡◌, T};
ghost use Rattle.std.specs.Float.{binary64};
ghost use Rattle.std.specs.Float.Ieee.{le, of_int};
ghost use Rattle.float_order.specs.Values.{abs};
ghost use Rattle.float_sine.specs.Quarter.{number_of};
ghost use Rattle.float_sine.specs.Series.{sum_of};
ghost use Rattle.float_sine.specs.Sine.{4·0, remainder, nearest_whole, mod4, sin_of, cos_of, sin32_of, cos32_of};

use std::f64::consts;

// Origin: document 01, "Number work": the 64-bit float nearest pi, 400921fb54442d18.
pub const PI64: f64 = consts::PI;

// Origin: document 01, "Number work": twice PI64, 401921fb54442d18.
pub const TWO_PI: f64 = consts::TAU;

// Origin: document 01, "Number work": half of PI64, 3ff921fb54442d18.
pub const HALF_PI: f64 = consts::FRAC_PI_2;

// The coefficients of S, (-1)^i / (2i + 1)!, each quotient rounded once, with its pattern beside it. Origin: document 01, S.
const SINES: [f64; 9] = [
    1.0, // 1 / 1!, 3ff0000000000000
    -0.16666666666666666, // -1 / 3!, bfc5555555555555
    0.008333333333333333, // 1 / 5!, 3f81111111111111
    -0.0001984126984126984, // -1 / 7!, bf2a01a01a01a01a
    2.7557319223985893e-06, // 1 / 9!, 3ec71de3a556c734
    -2.505210838544172e-08, // -1 / 11!, be5ae64567f544e4
    1.6059043836821613e-10, // 1 / 13!, 3de6124613a86d09
    -7.647163731819816e-13, // -1 / 15!, bd6ae7f3e733b81f
    2.8114572543455206e-15, // 1 / 17!, 3ce952c77030ad4a
];

// The coefficients of C, (-1)^i / (2i)!, each quotient rounded once. Origin: document 01, C.
const COSINES: [f64; 9] = [
    1.0, // 1 / 0!, 3ff0000000000000
    -0.5, // -1 / 2!, bfe0000000000000
    0.041666666666666664, // 1 / 4!, 3fa5555555555555
    -0.001388888888888889, // -1 / 6!, bf56c16c16c16c17
    2.48015873015873e-05, // 1 / 8!, 3efa01a01a01a01a
    -2.755731922398589e-07, // -1 / 10!, be927e4fb7789f5c
    2.08767569878681e-09, // 1 / 12!, 3e21eed8eff8d898
    -1.1470745597729725e-11, // -1 / 14!, bda93974a8c07c9d
    4.779477332387385e-14, // 1 / 16!, 3d2ae7f3e733b81f
];

// The sum of the coefficients, the lowest first, times the powers of z: from the highest on, sum <- coefficient + z * sum.
#[inline]
pub fn sum(coefficients: &[f64], z: f64) -> f64
    ensures { result ≡ sum_of z coefficients.now }
{
    let Some((highest, rest)) = coefficients.split_last() else {
        return 0.0
    };
    let mut sum = *highest;
    for c in rest.iter().rev() {
        sum = *c + z * sum;
    }
    sum
}

// The remainder of v by 2 pi: v itself where it lies inside.
fn rem_two_pi(v: f64) -> f64
    ensures { result ≡ remainder v }
{
    if (v < TWO_PI) & (v > -TWO_PI) {
        return v;
    }
    float_order::rem(v, TWO_PI)
}

// The quarter of the turn in which an angle lies, by k mod 4: from 0, 1, 2 and 3 on.
#[derive(Clone, Copy)]
enum Quarter {
    First,
    Second,
    Third,
    Fourth,
}

// k as a float, and k mod 4.
#[derive(Clone, Copy)]
struct Turn {
    k: f64,
    quarter: Quarter,
}

// The whole number k nearest q, of a q from -4 to 4, and k mod 4.
// Origin: document 01, "Number work": k - 1/2 <= q < k + 1/2, so the tests are at k + 1/2 for k from -4 to 3.
// Not a table of bounds and turns: tried in a Rust copy, `sin_cos` with `for (bound, turn) in TURNS { if q < bound { return turn; } }` took 23.8 ns in place of 20.0.
fn turn_of(q: f64) -> Turn
    ensures { T (le (abs q) 4·0) → (result.k ≡ of_int binary64 (nearest_whole q)) × (number_of result.quarter ≡ mod4 (nearest_whole q)) }
{
    if q < -3.5 {
        return Turn {
            k: -4.0,
            quarter: Quarter::First,
        };
    }
    if q < -2.5 {
        return Turn {
            k: -3.0,
            quarter: Quarter::Second,
        };
    }
    if q < -1.5 {
        return Turn {
            k: -2.0,
            quarter: Quarter::Third,
        };
    }
    if q < -0.5 {
        return Turn {
            k: -1.0,
            quarter: Quarter::Fourth,
        };
    }
    if q < 0.5 {
        return Turn {
            k: 0.0,
            quarter: Quarter::First,
        };
    }
    if q < 1.5 {
        return Turn {
            k: 1.0,
            quarter: Quarter::Second,
        };
    }
    if q < 2.5 {
        return Turn {
            k: 2.0,
            quarter: Quarter::Third,
        };
    }
    if q < 3.5 {
        return Turn {
            k: 3.0,
            quarter: Quarter::Fourth,
        };
    }
    Turn {
        k: 4.0,
        quarter: Quarter::First,
    }
}

// The sine and the cosine of one value.
#[derive(Clone, Copy)]
pub struct SinCos<T> {
    pub sin: T,
    pub cos: T,
}

pub fn sin_cos(v: f64) -> SinCos<f64>
    ensures { (result.sin ≡ sin_of v) × (result.cos ≡ cos_of v) }
{
    let r = rem_two_pi(v);
    let t = turn_of(r / HALF_PI);
    let y = r - t.k * HALF_PI;
    let z = y * y;
    let s = y * sum(&SINES, z);
    let c = sum(&COSINES, z);
    match t.quarter {
        Quarter::First => SinCos { sin: s, cos: c },
        Quarter::Second => SinCos { sin: c, cos: -s },
        Quarter::Third => SinCos { sin: -s, cos: -c },
        Quarter::Fourth => SinCos { sin: -c, cos: s },
    }
}

pub fn sin(v: f64) -> f64
    ensures { result ≡ sin_of v }
{
    sin_cos(v).sin
}

pub fn cos(v: f64) -> f64
    ensures { result ≡ cos_of v }
{
    sin_cos(v).cos
}

// The same in 32 bits: widened, computed, narrowed. The two widths have no step in common: the sums are taken in 64 bits alone.
pub fn sin_cos32(v: f32) -> SinCos<f32>
    ensures { (result.sin ≡ sin32_of v) × (result.cos ≡ cos32_of v) }
{
    let t = sin_cos(float_widths::widen(v));
    SinCos {
        sin: float_widths::narrow(t.sin),
        cos: float_widths::narrow(t.cos),
    }
}

pub fn sin32(v: f32) -> f32
    ensures { result ≡ sin32_of v }
{
    float_widths::narrow(sin(float_widths::widen(v)))
}

pub fn cos32(v: f32) -> f32
    ensures { result ≡ cos32_of v }
{
    float_widths::narrow(cos(float_widths::widen(v)))
}
