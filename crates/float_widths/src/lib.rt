// Document 01, "Number work": widening, narrowing, whole number to float.
// Every literal that is a format's constant is IEEE 754-2019, table 3.5. binary32: 24 digits (prec), largest exponent 127 (emax), smallest value 2^-149.
// binary64: 53 digits, largest exponent 1023, smallest value 2^-1074; in its bit pattern the exponent's field weighs 2^52 = 0x10_0000_0000_0000,
// the sign 2^63 = 0x8000_0000_0000_0000, and the highest field, of infinities and NaNs, is 2047. Where both formats are meant, the numbers are those of `Width`.
#![tactic(auto)]

ghost use Rattle.std.specs.Prelude.{◌≡◌, ◌+◌, ◌-◌, ◌*◌, ◌/◌, ◌%◌, ◌^◌, ◌<◌, ◌≤◌, ◌&&◌, ◌||◌, pos, if◌then◌else◌, ◌==◌, nat_eq};
ghost use Rattle.std.specs.Float.{binary32, binary64};
ghost use Rattle.std.specs.Float.Ieee.{prec, units, round, of_int};
ghost use Rattle.std.specs.Float.Ieee.Nearest.{closest};
ghost use Rattle.float_widths.specs.Narrow.{narrow_of};

use float_order::Width;

// ---- widths

// x at the wider format: the same value, where `narrow` rounds, so that the two have no step in common. Of a NaN, here and below, the sign and payload are the program's: every choice is a NaN, and a quiet one (IEEE 754-2019, 6.2).
pub fn widen(x: f32) -> f64
    ensures { result ≡ x }
{
    std::num::f32_to_f64_with_nan(x)
}

// What rounding adds to d / 2, where more says whether anything lies below d: above a half 1, at a tie what makes the sum even.
fn carry(d: u64, more: bool) -> u64
    ensures { result ≡ (if nat_eq (d % 2) 1 && (more || d / 2 % 2 == 1) then 1 else 0) }
{
    u64::from((d % 2 == 1) & (more | (d / 2 % 2 == 1)))
}

// m / 2^sh to the nearest whole number, a tie to the even one.
pub fn round_shift(m: u64, sh: u32) -> u64
    ensures { result ≡ closest m (2 ^ sh) }
{
    if sh == 0 {
        return m;
    }
    // m is below 2^64, so from 65 on less than half is left
    if sh > 64 {
        return 0;
    }
    let h = sh - 1;
    let d = m >> h;
    d / 2 + carry(d, (d << h) != m)
}

// The sign's part of a pattern. It is added in one place: with a pattern made in each branch, or the value negated at the end, narrowing takes a branch on the sign, and nearly twice the time.
fn sign_part<W: Width>(neg: bool) -> u64
    ensures { result ≡ (if neg then W.SIGN else 0) }
{
    if neg { W::SIGN } else { 0 }
}

// q * 2^k of the format's smallest values, with the sign; too many are an infinity.
// The pattern is a sum: the leading digit of q adds one to the exponent's field, and a q with one digit more, 2^24 or 2^53, carries into it.
pub fn assemble<W: Width>(neg: bool, q: u64, k: u32) -> W
    requires { (q ≤ 2 ^ prec W.format) × (0 < k → 2 ^ (prec W.format - 1) ≤ q) }
    ensures { W.float result ≡ units W.format neg q k }
{
    let (weight, highest) = (W::FIELD, W::HIGHEST);
    // Origin: 2 * emax is one less than the highest field
    if k as u64 >= highest - 1 {
        return if neg {
            W::neg_infinity()
        } else {
            W::infinity()
        };
    }
    let sign = sign_part::<W>(neg);
    W::of_pattern(sign + (k as u64 * weight + q))
}

// The f32 nearest to m * 2^j / 2^1074. In smallest f32 values that is m * 2^j / 2^925; of its whole part, of z + j - 925 digits, 24 are kept.
fn pack32(neg: bool, m: u64, j: u32) -> f32
    requires { (j < 2 ^ 31) × (925 < j → 2 ^ 24 ≤ m) }
    ensures { result ≡ round binary32 neg (m * 2 ^ j) (2 ^ 1074) }
{
    let z = 64 - u64::leading_zeros(m);
    // Origin: 925 is 1074 - 149, and 949 is 925 + 24: up to there no digit before the point is dropped
    if z + j <= 949 {
        assemble(neg, round_shift(m, 925 - j), 0)
    } else {
        assemble(neg, round_shift(m, z - 24), z + j - 949)
    }
}

// The f32 nearest to m * 2^(k + 896) / 2^1074, of an m with 53 digits, of which 24 are kept. In smallest f32 values that is m / 2^29 * 2^k.
fn pack32_normal(neg: bool, m: u64, k: u32) -> f32
    requires { (2 ^ 52 ≤ m) × (m < 2 ^ 53) × (k < 2 ^ 31) }
    ensures { result ≡ round binary32 neg (m * 2 ^ (k + 896)) (2 ^ 1074) }
{
    // Origin: 53 - 24
    assemble(neg, round_shift(m, 29), k)
}

// x at the narrower format: the nearest f32, a tie to the even one.
pub fn narrow(x: f64) -> f32
    ensures { result ≡ narrow_of x }
{
    if x.is_nan() {
        return 0.0 / 0.0;
    }
    let b = f64::to_bits(x);
    // Origin: the sign, the exponent's field and the digits of a binary64
    let neg = b >= 0x8000_0000_0000_0000;
    let e = b % 0x8000_0000_0000_0000 / 0x10_0000_0000_0000;
    let t = b % 0x10_0000_0000_0000;
    if e == 2047 {
        if neg {
            f32::NEG_INFINITY
        } else {
            f32::INFINITY
        }
    } else if e == 0 {
        pack32(neg, t, 0)
    } else if e > 896 {
        // with its leading digit, 2^52. Origin: 897 is the field of 2^-126, the least f32 with all its digits
        pack32_normal(neg, t + 0x10_0000_0000_0000, (e - 897) as u32)
    } else {
        pack32(neg, t + 0x10_0000_0000_0000, (e - 1) as u32)
    }
}

// ---- whole numbers

// The f32 nearest to n. Small numbers, which the panner has, are cast: no digit of them is dropped.
pub fn f32_from_u64(n: u64) -> f32
    ensures { result ≡ of_int binary32 (pos n) }
{
    // Origin: 2^24, below which every whole number is an f32
    if n < 0x100_0000 {
        n as f32
    } else {
        std::num::nearest_u64_to_f32(n)
    }
}

// The f64 nearest to n.
pub fn f64_from_u64(n: u64) -> f64
    ensures { result ≡ of_int binary64 (pos n) }
{
    std::num::nearest_u64_to_f64(n)
}
