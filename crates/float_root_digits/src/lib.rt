// The digits of a square root, over whole numbers: found one after the other, and tested where a float guesses them.
// Every literal that is a format's constant is IEEE 754-2019, table 3.5: in a binary64's bit pattern the exponent's field weighs 2^52 = 0x10_0000_0000_0000.
#![tactic(auto)]

ghost use Rattle.std.specs.Prelude.{◌≡◌, ◌+◌, ◌-◌, ◌*◌, ◌/◌, ◌%◌, ◌^◌, ◌<◌, ◌≤◌, true, to_bits, IfSome};
ghost use Rattle.std.specs.Float.{binary64};
ghost use Rattle.std.specs.Float.Ieee.{prec};

use float_order::Width;

// A whole root, and what is left.
#[derive(Clone, Copy)]
pub struct Found {
    pub root: u64,
    pub rem: u64,
}

// The whole root of m * 2^46, which has 55 digits, and what is left: digit by digit.
pub fn root_by_digits(m: u64) -> Found
    requires { 2 ^ 62 ≤ m }
    ensures { (m * 2 ^ 46 ≡ result.root * result.root + result.rem) × (result.rem ≤ 2 * result.root) × (2 ^ 54 ≤ result.root) × (result.root < 2 ^ 55) }
{
    let mut left = m;
    let mut root: u64 = 0;
    let mut rem: u64 = 0;
    // Origin: m * 2^46 has 110 digits, two for each of the root's. 2^62: the two highest digits of `left`
    for i in 0..55u32 {
        rem = rem * 4 + left / 0x4000_0000_0000_0000;
        left = left % 0x4000_0000_0000_0000 * 4;
        root = root * 2;
        if root * 2 < rem {
            rem = rem - (root * 2 + 1);
            root = root + 1;
        }
    }
    Found { root, rem }
}

// Whether q is the root of n * 2^(digits - 1) to the nearest whole number: whether that number is above q * q - q and not above q * q + q.
// The products of 64-bit roots do not fit a word of 64 bits, so those of both widths are taken in 128.
pub fn is_root<W: Width>(n: u64, q: u64) -> bool
    requires { (n < 2 ^ 54) × (q < 2 ^ 53) }
    ensures { result ≡ true → (q * q < n * 2 ^ (prec W.format - 1) + q) × (n * 2 ^ (prec W.format - 1) ≤ q * q + q) }
{
    let (root, weight) = (q as u128, W::FIELD);
    let square = root * root;
    let number = n as u128 * weight as u128;
    (square < number + root) & (number <= square + root)
}

// The digits of a value with the pattern b, twice where the exponent's field is even: what is left of the exponent is even.
pub fn even_digits<W: Width>(b: u64) -> u64
    ensures { result ≡ (b % 2 ^ (prec W.format - 1) + 2 ^ (prec W.format - 1)) * 2 ^ (1 - b / 2 ^ (prec W.format - 1) % 2) }
{
    let weight = W::FIELD;
    let m = b % weight + weight;
    if b / weight % 2 == 1 {
        return m;
    }
    m * 2
}
