// Document 01, "Number work": the square root of IEEE 754, to the nearest value, a tie to the even one.
// Of a NaN the promise says only that the root is one: its sign and payload are the program's, and every choice is a NaN. It is a quiet one (IEEE 754-2019, 6.2): a NaN plus itself.
// Every literal that is a format's constant is IEEE 754-2019, table 3.5. binary32: 24 digits (prec), smallest value 2^-149. binary64: 53 digits, smallest value 2^-1074.
// In a bit pattern the exponent's field weighs 2^23 = 0x80_0000 and 2^52 = 0x10_0000_0000_0000, and the highest field, of infinities and NaNs, is 255 and 2047.
// Where both formats are meant, the numbers are those of `Width`.
#![tactic(auto)]

ghost use Rattle.std.specs.Prelude.{◌≡◌, false, ◌+◌, ◌-◌, ◌*◌, ◌^◌, ◌≤◌, ◌<◌};
ghost use Rattle.std.specs.Float.{Format, binary32, binary64};
ghost use Rattle.std.specs.Float.Ieee.{prec, low, units};
ghost use Rattle.float_root.specs.Root.{round_root, sqrt_of};

use float_order::Width;

// A number q * 2^k.
#[derive(Clone, Copy)]
struct Parts {
    q: u64,
    k: u32,
}

// The root of m * 2^j / 2^low, rounded to 55 - dropped digits: q * 2^k of the format's smallest values, 2^-low. scale is low - 46, since `root_by_digits` puts 46 zeros behind its number.
// In smallest values it is the root of m * 2^(j + low), which is (m << shift) * 2^46 * 4^half: the root of m << shift with its zeros, times 2^half.
// shift: as many of m's leading zeros as leave the exponent j + scale - shift even, all of them or all but one. half: half of that exponent.
// The root has 55 digits. They, and one more that says whether anything is left, are enough to round by: dropped + 1 of these 56 go.
// The root of 2 as an f32: m = 2^23, j = 127, scale = 103, dropped = 31, as 2^23 * 2^127 / 2^149 = 2. There are 40 zeros, 40 + 127 + 103 is even: shift = 40, half = (127 + 103 - 40) / 2 = 95.
// The root of 2^63 * 2^46 is 25476206690103090, with something left: q is 50952413380206181 / 2^32 = 11863283.2 rounded, 11863283; k = 126; q * 2^126 / 2^149 = 1.41421354, the pattern 3fb504f3.
fn root_parts(m: u64, j: u32, scale: u32, dropped: u32) -> Parts
    requires { (0 < m) × (m < 2 ^ 63) × (j < 4096) × (63 ≤ scale) × (scale < 4096) × (0 < dropped) × (dropped < 54) }
    ensures { (f : Format) → prec f + dropped ≡ 55 → low f ≡ scale + 46 → (result.q ≤ 2 ^ prec f) × (2 ^ (prec f - 1) ≤ result.q) × (units f false result.q result.k ≡ round_root f (m * 2 ^ j * 2 ^ low f)) }
{
    let zeros = u64::leading_zeros(m);
    let shift = zeros - (zeros + j + scale) % 2;
    let half = (j + scale - shift) / 2;
    let r = float_root_digits::root_by_digits(m << shift);
    let more = u64::from(r.rem != 0);
    Parts {
        q: float_widths::round_shift(r.root * 2 + more, dropped + 1),
        k: half + dropped,
    }
}

// The root of m * 2^j smallest values.
fn root_of<W: Width>(m: u64, j: u32) -> W
    requires { (0 < m) × (m < 2 ^ 63) × (j < 4096) }
    ensures { W.float result ≡ round_root W.format (m * 2 ^ j * 2 ^ low W.format) }
{
    let (digits, lowest) = (W::DIGITS, W::LOWEST);
    // Origin: `root_parts` finds 55 digits, and puts 46 zeros behind its number
    let p = root_parts(m, j, lowest - 46, 55 - digits);
    float_widths::assemble(false, p.q, p.k)
}

// The square root of any x, to the nearest value, by whole numbers alone.
fn sqrt_by_digits<W: Width>(x: W) -> W
    ensures { W.float result ≡ sqrt_of W.format (W.float x) }
{
    let Some(b) = x.pattern() else { return x + x };
    let (sign, weight, highest) = (W::SIGN, W::FIELD, W::HIGHEST);
    let e = b % sign / weight;
    let t = b % weight;
    if b % sign == 0 {
        return x; // each zero is its own root
    }
    if b >= sign {
        return W::zero() / W::zero();
    }
    if e == highest {
        return x;
    }
    if e == 0 {
        root_of(t, 0)
    } else {
        root_of(t + weight, (e - 1) as u32)
    }
}

// The root of x by a guess at it, whose digits are tested in whole numbers. Where they are not the root's, and where x has no such digits (NaNs, zeros, infinities, values that are subnormal or below zero), the root is found digit by digit.
// Nothing is asked of the guess, and nothing rests on it: a bad one costs time and no bit.
// It is made where it is tested, and not before: of a subnormal value the processor's root takes half as long again as the digits.
fn root_near<W: Width, F: Fn(W) -> W>(x: W, guessed: F) -> W
    requires { F.IsAlwaysCallable guessed }
    ensures { W.float result ≡ sqrt_of W.format (W.float x) }
{
    let Some(b) = x.pattern() else {
        return sqrt_by_digits(x)
    };
    let (weight, highest) = (W::FIELD, W::HIGHEST);
    let e = b / weight;
    if (e == 0) || (e >= highest) {
        return sqrt_by_digits(x);
    }
    let guess = guessed(x);
    let Some(g) = guess.pattern() else {
        return sqrt_by_digits(x)
    };
    // Origin of 1 and 2: the highest field is 2 * emax + 1 (IEEE 754-2019, table 3.5)
    let emax = (highest - 1) / 2;
    // the root's exponent is half of x's, e - emax, where `even_digits` has left an even one: so its field is k + 1
    let k = (e + (emax - 2)) / 2;
    let q = g % weight + weight;
    if (g / weight == k + 1)
        && float_root_digits::is_root::<W>(float_root_digits::even_digits::<W>(b), q)
    {
        return guess;
    }
    sqrt_by_digits(x)
}

// The square root of x, to the nearest f64. The guess is the processor's root.
pub fn sqrt64(x: f64) -> f64
    ensures { result ≡ sqrt_of binary64 x }
{
    root_near(x, |x| x.sqrt())
}

// The square root of x, to the nearest f32.
pub fn sqrt32(x: f32) -> f32
    ensures { result ≡ sqrt_of binary32 x }
{
    root_near(x, |x| x.sqrt())
}
