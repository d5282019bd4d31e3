// The remainder of two finite values, by whole-number work on their patterns: exact, as IEEE 754 floats' `%` is.
#![tactic(auto)]

ghost use Rattle.std.specs.Prelude.{◌≡◌, ◌+◌, ◌-◌, ◌*◌, ◌/◌, ◌%◌, ◌^◌, ◌<◌, ◌≤◌};
ghost use Rattle.float_remainder.specs.Patterns.{units_of};

// The weight of the exponent's field in a pattern: 2 ^ 23 of an f32, 2 ^ 52 of an f64 (IEEE 754-2019, 3.4). A pattern without its sign is k * weight + r.
#[derive(Clone, Copy)]
pub struct Field {
    pub weight: u64,
    pub ghost some: { 0 < weight },
    pub ghost few: { weight ≤ 2 ^ 52 },
}

impl Field {
    // The digits of b: with the leading one, where the exponent's field is not 0.
    fn digits(self, b: u64) -> u64
        ensures units { units_of self.weight b ≡ result * 2 ^ (b / self.weight - 1) }
        ensures few { result < 2 * self.weight }
        ensures above { 0 < b → 0 < result }
        ensures leading { 2 ≤ b / self.weight → self.weight ≤ result }
        ensures least { b / self.weight < 1 → result ≡ b }
    {
        let w = self.weight;
        if b < w { b } else { b % w + w }
    }

    // The power of two by which the digits of b are scaled.
    fn scale(self, b: u64) -> u64
        ensures { result ≡ b / self.weight - 1 }
    {
        (b / self.weight).saturating_sub(1)
    }

    // The pattern of r * 2 ^ k.
    fn encoded(self, r: u64, k: u64) -> u64
        requires digits { r < 2 * self.weight }
        requires field { k < 2 ^ 11 }
        ensures units { units_of self.weight result ≡ r * 2 ^ k }
        ensures range { result ≤ k * self.weight + r }
    {
        let w = self.weight;
        if r == 0 {
            return 0;
        }
        let mut d = r;
        let mut e = k;
        // no index is counted: it ends where the leading digit is reached, or no power is left
        while d < w && e > 0 {
            d = d * 2;
            e = e - 1;
        }
        e * w + d
    }

    // The pattern of the remainder of two finite values above or at zero, by their patterns a and b.
    pub fn rem_patterns(self, a: u64, b: u64) -> u64
        requires divisor { 0 < b }
        requires fields { (a / self.weight < 2 ^ 11) × (b / self.weight < 2 ^ 11) }
        ensures units { units_of self.weight result ≡ units_of self.weight a % units_of self.weight b }
        ensures range { result < (b / self.weight + 1) * self.weight }
    {
        let m = self.digits(a);
        let n = self.digits(b);
        let j = self.scale(a);
        let k = self.scale(b);
        if j < k {
            return a;
        }
        let r = scaled_rem(m, n, j - k);
        self.encoded(r, k)
    }
}

// The remainder of m * 2 ^ t by n, one doubling after the other.
fn scaled_rem(m: u64, n: u64, t: u64) -> u64
    requires { (0 < n) × (n < 2 ^ 53) }
    ensures value { result ≡ (m * 2 ^ t) % n }
    ensures less { result < n }
{
    let mut r = m % n;
    for i in 0..t {
        r = r * 2 % n;
    }
    r
}
