// A float in decimal text: the nearest number with so many digits after the point, a tie to the even one.
// Origin of 6, the most digits after the point: what the printed rehearsal shows of an angle and of a gain, steps of a millionth. A number below 2^24 is then below 2^44 steps.
#![tactic(auto)]

ghost use Rattle.std.specs.Prelude.{◌≡◌, ◌≤◌, ◌<◌};
ghost use Rattle.demo_decimal.specs.Decimal.{decimal_of};

// A float's size in steps of one unit of the last digit.
#[derive(Clone, Copy)]
pub enum Size {
    Steps(u64),
    // 2^24 or above, an infinity too
    Large,
    Nan,
}

// The greatest exponent's field of a number below 2^24. Origin: a field of 151 is 2^24, since a field of 127 is 1.
const BELOW_LARGE: u32 = 150;

// The size of x in steps of 10^-places.
pub fn decimal(x: f32, places: u32) -> Size
    requires { places ≤ 6 }
    ensures { result ≡ decimal_of places x }
{
    if x.is_nan() {
        return Size::Nan;
    }
    let b = x.to_bits();
    // Origin: IEEE 754-2019, table 3.5: the exponent's field, of weight 2^23, and the digits of a binary32
    let e = b % 0x8000_0000 / 0x80_0000;
    let t = u64::from(b % 0x80_0000);
    if e > BELOW_LARGE {
        return Size::Large;
    }
    let power = 10u64.pow(places);
    Size::Steps(if e == 0 {
        // Origin: t * 2^-149
        float_widths::round_shift(t * power, 149)
    } else {
        // with its leading digit, 2^23. Origin: (t + 2^23) * 2^(e - 150)
        float_widths::round_shift((t + 0x80_0000) * power, 150 - e)
    })
}
