// Floats in decimal text.
use demo_decimal::Size;
use std::fmt;
use std::fmt::InlineText;

// The most digits after the point. Origin: crate demo_decimal.
const MOST_PLACES: usize = 6;

// Bytes of a float without its sign. Origin: 8 digits of a number below 2^24, the point and MOST_PLACES are 15; any number from there on serves.
const LONGEST: usize = 24;

// A float as `{:9.2}` asks: with 2 digits after the point, at the right of 9 places.
#[derive(Clone, Copy, Drop)]
pub struct Decimal(pub f32);

impl fmt::Display for Decimal {
    fn fmt<W: fmt::Write>(&self, f: &mut fmt::Formatter<W>) -> fmt::Result {
        let x = self.0;
        // at least 1, so that no text ends in a point or shows a digit that was not asked
        let places = f.precision().unwrap_or(MOST_PLACES).max(1).min(MOST_PLACES);
        match demo_decimal::decimal(x, places as u32) {
            Size::Steps(n) => {
                let one = 10u64.pow(places as u32);
                let whole = n / one;
                let part = n % one;
                let text = InlineText::<LONGEST>::of(format_args!("{whole}.{part:0places$}"));
                f.pad_integral(!float_order::sign_bit(x), "", text.as_str())
            }
            Size::Large => f.pad_integral(true, "", "large"),
            Size::Nan => f.pad_integral(true, "", "nan"),
        }
    }
}
