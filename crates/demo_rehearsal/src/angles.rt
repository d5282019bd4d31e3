// Angles: degrees for the reader, radians for the panner.
use crate::decimals::Decimal;
use std::fmt;

// Origin: the 64-bit float nearest pi, document 01, "Number work".
const PI64: f64 = 3.141592653589793;

// Origin: degrees in half a turn, which is pi radians.
const HALF_TURN: f64 = 180.0;

// A direction in degrees.
#[derive(Clone, Copy)]
pub struct Direction {
    pub azimuth: f32,
    pub elevation: f32,
}

impl Direction {
    pub fn of(azimuth: f32, elevation: f32) -> Direction {
        Direction { azimuth, elevation }
    }

    // The azimuth and the elevation in radians, as a call takes them.
    pub fn radians(self) -> (f32, f32) {
        (radians(self.azimuth), radians(self.elevation))
    }
}

// In degrees and in radians: four columns of a table.
impl fmt::Display for Direction {
    fn fmt<W: fmt::Write>(&self, f: &mut fmt::Formatter<W>) -> fmt::Result {
        let (az, el) = self.radians();
        write!(
            f,
            "{:9.2}{:11.2}{:14.6}{:11.6}",
            Decimal(self.azimuth),
            Decimal(self.elevation),
            Decimal(az),
            Decimal(el)
        )
    }
}

fn radians(degrees: f32) -> f32 {
    float_widths::narrow(float_widths::widen(degrees) * PI64 / HALF_TURN)
}

fn degrees(radians: f64) -> f32 {
    float_widths::narrow(radians * HALF_TURN / PI64)
}

// Azimuth of a direction, from the front to the right, -180 to 180; 0 straight up and down, where none is defined.
pub fn azimuth(x: f32, z: f32) -> f32 {
    if (x == 0.0) & (z == 0.0) {
        return 0.0;
    }
    degrees(float_arctangent::atan2(float_widths::widen(x), -float_widths::widen(z)))
}

// Elevation of a direction, upwards from the horizon.
pub fn elevation(x: f32, y: f32, z: f32) -> f32 {
    let right = float_widths::widen(x);
    let back = float_widths::widen(z);
    let level = float_root::sqrt64(right * right + back * back);
    degrees(float_arctangent::atan2(float_widths::widen(y), level))
}
