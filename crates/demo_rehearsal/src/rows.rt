// Rows of gains at named directions.
use crate::angles::Direction;
use crate::decimals::Decimal;
use layout_record::VbapPanner;
use std::io;

// Gains on a line. Origin: four of 13 bytes behind the margin.
const GAINS_A_LINE: usize = 4;

// Where the gains start. Origin: the widths of the columns before them, 22 + 9 + 11 + 14 + 11 + 12.
const MARGIN: usize = 79;

// The gains that are not 0, each behind its slot, to the end of the line: so many on one, and the next behind the margin.
pub fn gains_of(rt: &impl Print, row: &[f32], margin: usize) -> io::Result<()> {
    let gains = row.iter().enumerate().filter(|(_, gain)| **gain != 0.0);
    for (shown, (slot, gain)) in gains.enumerate() {
        if shown > 0 && shown % GAINS_A_LINE == 0 {
            print!(rt; "\n{:margin$}", "")?;
        }
        let gain = Decimal(*gain);
        print!(rt; "{slot:4}{gain:9.6}")?;
    }
    println!(rt; "")
}

// The sum of the squares, in 64 bits.
fn power(row: &[f32]) -> f32 {
    let mut sum = 0.0;
    for gain in row {
        let g = float_widths::widen(*gain);
        sum += g * g;
    }
    float_widths::narrow(sum)
}

fn show(rt: &impl Print, p: &VbapPanner, name: &str, direction: Direction) -> io::Result<()> {
    let (az, el) = direction.radians();
    let mut row = [0.0; 40];
    // a row of a malformed record stays 0 throughout
    let _ = row_gains::gains(p, az, el, &mut row);
    let squares = Decimal(power(&row));
    print!(rt; "{name:22}{direction}{squares:12.6}")?;
    gains_of(rt, &row, MARGIN)
}

pub fn table(rt: &impl Print, p: &VbapPanner) -> io::Result<()> {
    println!(rt;
        "{:22}{:>9}{:>11}{:>14}{:>11}{:>12}  slot gain ..",
        "direction", "azimuth", "elevation", "in radians", "in radians", "squares"
    )?;
    let asked = [
        ("front", 0.0, 0.0),
        ("right", 90.0, 0.0),
        ("behind", 180.0, 0.0),
        ("left", -90.0, 0.0),
        ("zenith", 0.0, 90.0),
        ("between two speakers", 15.0, 0.0),
        ("a turn further", 375.0, 0.0),
        ("on the second ring", 22.5, 30.0),
        ("between three", 20.0, 15.0),
        ("high on the left", -45.0, 45.0),
        ("over the zenith", 0.0, 100.0),
        ("below the horizon", 0.0, -30.0),
        ("nadir", 0.0, -90.0),
        ("azimuth not a number", 0.0 / 0.0, 0.0),
    ];
    for (name, azimuth, elevation) in asked {
        show(rt, p, name, Direction::of(azimuth, elevation))?;
    }
    Ok(())
}
