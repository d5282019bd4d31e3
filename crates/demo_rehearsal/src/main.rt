// A first look at the panner: the layout of a dome, its gains at named directions, and a rehearsal of two sources, printed.
#![tactic(auto)]

mod angles;
mod calls;
mod decimals;
mod dome;
mod report;
mod rows;
mod scene;
mod words;

use std::{fmt, io};

// Standard output, where each piece of the text is tried, whatever became of those before it.
#[derive(Clone, Copy)]
struct Tried<P>(P);

impl<P: Print> Print for Tried<P> {
    fn print<D: fmt::Display + Drop>(&self, value: D) -> io::Result<()> {
        let _ = self.0.print(value);
        Ok(())
    }

    fn println<D: fmt::Display + Drop>(&self, value: D) -> io::Result<()> {
        let _ = self.0.println(value);
        Ok(())
    }

    fn write_all(&self, bytes: &[u8]) -> io::Result<()> {
        let _ = self.0.write_all(bytes);
        Ok(())
    }
}

fn tell(rt: &impl Print) -> io::Result<()> {
    println!(rt; "A dome of 24 loudspeakers with an LFE, panned by the proved code.")?;
    println!(rt; "Azimuth 0 is the front, 90 the right; elevation 90 is the zenith.")?;
    println!(rt; "Angles are shown in degrees and, as the calls take them, in radians.")?;
    println!(rt; "Degrees have 2 digits after the point; radians, gains and samples have 6.")?;
    println!(rt; "Each is rounded once, to the nearest, a tie to the even one.")?;
    println!(rt; "A gain shown as 0.000000 is not 0, but at most half a millionth.\n")?;
    println!(rt; "1. The layout\n")?;
    let made = dome::new();
    report::layout(rt, &made)?;
    println!(rt; "\n2. Rows: the gains that are not 0, and the sum of their squares\n")?;
    if let Ok(made) = &made {
        rows::table(rt, &made.panner)?;
    }
    println!(rt;
        "\n3. A rehearsal of two sources: the first plays 1 throughout, the second 0.5\n"
    )?;
    scene::rehearse(rt)
}

// Where a write fails the text goes on, and the status stays 0.
fn main(rt: HostRuntime) {
    let _ = tell(&Tried(&rt));
}
