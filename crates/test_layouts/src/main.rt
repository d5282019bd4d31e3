// Replays a list of layouts from standard input: makes each with `layout_new::new`, and compares every field bit by bit.
// It writes the first five lines that differ or are malformed, how many cases there were, and how many differed.
#![tactic(auto)]

mod fields;

use fields::check_made;
use test_lines::lines::{Case, List, Told};
use test_lines::report::{Difference, write_cases};

// How a line differs: the name of the first field that does.
fn replayed(case: Case<'_>) -> Result<(), Difference<&'static str>> {
    let mut words = case.words()?;
    if words.name()? != b"new".as_slice() {
        return Err(Difference::Malformed);
    }
    let mut positions = [0.0f32; 256];
    let mut lfe = [0usize; 64];
    let positions = words.list(&mut positions)?;
    let lfe = words.list(&mut lfe)?;
    let made = layout_new::new(positions, lfe);
    check_made(&mut words, made)?;
    words.end()?;
    Ok(())
}

fn main(rt: HostRuntime) {
    let mut cases: u64 = 0;
    let mut list = List::of(rt.reader());
    let differences = list.replay(&rt, Told::Nothing, |case| {
        cases = cases.wrapping_add(1);
        replayed(case)
    });
    write_cases(&rt, cases, differences);
}
