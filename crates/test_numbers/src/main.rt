// Replays the cases of the number work: widths, roots, order, signs and remainder.
// A program for each stored list, so a main for each.
#![tactic(auto)]

fn main(rt: HostRuntime) {
    test_floats::replay(&rt);
}
