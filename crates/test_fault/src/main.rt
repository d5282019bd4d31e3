// Replays a list with one wrong expectation and one malformed line, which both have to be found.
// A program for each stored list, so a main for each.
#![tactic(auto)]

fn main(rt: HostRuntime) {
    test_floats::replay(&rt);
}
