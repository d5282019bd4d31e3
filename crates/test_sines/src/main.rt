// Replays the cases of the stand-ins: sine and cosine, each and together, arctangent and atan2.
// A program for each stored list, so a main for each.
#![tactic(auto)]

fn main(rt: HostRuntime) {
    test_floats::replay(&rt);
}
