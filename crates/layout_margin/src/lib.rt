// When a face can be ruled out without a square root: a point far enough over a plane, by the normal before it is scaled to length 1, is over it by the scaled normal too. Laws that other crates cite; it has no code.
#![tactic(auto)]
