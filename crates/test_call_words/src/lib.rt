// What the lines of a list of calls are made of: draws that stand for samples, and sums that stand for many words. docs/CASES.md, "Lists of calls".
#![tactic(auto)]

pub mod draws;
pub mod sums;
