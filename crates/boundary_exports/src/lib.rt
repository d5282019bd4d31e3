// The panner's functions for programs in other languages: numbers and arrays alone cross. docs/EMBEDDING.md says how they are called; crate boundary_exports_c exports each under its name.
// A record and a session are two lent arrays each, one of bytes and one of floats. Beside a refusal every lent place keeps its bits.
//
// Where a float is computed and the result is a NaN, its sign and payload are the program's choice; what every choice has in common
// is that it is a NaN, and a quiet one (the driver looks for that). A definition has one NaN, so the promises say no more of it.
// Where a float only travels, it keeps its bits. Each promise below says which of the two holds.
#![tactic(auto)]

pub mod layouts;
pub mod numbers;
pub mod ramps;
pub mod sessions;
