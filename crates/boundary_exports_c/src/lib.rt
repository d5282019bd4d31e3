// The functions of crate `boundary_exports` as a static library for programs in other languages: one export for each, with its clauses stated again, since a library exports nothing to C.
// docs/EMBEDDING.md says how they are called, and crate `boundary_exports` what the promises leave to the program.
#![tactic(auto)]

mod layouts;
mod numbers;
mod ramps;
mod sessions;
