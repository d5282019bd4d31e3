// The words of a line that give a record, or floats by their places. docs/CASES.md, "Layouts" and "Rows".
#![tactic(auto)]

pub mod places;
pub mod record;
