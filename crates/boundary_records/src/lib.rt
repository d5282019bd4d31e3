// A record and a session as two arrays each, one of bytes and one of floats: written to them and read from them; and the calls on them for several directions.
#![tactic(auto)]

pub mod copies;
pub mod directions;
pub mod record;
pub mod sessions;
