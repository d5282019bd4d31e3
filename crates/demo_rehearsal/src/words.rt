// What an answer and a kind of layout say.
use layout_record::Kind;
use refusals::{Refusal, number_in};
use std::io;

// An answer's number and what it says, to the end of the line.
pub fn answer<T>(rt: &impl Print, a: &Result<T, Refusal>) -> io::Result<()> {
    let number = number_in(a);
    match a {
        Ok(_) => println!(rt; "{number:2}  accepted"),
        Err(why) => println!(rt; "{number:2}  refused: {why}"),
    }
}

pub fn kind(k: Kind) -> &'static str {
    match k {
        Kind::Silent => "silent: no active speaker",
        Kind::Mono => "mono: one active speaker",
        Kind::Planar => "planar: all active speakers near the horizon, panned between pairs",
        Kind::Hull => "hull: active speakers above or below the horizon, panned between triplets",
    }
}
