// Why a call is refused: document 01, "Returned numbers". A call answers `Err` of one of these; to programs in other languages its number is returned, and 0 where the call is accepted.
#![tactic(auto)]

ghost use Rattle.std.specs.Prelude.{◌≡◌};
ghost use Rattle.refusals.specs.Refusals.{number_of, number_in};

use std::error::Error;
use std::fmt;

// The refusals in the order of their numbers, which are document 01's.
#[derive(Clone, Copy, Debug, PartialEq, Eq)]
pub enum Refusal {
    NotTriples = 1,
    TooManyPositions = 2,
    NoSuchCount = 3,
    TooManyTriplets = 4,
    NoSuchSource = 5,
    Full = 6,
    NoneStands = 7,
    BlockLength = 8,
    SampleLength = 9,
    OutputLength = 10,
    Malformed = 11,
}

impl Refusal {
    // The number that document 01 gives it.
    pub fn number(self) -> u32
        ensures { result ≡ number_of self }
    {
        self as u32
    }
}

// The number that a call returns by its answer: 0 where it is accepted.
pub fn number_in<T>(answer: &Result<T, Refusal>) -> u32
    ensures { result ≡ number_in answer.now }
{
    match answer {
        Ok(_) => 0,
        Err(why) => why.number(),
    }
}

impl fmt::Display for Refusal {
    fn fmt<W: fmt::Write>(&self, f: &mut fmt::Formatter<W>) -> fmt::Result {
        f.write_str(match *self {
            Refusal::NotTriples => "position numbers not a multiple of 3",
            Refusal::TooManyPositions => "more than 40 positions",
            Refusal::NoSuchCount => "sources not 1 to 8",
            Refusal::TooManyTriplets => {
                "a triplet list built on the way has more than 80 entries"
            }
            Refusal::NoSuchSource => "source number not below the count of sources",
            Refusal::Full => "16 directions already stand",
            Refusal::NoneStands => "none stands",
            Refusal::BlockLength => "block length is 0 or above 1,024",
            Refusal::SampleLength => "sample buffer is not sources x block length long",
            Refusal::OutputLength => "output buffer is not outputs x block length long",
            Refusal::Malformed => "malformed",
        })
    }
}

impl Error for Refusal {}
