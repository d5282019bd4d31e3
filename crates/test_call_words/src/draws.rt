// The samples of a render, and what its output buffer holds before it: draws of a small generator from the seed of a line. docs/CASES.md, "Lists of calls".
use test_lines::values::Pattern;

// Origin: Park, Miller and Stockmeyer, "Another test for randomness", 1993; the modulus is 2^31 - 1.
const FACTOR: u64 = 48271;

const MODULUS: u64 = 2147483647;

// Zeros, ones, an infinity, a NaN, the least and the greatest float.
const SPECIAL: [u64; 8] = [
    0,
    0x8000_0000,
    0x3f80_0000,
    0xbf80_0000,
    0x7f80_0000,
    0x7fc0_0000,
    1,
    0x7f7f_ffff,
];

// Which floats the draws stand for.
#[derive(Clone, Copy)]
enum Manner {
    // of any bits
    Any,
    // from 1/4 up to 1, of either sign
    Ordinary,
    // of SPECIAL
    Special,
}

// By what the seed leaves when divided by 3. Origin: docs/CASES.md.
const MANNERS: [Manner; 3] = [Manner::Any, Manner::Ordinary, Manner::Special];

// The draws from a seed.
#[derive(Clone, Copy)]
pub struct Draws {
    // the draw before the next one
    last: u64,
    manner: Manner,
}

impl Draws {
    pub fn from_seed(seed: u64) -> Draws {
        Draws {
            last: seed,
            manner: MANNERS[(seed % 3) as usize],
        }
    }

    // The bits of the float that the next draw stands for.
    fn next_bits(&mut self) -> u64 {
        let x = (self.last % MODULUS) * FACTOR % MODULUS;
        self.last = x;
        match self.manner {
            Manner::Any => x % 0x8000_0000 * 2 + x / 0x1_0000 % 2,
            // Origin of the bits: 3e800000 is 1/4, and 2^24 patterns on is 1.
            Manner::Ordinary => 0x3e80_0000 + x % 0x100_0000 + x / 0x100_0000 % 2 * 0x8000_0000,
            Manner::Special => SPECIAL[(x % 8) as usize],
        }
    }

    // Fills a buffer with the floats of the next draws.
    pub fn fill(&mut self, to: &mut [f32]) {
        for x in to {
            *x = f32::of_bits(self.next_bits());
        }
    }
}
