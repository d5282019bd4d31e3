// The sums of docs/CASES.md, "Lists of calls": words of 32 bits as the digits of a number, modulo a prime.
use layout_planar::{Law, PlanarPair};
use layout_record::VbapPanner;
use std::fmt;
use test_lines::values::{Pattern, Value};

// Origin: the least prime above 2^32, so that no two words are alike; the factor is that of rand in ISO C.
const MODULUS: u64 = 4294967311;

const FACTOR: u64 = 1103515245;

// The word of a NaN. Origin: docs/CASES.md; no other float has it.
const NAN: u64 = 0x7fc0_0000;

// A float as a word.
pub fn word_of(v: Value) -> u64 {
    match v {
        Value::Bits(b) => b,
        Value::Nan => NAN,
    }
}

// What counts as words of 32 bits.
pub trait Summed {
    fn add_to(&self, sum: &mut Sum);
}

// The sum of the words so far.
#[derive(Clone, Copy, PartialEq, Eq)]
pub struct Sum {
    pub value: u64,
}

impl Sum {
    // The sum of no words. Origin: docs/CASES.md.
    pub fn start() -> Sum {
        Sum { value: 1 }
    }

    // One word more.
    pub fn word(&mut self, word: u64) {
        self.value = ((self.value % MODULUS) * FACTOR + word % 0x1_0000_0000) % MODULUS;
    }

    pub fn add<T: Summed>(&mut self, x: &T) {
        x.add_to(self);
    }

    pub fn all<T: Summed>(&mut self, xs: &[T]) {
        for x in xs {
            x.add_to(self);
        }
    }
}

impl Summed for u8 {
    fn add_to(&self, sum: &mut Sum) {
        sum.word(u64::from(*self));
    }
}

impl Summed for f32 {
    fn add_to(&self, sum: &mut Sum) {
        sum.word(word_of(self.pattern()));
    }
}

impl fmt::Display for Sum {
    fn fmt<W: fmt::Write>(&self, f: &mut fmt::Formatter<W>) -> fmt::Result {
        let value = self.value;
        write!(f, "{value:x}")
    }
}

// ---- a layout's record

// Its four numbers behind a 1; the crossfade is five zeros.
impl Summed for Law {
    fn add_to(&self, sum: &mut Sum) {
        match *self {
            Law::Inverse(a, b, c, d) => {
                sum.word(1);
                sum.all(&[a, b, c, d]);
            }
            Law::Crossfade => sum.all(&[0u8; 5]),
        }
    }
}

impl Summed for PlanarPair {
    fn add_to(&self, sum: &mut Sum) {
        sum.add(&self.start);
        sum.add(&self.gap);
        sum.add(&self.a);
        sum.add(&self.b);
        sum.add(&self.law);
    }
}

// Every field of a record, in the record's order, used or not.
impl Summed for VbapPanner {
    fn add_to(&self, sum: &mut Sum) {
        sum.add(&self.num_outputs);
        sum.add(&(self.kind as u8));
        sum.add(&self.mono);
        sum.add(&self.num_pairs);
        sum.all(&self.pairs);
        sum.add(&self.num_slots);
        sum.all(&self.slots);
        sum.add(&self.num_real);
        sum.all(&self.pt_out);
        sum.all(&self.pt_dir);
        sum.add(&self.num_tris);
        sum.all(&self.idx);
        sum.all(&self.inv);
        sum.add(&self.num_imag);
        sum.all(&self.num_nbrs);
        sum.all(&self.imag_nbrs);
    }
}

// The sum of a record.
pub fn record_sum(p: &VbapPanner) -> Sum {
    let mut sum = Sum::start();
    sum.add(p);
    sum
}
