// A record in two arrays of the caller: written to them and read from them. The kind is a number there, and so is the law of each pair.
//
// Its bytes: the head, the pairs' bytes, the slots, the points' slots, the triplets' point numbers, the counts of neighbours, the neighbours.
// Its floats: the pairs' numbers, the points' directions, the triplets' inverses.
// Each part begins where the one before ends; specs/Places.antt has the same numbers.
ghost use Rattle.std.specs.Prelude.{◌≡◌, min, cond, List, ◌++◌, map, ◌≤◌, ◌<◌, length, drop};
ghost use Rattle.lists.specs.Lists.{range, filled};
ghost use Rattle.layout_planar.specs.declared.PlanarPair.{PlanarPair};
ghost use Rattle.boundary_records.specs.Places.{most_outputs, most_imaginary, head_places, pair_byte_places, slots_at, out_at, idx_at, idx_places, counts_of_nbrs_at, nbrs_at, nbr_places, record_byte_places, pair_float_places, dir_places, inv_at, inv_places, record_float_places};
ghost use Rattle.boundary_records.specs.Records.{kind_number, head_of, law_numbers, law_number, numbers_of, bytes_of, record_bytes, record_floats, kind_from, law_from, pair_from, known, no_record, record_from};

use crate::copies::{put, section};
use layout_planar::{Law, PlanarPair};
use layout_record::{Kind, VbapPanner};
use mix_block::ROW;
use std::array;
use vector::{MAX_IMAGINARY, MOST_TRIPLETS};

// Outputs, and no more pairs, slots, real points and neighbours of one: 40. Origin: a place of a row for each output.
const OUTPUTS: usize = ROW;

// ---- bytes: how many of each part, and where it begins

// Outputs, kind, mono slot, and the counts of pairs, slots, real points, triplets and imaginary points.
const HEAD: usize = 8;

// Both slots and the law of each pair.
const PAIR_BYTES: usize = OUTPUTS * 3;

const SLOTS_AT: usize = HEAD + PAIR_BYTES;

const OUT_AT: usize = SLOTS_AT + OUTPUTS;

const IDX_AT: usize = OUT_AT + OUTPUTS;

// Three point numbers of each triplet.
const IDX: usize = MOST_TRIPLETS * 3;

const NUM_NBRS_AT: usize = IDX_AT + IDX;

const NBRS_AT: usize = NUM_NBRS_AT + MAX_IMAGINARY;

// A list of neighbours for each imaginary point.
const NBRS: usize = MAX_IMAGINARY * OUTPUTS;

// A record's bytes, 1,022.
pub const BYTES: usize = NBRS_AT + NBRS;

// ---- floats

// Start, gap and the law's four numbers of each pair.
const PAIR_FLOATS: usize = OUTPUTS * 6;

// The direction of each real point.
const DIR: usize = OUTPUTS * 3;

const INV_AT: usize = PAIR_FLOATS + DIR;

// The nine entries of each triplet's inverse, entry after entry.
const INV: usize = 9 * MOST_TRIPLETS;

// A record's floats, 1,080.
pub const FLOATS: usize = INV_AT + INV;

pub type RecordBytes = [u8; BYTES];

pub type RecordFloats = [f32; FLOATS];

// The outputs of arrays with an unknown kind or law: too many, so that every call refuses them with 11. Origin: the greatest byte.
const NO_RECORD: u8 = 255;

// The numbers of kinds, and of laws, are below these. Origin: `Kind` and `Law` have so many.
const KINDS: u8 = 4;

const LAWS: u8 = 2;

// ---- written to the arrays

// Silent, mono, planar, hull. Not by `From` and `TryFrom`, here and below: the numbers are the C interface's, and the types other crates'.
fn kind_number(kind: Kind) -> u8
    ensures { result ≡ kind_number kind }
{
    kind as u8
}

// Outputs, the kind, the mono slot, and the counts of pairs, slots, real points, triplets and imaginary points.
#[tactic(auto, unfolding(crate::specs::Records::head_of))]
fn head_of(p: &VbapPanner) -> [u8; HEAD]
    ensures { result ≡ head_of p.now }
{
    [
        p.num_outputs,
        kind_number(p.kind),
        p.mono,
        p.num_pairs,
        p.num_slots,
        p.num_real,
        p.num_tris,
        p.num_imag,
    ]
}

// A law's four numbers, +0 for the crossfade.
#[tactic(auto, unfolding(crate::specs::Records::law_numbers, std::specs::Prelude::from_bits))]
fn law_numbers(law: Law) -> [f32; 4]
    ensures { result ≡ law_numbers law }
{
    match law {
        Law::Inverse(m0, m1, m2, m3) => [m0, m1, m2, m3],
        Law::Crossfade => [0.0, 0.0, 0.0, 0.0],
    }
}

// 1 for the inverse and 0 for the crossfade.
fn law_number(law: Law) -> u8
    ensures { result ≡ law_number law }
{
    match law {
        Law::Inverse(_, _, _, _) => 1,
        Law::Crossfade => 0,
    }
}

// Start, gap and the law's numbers.
#[tactic(auto, unfolding(crate::specs::Records::numbers_of))]
fn numbers_of(p: PlanarPair) -> [f32; 6]
    ensures { result ≡ numbers_of p }
{
    let [m0, m1, m2, m3] = law_numbers(p.law);
    [p.start, p.gap, m0, m1, m2, m3]
}

// Both slots and the law's number.
#[tactic(auto, unfolding(crate::specs::Records::bytes_of))]
fn bytes_of(p: PlanarPair) -> [u8; 3]
    ensures { result ≡ bytes_of p }
{
    [p.a, p.b, law_number(p.law)]
}

// The entries of each pair, in the first places, and blanks behind them.
fn laid<E: Copy, F: Fn(PlanarPair) -> E>(pairs: &[PlanarPair], blank: E, entries: F) -> [E; OUTPUTS]
    requires fits { length pairs.now ≤ most_outputs }
    requires callable { F.IsAlwaysCallable entries }
    // whatever g says of a pair's entries
    ensures { (g : PlanarPair → E) → ((p : PlanarPair) (y : E) → F.post entries p y → y ≡ g p) → result ≡ filled most_outputs blank (map g pairs.now) }
{
    let mut to = [blank; OUTPUTS];
    for (i, p) in pairs.iter().enumerate() {
        to[i] = entries(*p);
    }
    to
}

// How many pairs are in use. A record made by hand may count more than there are.
fn used(p: &VbapPanner) -> usize
    ensures count { result ≡ min p.now.num_pairs most_outputs }
    ensures long { length p.now.pairs ≡ most_outputs }
{
    let pairs: &[PlanarPair] = &p.pairs;
    usize::from(p.num_pairs).min(pairs.len())
}

// The record's bytes, part after part.
fn put_bytes(p: &VbapPanner, to: &mut [u8])
    requires { record_byte_places ≤ length to.old }
    ensures to_after { to.new ≡ record_bytes p.now ++ drop record_byte_places to.old }
    ensures long { length (record_bytes p.now) ≡ record_byte_places }
{
    put(&head_of(p), to, 0);
    let pairs = laid(&p.pairs[..used(p)], [0; 3], bytes_of);
    put(pairs.as_flattened(), to, HEAD);
    put(&p.slots, to, SLOTS_AT);
    put(&p.pt_out, to, OUT_AT);
    put(&p.idx, to, IDX_AT);
    put(&p.num_nbrs, to, NUM_NBRS_AT);
    put(&p.imag_nbrs, to, NBRS_AT);
}

// And its floats. Bytes and floats are two arrays, as the C interface lends them.
fn put_floats(p: &VbapPanner, to: &mut [f32])
    requires { record_float_places ≤ length to.old }
    ensures to_after { to.new ≡ record_floats p.now ++ drop record_float_places to.old }
    ensures long { length (record_floats p.now) ≡ record_float_places }
{
    let pairs = laid(&p.pairs[..used(p)], [0.0; 6], numbers_of);
    put(pairs.as_flattened(), to, 0);
    put(&p.pt_dir, to, PAIR_FLOATS);
    put(&p.inv, to, INV_AT);
}

// The record into the first places of the arrays; the places behind it stay.
pub fn hand_out(p: &VbapPanner, bytes: &mut [u8], floats: &mut [f32])
    requires { (record_byte_places ≤ length bytes.old) × (record_float_places ≤ length floats.old) }
    ensures bytes { bytes.new ≡ record_bytes p.now ++ drop record_byte_places bytes.old }
    ensures floats { floats.new ≡ record_floats p.now ++ drop record_float_places floats.old }
    ensures long { (length (record_bytes p.now) ≡ record_byte_places) × (length (record_floats p.now) ≡ record_float_places) }
{
    put_bytes(p, bytes);
    put_floats(p, floats);
}

// ---- read from the arrays

// Silent, mono, planar, hull.
#[tactic(auto, unfolding(crate::specs::Records::kind_from))]
fn kind_from(n: u8) -> Kind
    ensures { result ≡ kind_from n }
{
    match n {
        0 => Kind::Silent,
        1 => Kind::Mono,
        2 => Kind::Planar,
        _ => Kind::Hull,
    }
}

// The inverse for 1, and else the crossfade.
#[tactic(auto, unfolding(crate::specs::Records::law_from))]
fn law_from(n: u8, m0: f32, m1: f32, m2: f32, m3: f32) -> Law
    ensures { result ≡ law_from n m0 m1 m2 m3 }
{
    match n {
        1 => Law::Inverse(m0, m1, m2, m3),
        _ => Law::Crossfade,
    }
}

// Whether the kind is one of four, and the law of each pair, used or not, one of two.
fn known(kind: u8, bytes: &[u8; PAIR_BYTES]) -> bool
    ensures { result ≡ known kind bytes.now }
{
    kind < KINDS && bytes.chunks_exact(3).all(|pair| pair[2] < LAWS)
}

// The outputs, where kind and laws are known. A number and no Option: `taken_in` promises a record for any arrays.
fn outputs_from(is_known: bool, n: u8) -> u8
    ensures { result ≡ cond is_known n no_record }
{
    if is_known { n } else { NO_RECORD }
}

// Pair i: six numbers, start, gap and the law's, and three bytes, both slots and the law.
#[tactic(auto, unfolding(crate::specs::Records::pair_from))]
fn pair_from(numbers: &[f32; PAIR_FLOATS], bytes: &[u8; PAIR_BYTES], i: usize) -> PlanarPair
    requires { i < most_outputs }
    ensures { result ≡ pair_from numbers.now bytes.now i }
{
    let [start, gap, m0, m1, m2, m3]: [f32; 6] = section(numbers, i * 6);
    let [a, b, law]: [u8; 3] = section(bytes, i * 3);
    PlanarPair {
        start,
        gap,
        a,
        b,
        law: law_from(law, m0, m1, m2, m3),
    }
}

// All pairs.
fn pairs_from(numbers: &[f32; PAIR_FLOATS], bytes: &[u8; PAIR_BYTES]) -> [PlanarPair; OUTPUTS]
    ensures { result ≡ map (pair_from numbers.now bytes.now) (range most_outputs) }
{
    array::from_fn(|i| pair_from(numbers, bytes, i))
}

// The record in the first places of the arrays; one with too many outputs where the kind or a law is unknown.
// Slices, here and in `hand_out`: a session's arrays are longer, and begin with the record's places.
#[tactic(auto, unfolding(crate::specs::Records::record_from))]
pub fn taken_in(bytes: &[u8], floats: &[f32]) -> VbapPanner
    requires { (record_byte_places ≤ length bytes.now) × (record_float_places ≤ length floats.now) }
    ensures { result ≡ record_from bytes.now floats.now }
{
    let pair_bytes = section(bytes, HEAD);
    VbapPanner {
        num_outputs: outputs_from(known(bytes[1], &pair_bytes), bytes[0]),
        kind: kind_from(bytes[1]),
        mono: bytes[2],
        num_pairs: bytes[3],
        pairs: pairs_from(&section(floats, 0), &pair_bytes),
        num_slots: bytes[4],
        slots: section(bytes, SLOTS_AT),
        num_real: bytes[5],
        pt_out: section(bytes, OUT_AT),
        pt_dir: section(floats, PAIR_FLOATS),
        num_tris: bytes[6],
        idx: section(bytes, IDX_AT),
        inv: section(floats, INV_AT),
        num_imag: bytes[7],
        num_nbrs: section(bytes, NUM_NBRS_AT),
        imag_nbrs: section(bytes, NBRS_AT),
    }
}
