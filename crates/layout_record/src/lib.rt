// A layout by value: the record of a panner, and the test of a record made by hand.
// Lengths of arrays: 40 outputs, pairs, planar slots, real points and neighbours of one, 80 triplets and 14 imaginary points (document 01, "Returned numbers", 11). Three numbers a direction are 120; 3 point numbers and 9 inverse entries a triplet, 240 and 720; 14 lists of 40 neighbours, 560.
#![tactic(auto)]

ghost use Rattle.std.specs.Prelude.{◌≡◌, true, ◌+◌, ◌*◌, ◌≤◌, ◌<◌, leb, take, get_or};
ghost use mathlib.Core.List.{[], ◌∷◌, map, flat_map};
ghost use Rattle.lists.specs.Lists.{range, every};
ghost use Rattle.layout_record.specs.Panner.{no_panner, near_in};
ghost use Rattle.layout_record.specs.Malformed.{any_from, planar_out, hull_out, counts_over, malformed_of, outputs_answer, num_outputs_of};

use layout_planar::PlanarPair;
use refusals::Refusal;
use vector::{MAX_IMAGINARY, MOST_TRIPLETS};

// Which of the four layouts stands; the fields beside it hold the rest. Document 01 names the form, "a plain kind beside arrays".
#[derive(Clone, Copy)]
pub enum Kind {
    Silent,
    Mono,
    Planar,
    Hull,
}

// The panner of the source (document 01: a layout). Of each array the first places are used, as many as its count says: document 01 names the form, arrays by value with their counts beside them ("What to write where").
// Slots, point numbers and counts are bytes. In a record that is not malformed no count is above 80, and of the numbers that its kind and counts reach no slot is above 39 and no point above 53.
#[derive(Clone, Copy)]
pub struct VbapPanner {
    pub num_outputs: u8,
    pub kind: Kind,
    // mono: its slot
    pub mono: u8,
    // planar: pairs of neighbours, and the slots of all active speakers
    pub num_pairs: u8,
    pub pairs: [PlanarPair; 40],
    pub num_slots: u8,
    pub slots: [u8; 40],
    // hull: the real points' slots, and three numbers a direction
    pub num_real: u8,
    pub pt_out: [u8; 40],
    pub pt_dir: [f32; 120],
    // hull: three point numbers a triplet; entry e of the inverse of triplet t at e * 80 + t
    pub num_tris: u8,
    pub idx: [u8; 240],
    pub inv: [f32; 720],
    // hull: neighbour j of imaginary point k at k * 40 + j
    pub num_imag: u8,
    pub num_nbrs: [u8; MAX_IMAGINARY],
    pub imag_nbrs: [u8; 560],
}

// A blank record, silent: every place holds 0, +0 or the crossfade.
pub fn no_panner() -> VbapPanner
    ensures { result ≡ no_panner }
{
    let pairs = layout_planar::no_pairs();
    VbapPanner {
        num_outputs: 0,
        kind: Kind::Silent,
        mono: 0,
        num_pairs: 0,
        pairs,
        num_slots: 0,
        slots: [0; 40],
        num_real: 0,
        pt_out: [0; 40],
        pt_dir: [0.0; 120],
        num_tris: 0,
        idx: [0; 240],
        inv: [0.0; 720],
        num_imag: 0,
        num_nbrs: [0; MAX_IMAGINARY],
        imag_nbrs: [0; 560],
    }
}

// ---- what is used of the arrays. A record made by hand may have any counts, so its type can't keep that they are within the arrays: each part asks for its own count.

impl VbapPanner {
    // The pairs of a ring.
    pub fn ring_pairs(&self) -> &[PlanarPair]
        requires { self.now.num_pairs ≤ 40 }
        ensures { result.now ≡ take self.now.num_pairs self.now.pairs }
    {
        &self.pairs[..self.num_pairs as usize]
    }

    // The slots of a ring's speakers.
    pub fn ring_slots(&self) -> &[u8]
        requires { self.now.num_slots ≤ 40 }
        ensures { result.now ≡ take self.now.num_slots self.now.slots }
    {
        &self.slots[..self.num_slots as usize]
    }

    // The slots of a hull's real points.
    pub fn real_slots(&self) -> &[u8]
        requires { self.now.num_real ≤ 40 }
        ensures { result.now ≡ take self.now.num_real self.now.pt_out }
    {
        &self.pt_out[..self.num_real as usize]
    }

    // The neighbours of imaginary point k.
    pub fn neighbours(&self, k: usize) -> &[u8]
        requires { (k < 14) × (get_or self.now.num_nbrs k 0 ≤ 40) }
        ensures { result.now ≡ near_in self.now.num_nbrs self.now.imag_nbrs k }
    {
        let from = k * 40;
        &self.imag_nbrs[from..from + self.num_nbrs[k] as usize]
    }
}

// ---- numbers over a bound

// Whether some byte is not below the bound: all are compared, with no exit from the loop, so that many are compared at once. Tried with `any` in a Rust copy: 560 bytes take 258 ns in place of 20, and each row tests its record.
#[tactic(auto, unfolding(lists::specs::Lists::any))]
fn over(xs: &[u8], bound: u8) -> bool
    ensures { result ≡ any_from bound xs.now }
{
    let mut some = false;
    for x in xs {
        some |= bound <= *x;
    }
    some
}

// The same of the slots of pairs.
fn pairs_over(pairs: &[PlanarPair], bound: u8) -> bool
    ensures { result ≡ any_from bound (flat_map (λ p. p.a ∷ p.b ∷ []) pairs.now) }
{
    pairs.iter().any(|p| (bound <= p.a) | (bound <= p.b))
}

// The same of the neighbours that the imaginary points reach. Where no byte of the whole array is over, none of those is: one array of 560 is compared faster than many short parts (the whole of `malformed` took 32 ns against 61 for 6 points with 5 neighbours each, 45 against 150 for 14 with 40).
fn neighbours_over(p: &VbapPanner, bound: u8) -> bool
    requires { (p.now.num_imag ≤ 14) × (every (λ n. leb n 40) p.now.num_nbrs ≡ true) }
    ensures { result ≡ any_from bound (flat_map (near_in p.now.num_nbrs p.now.imag_nbrs) (range p.now.num_imag)) }
{
    if !over(&p.imag_nbrs, bound) {
        return false;
    }
    // tried as `any` over the numbers: the check does not find what its closure has to show for `neighbours`
    for k in 0..p.num_imag as usize {
        if over(p.neighbours(k), bound) {
            return true;
        }
    }
    false
}

// ---- the numbers of a kind

// Whether a used slot number of a planar layout is not below the outputs.
pub fn planar_over(p: &VbapPanner) -> bool
    requires { (p.now.num_pairs ≤ 40) × (p.now.num_slots ≤ 40) }
    ensures { result ≡ planar_out p.now.num_outputs (take p.now.num_pairs p.now.pairs) (take p.now.num_slots p.now.slots) }
{
    pairs_over(p.ring_pairs(), p.num_outputs) | over(p.ring_slots(), p.num_outputs)
}

// The same of a hull, or a used point number not below `points`: of a record, real plus imaginary.
pub fn hull_over(p: &VbapPanner, points: u8) -> bool
    requires { (p.now.num_real ≤ 40) × (p.now.num_imag ≤ 14) × (p.now.num_tris ≤ 80) × (every (λ n. leb n 40) p.now.num_nbrs ≡ true) }
    ensures { result ≡ hull_out p.now.num_outputs points (take p.now.num_real p.now.pt_out) (map (near_in p.now.num_nbrs p.now.imag_nbrs) (range p.now.num_imag)) (take (p.now.num_tris * 3) p.now.idx) }
{
    over(p.real_slots(), p.num_outputs)
        | neighbours_over(p, p.num_outputs)
        | over(&p.idx[..p.num_tris as usize * 3], points)
}

// ---- malformed

// Whether a count is over its array. Origin of the bounds: document 01, "Returned numbers"; 41 is one more than 40 neighbours.
pub fn counts_over(p: &VbapPanner) -> bool
    ensures { result ≡ counts_over p.now }
{
    (40 < p.num_outputs)
        | (40 < p.num_real)
        | (40 < p.num_pairs)
        | (40 < p.num_slots)
        | (MOST_TRIPLETS < p.num_tris as usize)
        | (MAX_IMAGINARY < p.num_imag as usize)
        | over(&p.num_nbrs, 41)
}

// Whether a count is over its array, a used slot number is not below the outputs, or a used point number not below real plus imaginary.
#[tactic(auto, using(crate::proofs::Counts::within, crate::proofs::Numbers::out_silent, crate::proofs::Numbers::out_mono, crate::proofs::Numbers::out_planar, crate::proofs::Numbers::out_hull), unfolding(crate::specs::Malformed::counts_over, crate::specs::Malformed::malformed_of, crate::specs::Malformed::numbers_out))]
pub fn malformed(p: &VbapPanner) -> bool
    ensures { result ≡ malformed_of p.now }
{
    if counts_over(p) {
        return true;
    }
    match p.kind {
        Kind::Silent => false,
        Kind::Mono => p.num_outputs <= p.mono,
        Kind::Planar => planar_over(p),
        Kind::Hull => hull_over(p, p.num_real + p.num_imag),
    }
}

// `VbapPanner::num_outputs`.
pub fn num_outputs(p: &VbapPanner) -> Result<usize, Refusal>
    ensures { outputs_answer result ≡ num_outputs_of p.now }
{
    if malformed(p) {
        return Err(Refusal::Malformed);
    }
    Ok(p.num_outputs as usize)
}
