// The real speakers that stand in for each imaginary one.
#![tactic(auto)]

ghost use Rattle.std.specs.Prelude.{◌≡◌, ℕ, false, slice_index, slice_index_or, ◌+◌, ◌-◌, ◌*◌, ◌≤◌, ◌<◌, length, take, drop, ◌++◌};
ghost use Rattle.lists.specs.Lists.{any, member, filled};
ghost use Rattle.vector.specs.Limits.{max_imaginary};
ghost use Rattle.layout_neighbours.specs.Neighbours.{reach, across, pass, neighbours_of};
ghost use Rattle.layout_neighbours.specs.Inner.Flat.{triples_of, neighbours_in, Numbered};
ghost use Rattle.layout_neighbours.specs.Inner.Search.{Held, Leads};

use vector::MAX_IMAGINARY;

// How many speakers there are at most, and so slots of a list. Origin: document 01, refusal 2.
const MOST_SLOTS: usize = 40;

// How many points there are at most, real and imaginary.
const MOST_POINTS: usize = MOST_SLOTS + MAX_IMAGINARY;

// How many places the lists of all imaginary points have.
const ALL_PLACES: usize = MAX_IMAGINARY * MOST_SLOTS;

// How many neighbours each of the fourteen imaginary points has, and their slots: neighbour j of the k-th at k * 40 + j.
#[derive(Clone, Copy)]
pub struct ImagNbrs {
    pub num_nbrs: [u8; MAX_IMAGINARY],
    pub imag_nbrs: [u8; ALL_PLACES],
}

// The search from one point: which points were visited and how many, and which slots were found and how many. All 40 places of slots, zeros too, become the point's list.
#[derive(Clone, Copy)]
struct Search {
    visited: [bool; MOST_POINTS],
    seen: usize,
    nbrs: [u8; MOST_SLOTS],
    found: usize,
    ghost held: { Held (record { visited = visited; seen = seen; nbrs = nbrs; found = found }) },
}

// What a search goes over: the point numbers of the triplets, three each, and the slots of the real points.
// It stands beside the search: held in it, each step would have to promise too that it stays the same.
#[derive(Clone, Copy)]
struct Given<'a> {
    idx: &'a [u8],
    slots: &'a [u8],
    ghost points: { (k : ℕ) → k < length idx.now → slice_index idx.now k < length slots.now + max_imaginary },
    ghost few: { length slots.now ≤ 40 },
    ghost low: { (k : ℕ) → k < length slots.now → slice_index slots.now k < 40 },
}

// Whether the slot is among those.
#[tactic(auto, using(lists::proofs::Tests::any_is))]
fn contains(slots: &[u8], slot: u8) -> bool
    ensures { result ≡ member slot slots.now }
{
    slots.contains(&slot)
}

// Whether one of a triplet's points is visited.
fn is_met(visited: &[bool; MOST_POINTS], t: &[u8]) -> bool
    requires { (k : ℕ) → k < length t.now → slice_index t.now k < 54 }
    ensures { result ≡ any (λ p. slice_index_or visited.now p false) t.now }
{
    t.iter().any(|p| visited[*p as usize])
}

impl Search {
    ghost use Rattle.layout_neighbours.specs.Inner.Arrays.{arrays_of};

    // A point of a triplet that holds a visited one: a real point's slot is a neighbour; an imaginary point is visited while there is no neighbour.
    fn reach(&mut self, g: Given, p: usize)
        requires { p < length g.slots.now + max_imaginary }
        ensures { Leads (λ r. reach g.entry.slots.now r p) (arrays_of self.old) (arrays_of self.new) }
    {
        let n = self.found;
        if p < g.slots.len() {
            let slot = g.slots[p];
            if contains(&self.nbrs[..n], slot) {
                return;
            }
            self.nbrs[n] = slot;
            self.found = n + 1;
            return;
        }
        if self.visited[p] {
            return;
        }
        if n != 0 {
            return;
        }
        self.visited[p] = true;
        self.seen += 1;
    }

    // The triplet t, where one of its points is visited.
    fn across(&mut self, g: Given, t: &[u8])
        requires { (k : ℕ) → k < length t.now → slice_index t.now k < length g.slots.now + max_imaginary }
        ensures { Leads (λ r. across g.entry.slots.now r t.now) (arrays_of self.old) (arrays_of self.new) }
    {
        if is_met(&self.visited, t) {
            for p in t {
                self.reach(g, *p as usize);
            }
        }
    }

    // All triplets, once.
    fn pass(&mut self, g: Given)
        ensures { Leads (pass g.entry.slots.now (triples_of g.entry.idx.now)) (arrays_of self.old) (arrays_of self.new) }
    {
        for t in g.idx.chunks_exact(3) {
            self.across(g, t);
        }
    }
}

// Passes until there is a neighbour or nothing more was visited: the search at its end.
fn neighbours_of(g: Given, p: usize) -> Search
    requires { (length g.slots.now ≤ p) × (p < length g.slots.now + max_imaginary) }
    ensures nbrs { result.nbrs ≡ filled 40 0 (neighbours_of g.entry.slots.now (triples_of g.entry.idx.now) p) }
    ensures found { result.found ≡ length (neighbours_of g.entry.slots.now (triples_of g.entry.idx.now) p) }
{
    let mut visited = [false; MOST_POINTS];
    visited[p] = true;
    let mut s = Search {
        visited,
        seen: 1,
        nbrs: [0u8; MOST_SLOTS],
        found: 0,
    };
    // ended by what a pass found, and not by a count
    loop {
        let seen = s.seen;
        s.pass(g);
        if (s.found != 0) | (s.seen == seen) {
            return s;
        }
    }
}

// A list of 40 at the k-th place of 40.
fn store(all: &mut [u8; ALL_PLACES], k: usize, nbrs: &[u8; MOST_SLOTS])
    requires { k < max_imaginary }
    ensures { all.new ≡ take (k * 40) all.old ++ nbrs.now ++ drop (k * 40 + 40) all.old }
{
    all[k * MOST_SLOTS..k * MOST_SLOTS + MOST_SLOTS].copy_from_slice(nbrs);
}

// The neighbours of the imaginary points, of which there are imag: the numbers behind those of the real points, whose slots are given. The triplets are given by their point numbers, three each.
pub fn neighbours(idx: &[u8], slots: &[u8], imag: usize) -> ImagNbrs
    requires { Numbered idx.now slots.now imag }
    ensures { result ≡ neighbours_in slots.now (triples_of idx.now) imag }
{
    let g = Given { idx, slots };
    let mut num_nbrs = [0u8; MAX_IMAGINARY];
    let mut imag_nbrs = [0u8; ALL_PLACES];
    for k in 0..imag {
        let s = neighbours_of(g, slots.len() + k);
        store(&mut imag_nbrs, k, &s.nbrs);
        num_nbrs[k] = s.found as u8;
    }
    ImagNbrs {
        num_nbrs,
        imag_nbrs,
    }
}
