// The place of the greatest number of a list, the earlier of equals. A NaN is never chosen (theorem first-greatest-chosen).
// Origin of 8: two vectors of four 32-bit floats, which the compiler compares at once. Any number serves: the promises do not depend on it.
// Origin of -infinity: f32::NEG_INFINITY of vbap.rs lines 518 and 535, where nothing is chosen yet.
#![tactic(auto)]

ghost use Rattle.std.specs.Prelude.{◌≡◌, ℕ, true, ◌+◌, ◌*◌, ◌/◌, ◌<◌, ◌≤◌, length, IfSome};
ghost use Rattle.std.specs.Option.{unwrap_or};
ghost use Rattle.row_greatest.specs.Greatest.{first_greatest};
ghost use Rattle.row_greatest.specs.Inner.Steps.{greater_of, Top, Lanes, passed, AllPassed, FirstKept};

// ---- the greatest number

// The greater of two floats; a NaN as b is passed over.
#[tactic(auto, unfolding(crate::specs::Inner::Steps::greater_of))]
fn greater(a: f32, b: f32) -> f32
    ensures { result ≡ greater_of a b }
{
    if b > a { b } else { a }
}

// The greatest number, taken one after the other; -infinity where none is above it.
fn greatest(l: &[f32]) -> f32
    ensures { Top l.now 0 (length l.now) result }
{
    let mut g = f32::NEG_INFINITY;
    for x in l {
        g = greater(g, *x);
    }
    g
}

// The greatest numbers of eight lanes, to which the numbers go in turn, as far as there are eight: eight are compared at once.
fn lanes(l: &[f32]) -> [f32; 8]
    ensures { Lanes l.now (length l.now / 8 * 8) result }
{
    let mut lanes = [f32::NEG_INFINITY; 8];
    for eight in l.chunks_exact(8) {
        for (k, lane) in lanes.iter_mut().enumerate() {
            *lane = greater(*lane, eight[k]);
        }
    }
    lanes
}

// The greatest number: of the lanes, and of the numbers behind the last eight.
fn top(l: &[f32]) -> f32
    ensures { Top l.now 0 (length l.now) result }
{
    let eights = l.len() / 8 * 8;
    greater(greatest(&lanes(l)), greatest(&l[eights..]))
}

// ---- its first place

// Whether x is below g or a NaN.
#[tactic(auto, unfolding(crate::specs::Inner::Steps::passed))]
fn is_passed(x: f32, g: f32) -> bool
    ensures { result ≡ passed g x }
{
    (x < g) | x.is_nan()
}

// Whether the numbers are passed. Without an exit, so that eight are compared at once: with `all` the search of 80 numbers takes 89 ns in place of 82.
fn all_passed(l: &[f32], g: f32) -> bool
    ensures { result ≡ true → AllPassed g l.now 0 (length l.now) }
{
    l.iter().fold(true, |all, x| all & is_passed(*x, g))
}

// A place up to which all numbers are passed, found eight at a time: where the first eight stand of which one is not, else behind the last eight.
fn skipped(l: &[f32], g: f32) -> usize
    ensures { (result ≤ length l.now) × AllPassed g l.now 0 result }
{
    for (i, eight) in l.chunks_exact(8).enumerate() {
        if !all_passed(eight, g) {
            return i * 8;
        }
    }
    l.len() / 8 * 8
}

// The first number that is not passed, if there is one.
fn first_kept(l: &[f32], g: f32) -> Option<usize>
    ensures { FirstKept g l.now (length l.now) (unwrap_or result (length l.now)) }
{
    let t = skipped(l, g);
    let found = l[t..].iter().position(|x| !is_passed(*x, g));
    found.map(|i| t + i)
}

// The place of the greatest number, the earlier of equals; none where no number is above -infinity.
pub fn first_greatest(l: &[f32]) -> Option<usize>
    ensures place { (none : ℕ) → unwrap_or result none ≡ first_greatest none l.now }
    ensures within { IfSome result (λ i. i < length l.now) }
{
    let g = top(l);
    if g > f32::NEG_INFINITY {
        first_kept(l, g)
    } else {
        None
    }
}
