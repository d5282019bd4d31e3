// Imaginary speakers: poles and candidates, added until the hull is closed.
// Lengths of arrays: 40 directions (document 01, refusal 2) and 14 imaginary points (vbap.rs line 60) are 54 points.
#![tactic(auto)]

ghost use Rattle.std.specs.Prelude.{◌≡◌, [], ◌+◌, ◌≤◌, ◌<◌, length, take};
ghost use Rattle.vector.specs.Speakers.{dirs_of};
ghost use Rattle.layout_closing.specs.Closing.{nearest_product, passed_over, with_pole, better, candidate_of};
ghost use Rattle.layout_closing.specs.Inner.Flat.{best_in, found_in, wins_by, ended_in};

use layout_hull::Hull;
use vector::{MAX_IMAGINARY, Speaker};

// What the closing ends with: how many imaginary points there are, poles counted; the hull of all points, which is open where no candidate or no room was left; whether a triplet list on the way had more than 80 entries, which a short list at the end does not undo.
// `over` is a flag and no Result: `close` and `layout_hull::hull_triplets` promise a hull for all points, and cannot fail.
#[derive(Clone, Copy)]
pub struct Ended {
    pub imag: usize,
    pub hull: Hull,
    pub over: bool,
}

// A candidate with its greatest product.
#[derive(Clone, Copy)]
struct Best {
    c: [f64; 3],
    nearest: f64,
}

// 1 - 1e-6. Origin: vbap.rs lines 370 and 385; "almost there".
const ALMOST: f64 = 0.999999;

// Origin: vbap.rs line 388; a later candidate wins only by more than this.
const LEAST_LEAD: f64 = 1e-9;

// 1 / the square root of 3. Origin: vbap.rs line 64.
const H: f64 = 0.5773502691896258;

// The six axes, then the eight cube diagonals. Origin: vbap.rs lines 65 to 77.
const CANDIDATES: [[f64; 3]; 14] = [
    [0.0, 1.0, 0.0],
    [0.0, -1.0, 0.0],
    [0.0, 0.0, 1.0],
    [0.0, 0.0, -1.0],
    [1.0, 0.0, 0.0],
    [-1.0, 0.0, 0.0],
    [H, H, H],
    [-H, H, H],
    [H, H, -H],
    [-H, H, -H],
    [H, -H, H],
    [-H, -H, H],
    [H, -H, -H],
    [-H, -H, -H],
];

// The greatest dot product of c with the points.
#[tactic(auto, using(crate::proofs::Points::nearest_more, crate::proofs::Points::nearest_none), unfolding(crate::specs::Closing::nearest_product, std::specs::Prelude::from_bits))]
fn nearest_product(pts: &[[f64; 3]], c: [f64; 3]) -> f64
    ensures { result ≡ nearest_product pts.now c }
{
    // Origin: vbap.rs line 384
    let mut g = f64::NEG_INFINITY;
    for p in pts {
        g = float_order::max(g, vector::dot(*p, c));
    }
    g
}

// Whether a point is (almost) there.
#[tactic(auto, unfolding(crate::specs::Closing::passed_over))]
fn passed_over(pts: &[[f64; 3]], c: [f64; 3]) -> bool
    ensures { result ≡ passed_over pts.now c }
{
    ALMOST <= nearest_product(pts, c)
}

// The first n points, and a pole that is not passed over; how many points there are then.
fn with_pole(pts: &mut [[f64; 3]; 54], n: usize, c: [f64; 3]) -> usize
    requires { n < 54 }
    ensures { (n ≤ result) × (result ≤ n + 1) × (take result pts.new ≡ with_pole (take n pts.old) c) }
{
    if passed_over(&pts[..n], c) {
        return n;
    }
    pts[n] = c;
    n + 1
}

// Whether a candidate with the given greatest product wins over the best so far: only when its product is below the other's less 1e-9.
fn wins(nearest: f64, best: Option<Best>) -> bool
    ensures { result ≡ wins_by nearest best }
{
    match best {
        Some(b) => nearest < b.nearest - LEAST_LEAD,
        None => true,
    }
}

// The better of the best so far and c, where that is not passed over.
#[tactic(auto, using(crate::proofs::Candidates::better_keeps, crate::proofs::Candidates::better_passed, crate::proofs::Candidates::better_wins))]
fn better(pts: &[[f64; 3]], best: Option<Best>, c: [f64; 3]) -> Option<Best>
    requires { best ≡ best_in pts.now (found_in best) }
    ensures { result ≡ best_in pts.now (better pts.now (found_in best) c) }
{
    let nearest = nearest_product(pts, c);
    if ALMOST <= nearest {
        return best;
    }
    if wins(nearest, best) {
        return Some(Best { c, nearest });
    }
    best
}

// The candidate with the least greatest product.
fn candidate(pts: &[[f64; 3]]) -> Option<Best>
    ensures { result ≡ best_in pts.now (candidate_of pts.now) }
{
    let mut best = None;
    for c in CANDIDATES {
        best = better(pts, best, c);
    }
    best
}

// The directions of the real speakers, with room for the imaginary points, in an array's first places.
#[tactic(auto, using(std::proofs::lemmas::List::take_all, vector::proofs::Speakers::made_more), unfolding(vector::specs::Speakers::dirs_of))]
fn with_room(real: &[Speaker]) -> [[f64; 3]; 54]
    requires { length real.now ≤ 40 }
    ensures { take (length real.now) result ≡ dirs_of real.now }
{
    let mut pts = [[0.0; 3]; 54];
    for (i, s) in real.iter().enumerate() {
        pts[i] = s.dir;
    }
    pts
}

// The directions of the real speakers, with the poles and, while the hull is open and fewer than fourteen points are imaginary, candidates.
pub fn close(real: &[Speaker]) -> Ended
    requires { length real.now ≤ 40 }
    ensures { result ≡ ended_in (dirs_of real.now) }
{
    let n = real.len();
    // the points stand in an array of 54, and how many there are beside it: n, then top, then m
    let mut pts = with_room(real);
    // the poles. Origin: vbap.rs lines 369 and 371
    let top = with_pole(&mut pts, n, [0.0, 1.0, 0.0]);
    let mut m = with_pole(&mut pts, top, [0.0, -1.0, 0.0]);
    let mut hull = layout_hull::hull_triplets(&pts[..m]);
    let mut over = hull.over;
    // m is how many points there are, and no count to go over: it rises only where a candidate is found
    while m - n < MAX_IMAGINARY {
        if hull.enclosed {
            break;
        }
        let Some(best) = candidate(&pts[..m]) else {
            break;
        };
        // a local first: tried, today's check covers no store of a field that is an array
        let c = best.c;
        pts[m] = c;
        m += 1;
        hull = layout_hull::hull_triplets(&pts[..m]);
        over = over | hull.over;
    }
    Ended {
        imag: m - n,
        hull,
        over,
    }
}
