// The standing directions of all sources.
#![tactic(auto)]

ghost use Rattle.std.specs.Prelude.{◌≡◌, [], ◌∷◌, ◌++◌, ◌+◌, ◌-◌, ◌*◌, ◌≤◌, ◌<◌, take, drop, replicate};
ghost use Rattle.std.proofs.lemmas.List.Edits.{sets};
ghost use Rattle.float_order.specs.Values.{+0};
ghost use Rattle.mix_block.specs.Limits.{most_sources};
ghost use Rattle.session_history.specs.History.{depth};

use mix_block::SOURCES;

// How many directions of a source stand. Origin: document 01, "Session", "their count in 8 bits".
pub type Count = u8;

// How many directions of a source may stand. Origin: document 01, refusal 6.
pub const DEPTH: Count = 16;

// Numbers of the standing directions of a source, 32. Origin: an azimuth and an elevation for each of DEPTH.
pub const WIDTH: usize = (DEPTH as usize) * 2;

// Numbers of the standing directions of all sources, 256. Origin: WIDTH for each of 8.
pub const PLACES: usize = SOURCES * WIDTH;

// Direction j of source i at i * WIDTH + j * 2, its azimuth and then its elevation. Unused places hold +0.
pub type Standing = [f32; PLACES];

// A count for each source.
pub type Counts = [Count; SOURCES];

// Another direction j of a source.
pub fn put(standing: &mut Standing, source: usize, j: usize, az: f32, el: f32)
    requires { (source < most_sources) × (j < depth) }
    ensures { standing.new ≡ sets standing.old (source * (depth * 2) + j * 2) (az ∷ el ∷ []) }
{
    let k = source * WIDTH + j * 2;
    standing[k] = az;
    standing[k + 1] = el;
}

// The direction at `last` moved to `first`, and +0 into the places after it.
fn keep_last(standing: &mut Standing, first: usize, last: usize)
    requires { (first + depth * 2 ≤ most_sources * (depth * 2)) × (last + 2 ≤ most_sources * (depth * 2)) }
    ensures { standing.new ≡ sets standing.old first (take 2 (drop last standing.old) ++ replicate (depth * 2 - 2) +0) }
{
    // tried: with `copy_within` the check does not find the promise, and the two numbers are as many lines
    let az = standing[last];
    let el = standing[last + 1];
    standing[first] = az;
    standing[first + 1] = el;
    standing[first + 2..first + WIDTH].fill(0.0);
}

// Of a source direction j alone, in its first place.
pub fn keep(standing: &mut Standing, source: usize, j: usize)
    requires { (source < most_sources) × (j < depth) }
    ensures { standing.new ≡ sets standing.old (source * (depth * 2)) (take 2 (drop (source * (depth * 2) + j * 2) standing.old) ++ replicate (depth * 2 - 2) +0) }
{
    let first = source * WIDTH;
    keep_last(standing, first, first + j * 2)
}
