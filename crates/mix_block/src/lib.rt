// Mixing: document 01, "Session" ("For each source ascending, for each slot ascending"), over the gains at a block's start and end.
#![tactic(auto)]

ghost use Rattle.std.specs.Prelude.{◌≡◌, ◌*◌, ◌≤◌, length};
ghost use Rattle.mix_block.specs.Limits.{most_sources, row_places};

mod mixing;

// How many sources there may be. Origin: document 01, refusal 3.
pub const SOURCES: usize = 8;

// Gains of the row of a source. Origin: a place for each output, of which there are at most 40 (document 01, refusal 2).
pub const ROW: usize = 40;

// Gains of the rows of all sources, 320. Origin: 8 rows of 40.
pub const GAINS: usize = SOURCES * ROW;

// The row from which each source starts, source after source: gain o of source i at i * ROW + o. Unused places hold +0.
pub type Starts = [f32; GAINS];

// What is mixed into a block of outputs: `block` samples of each source, source after source, and the rows from which and to which each source ramps.
#[derive(Clone, Copy)]
pub struct Block<'a> {
    pub block: usize,
    pub outputs: usize,
    pub sources: usize,
    pub samples: &'a [f32],
    pub from: &'a Starts,
    pub to: &'a Starts,
    ghost row: { outputs ≤ row_places },
    ghost few: { sources ≤ most_sources },
    ghost sampled: { length samples.now ≡ sources * block },
}
