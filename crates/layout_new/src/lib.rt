// `VbapPanner::new`: from positions to the record.
// Lengths of arrays: those of crate layout_record's record, whose origins stand there.
#![tactic(auto)]

ghost use Rattle.std.specs.Prelude.{◌≡◌, ◌+◌, ◌*◌, ◌≤◌, length};
ghost use Rattle.layout_planar.specs.Planar.{pairs_of};
ghost use Rattle.vector.specs.Speakers.{slots_of};
ghost use Rattle.layout_new.specs.Layout.{outputs_of, in_slot, speaker_at, active, new_answer, new_of};
ghost use Rattle.layout_new.specs.Inner.Answers.{accepted, alone, hull_built_of};
ghost use Rattle.layout_record.specs.Shape.{planar};

mod active;

use active::ActiveSpeakers;
use layout_record::{Kind, VbapPanner};
use refusals::Refusal;
use vector::{MAX_IMAGINARY, Speaker};

// Origin: document 01, refusal 2. The number of places of a row, `mix_block::ROW`, stands in a crate above.
const MOST_OUTPUTS: usize = 40;

// What `new` makes: the layout, and how many imaginary points were made.
#[derive(Clone, Copy)]
pub struct NewPanner {
    pub panner: VbapPanner,
    pub imaginary: usize,
}

// ---- active speakers

// The direction of the speaker in slot i, where it is active: where the slot is not LFE and `unit` accepts the position.
fn direction(positions: &[f32], lfe: &[usize], i: usize) -> Option<[f64; 3]>
    requires { i * 3 + 3 ≤ length positions.now }
    ensures { in_slot i result ≡ speaker_at positions.now lfe.now i }
{
    if lfe.contains(&i) {
        return None;
    }
    vector::unit(vector::point(positions, i))
}

fn active_speakers(positions: &[f32], lfe: &[usize]) -> ActiveSpeakers
    requires { outputs_of positions.now ≤ 40 }
    ensures { result ≡ active positions.now lfe.now }
{
    let mut found = ActiveSpeakers::none();
    for i in 0..positions.len() / 3 {
        if let Some(u) = direction(positions, lfe, i) {
            found.push(Speaker {
                slot: i as u8,
                dir: u,
            });
        }
    }
    found
}

// ---- the answer, by the record's kind. Each record is one literal, of arrays that stand in locals: a blank record with fields written over it would be moved about whole (`new` of one speaker took twice the time), and so would what is read out of another record.
// Each kind is a function that is not inlined and that answers for `new`: a function makes room for all arrays of what is inlined into it, whichever kind it then makes, and a record that is handed on is copied.

// No speaker is active, or one, in its slot.
#[inline(never)]
fn without_points(outputs: u8, slot: Option<u8>) -> Result<NewPanner, Refusal>
    ensures { new_answer result ≡ accepted (record { outputs = outputs; shape = alone slot }) }
{
    let pairs = layout_planar::no_pairs();
    let (kind, mono) = match slot {
        Some(s) => (Kind::Mono, s),
        None => (Kind::Silent, 0),
    };
    Ok(NewPanner {
        panner: VbapPanner {
            num_outputs: outputs,
            kind,
            mono,
            num_pairs: 0,
            pairs,
            num_slots: 0,
            slots: [0; 40],
            num_real: 0,
            pt_out: [0; 40],
            pt_dir: [0.0; 120],
            num_tris: 0,
            idx: [0; 240],
            inv: [0.0; 720],
            num_imag: 0,
            num_nbrs: [0; MAX_IMAGINARY],
            imag_nbrs: [0; 560],
        },
        imaginary: 0,
    })
}

#[inline(never)]
fn planar(outputs: u8, ring: &ActiveSpeakers) -> Result<NewPanner, Refusal>
    ensures { new_answer result ≡ accepted (record { outputs = outputs; shape = planar (pairs_of ring.now) (slots_of ring.now) }) }
{
    let used = ring.used();
    let made = layout_planar::build_planar(used);
    let pairs = made.pairs;
    let slots = ring.slots();
    Ok(NewPanner {
        panner: VbapPanner {
            num_outputs: outputs,
            kind: Kind::Planar,
            mono: 0,
            num_pairs: made.num_pairs as u8,
            pairs,
            num_slots: used.len() as u8,
            slots,
            num_real: 0,
            pt_out: [0; 40],
            pt_dir: [0.0; 120],
            num_tris: 0,
            idx: [0; 240],
            inv: [0.0; 720],
            num_imag: 0,
            num_nbrs: [0; MAX_IMAGINARY],
            imag_nbrs: [0; 560],
        },
        imaginary: 0,
    })
}

// `VbapPanner::build_hull`; refused where a triplet list on the way has more than 80 entries.
#[inline(never)]
fn build_hull(outputs: u8, real: &ActiveSpeakers) -> Result<NewPanner, Refusal>
    ensures { new_answer result ≡ hull_built_of outputs real.now }
{
    let used = real.used();
    let ended = layout_closing::close(used);
    if ended.over {
        return Err(Refusal::TooManyTriplets);
    }
    let imag = ended.imag;
    let hull = ended.hull;
    let idx = hull.idx;
    let inv = hull.inv;
    let tris = hull.count;
    let pt_out = real.slots();
    let nbrs = layout_neighbours::neighbours(&idx[..tris * 3], &pt_out[..used.len()], imag);
    let num_nbrs = nbrs.num_nbrs;
    let imag_nbrs = nbrs.imag_nbrs;
    let pt_dir = real.narrowed();
    let pairs = layout_planar::no_pairs();
    Ok(NewPanner {
        panner: VbapPanner {
            num_outputs: outputs,
            kind: Kind::Hull,
            mono: 0,
            num_pairs: 0,
            pairs,
            num_slots: 0,
            slots: [0; 40],
            num_real: used.len() as u8,
            pt_out,
            pt_dir,
            num_tris: tris as u8,
            idx,
            inv,
            num_imag: imag as u8,
            num_nbrs,
            imag_nbrs,
        },
        imaginary: imag,
    })
}

// `VbapPanner::new`: positions are three numbers a speaker, lfe lists slots that never receive panned signal.
// None active is silent; one, mono; all level, planar; else hull. Origin of the refusals: document 01, "Returned numbers".
pub fn new(positions: &[f32], lfe: &[usize]) -> Result<NewPanner, Refusal>
    ensures { new_answer result ≡ new_of positions.now lfe.now }
{
    if positions.len() % 3 != 0 {
        return Err(Refusal::NotTriples);
    }
    if MOST_OUTPUTS < positions.len() / 3 {
        return Err(Refusal::TooManyPositions);
    }
    let outputs = (positions.len() / 3) as u8;
    let found = active_speakers(positions, lfe);
    let used = found.used();
    if used.len() == 0 {
        return without_points(outputs, None);
    }
    if used.len() == 1 {
        return without_points(outputs, Some(used[0].slot));
    }
    if found.all_level() {
        return planar(outputs, &found);
    }
    build_hull(outputs, &found)
}
