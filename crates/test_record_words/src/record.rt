// A record made by hand: the words of a line, in the record's order. Places that are not listed hold 0, +0 or the crossfade.
use layout_planar::{Law, PlanarPair};
use layout_record::{Kind, VbapPanner, no_panner};
use test_lines::{Malformed, Words};
use vector::{MAX_IMAGINARY, MOST_TRIPLETS};

// Neighbours of an imaginary point in the record. Origin: crate layout_record.
const NEIGHBOURS: usize = 40;

// ---- planar

// The crossfade is 0; the inverse is 1 and its four numbers. The number is the list's, tested as it is read.
fn law(words: &mut Words<'_>) -> Result<Law, Malformed> {
    if words.up_to(1)? == 0 {
        return Ok(Law::Crossfade);
    }
    Ok(Law::Inverse(words.read()?, words.read()?, words.read()?, words.read()?))
}

fn pair(words: &mut Words<'_>) -> Result<PlanarPair, Malformed> {
    Ok(PlanarPair {
        start: words.read()?,
        gap: words.read()?,
        a: words.read()?,
        b: words.read()?,
        law: law(words)?,
    })
}

fn planar(words: &mut Words<'_>, p: &mut VbapPanner) -> Result<(), Malformed> {
    let pairs = words.up_to(p.pairs.len())?;
    p.num_pairs = pairs as u8;
    for to in &mut p.pairs[..pairs] {
        *to = pair(words)?;
    }
    let slots = words.up_to(p.slots.len())?;
    p.num_slots = slots as u8;
    words.fill(&mut p.slots[..slots])
}

// ---- hull

// The real points: each one's slot and direction.
fn points(words: &mut Words<'_>, p: &mut VbapPanner) -> Result<(), Malformed> {
    let count = words.up_to(p.pt_out.len())?;
    p.num_real = count as u8;
    let dirs = p.pt_dir.chunks_exact_mut(3);
    for (slot, dir) in p.pt_out.iter_mut().zip(dirs).take(count) {
        *slot = words.read()?;
        words.fill(dir)?;
    }
    Ok(())
}

// The triplets: each one's point numbers and inverse.
fn triplets(words: &mut Words<'_>, p: &mut VbapPanner) -> Result<(), Malformed> {
    let count = words.up_to(MOST_TRIPLETS)?;
    p.num_tris = count as u8;
    for (t, points) in p.idx.chunks_exact_mut(3).take(count).enumerate() {
        words.fill(points)?;
        for x in p.inv.iter_mut().skip(t).step_by(MOST_TRIPLETS) {
            *x = words.read()?;
        }
    }
    Ok(())
}

// The imaginary points: each one's neighbours.
fn imaginary(words: &mut Words<'_>, p: &mut VbapPanner) -> Result<(), Malformed> {
    let count = words.up_to(MAX_IMAGINARY)?;
    p.num_imag = count as u8;
    let lists = p.imag_nbrs.chunks_exact_mut(NEIGHBOURS);
    for (count, list) in p.num_nbrs.iter_mut().zip(lists).take(count) {
        let slots = words.list(list)?;
        *count = u8::try_from(slots.len()).map_err(|_| Malformed)?;
    }
    Ok(())
}

// ---- the record

// The kinds in the order of their numbers. Origin: docs/CASES.md, "Rows and ramps".
const KINDS: [Kind; 4] = [Kind::Silent, Kind::Mono, Kind::Planar, Kind::Hull];

pub fn record(words: &mut Words<'_>) -> Result<VbapPanner, Malformed> {
    let mut p = no_panner();
    p.num_outputs = words.read()?;
    p.kind = words.one_of(&KINDS)?;
    p.mono = words.read()?;
    planar(words, &mut p)?;
    points(words, &mut p)?;
    triplets(words, &mut p)?;
    imaginary(words, &mut p)?;
    Ok(p)
}
