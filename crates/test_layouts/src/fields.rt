// What `layout_new::new` answers, field by field, compared with a line word by word, up to the first field that differs. A place that is not used has no
// word: it has to hold 0 or +0.
use layout_new::NewPanner;
use layout_planar::{Law, PlanarPair};
use layout_record::{VbapPanner, no_panner};
use refusals::{Refusal, number_in};
use test_lines::Words;
use test_lines::report::Difference;
use test_lines::values::{Answer, Value};
use vector::{MAX_IMAGINARY, MOST_TRIPLETS};

// The most outputs of a record. Origin: document 01, refusal 2.
const OUTPUTS: usize = 40;

// Neighbours of an imaginary point in the record. Origin: crate layout_record.
const NEIGHBOURS: usize = 40;

// ---- a value

// A value in a place that is used: the next word says it.
fn word<R: Answer>(
    words: &mut Words<'_>,
    got: R,
    field: &'static str,
) -> Result<(), Difference<&'static str>> {
    Difference::unless(words.says(got)?, field)
}

// A value in a place that is not used, which has no word.
fn unused<R: Answer>(got: R, field: &'static str) -> Result<(), Difference<&'static str>> {
    Difference::unless(got.value().agrees(Value::Bits(0)), field)
}

// A value in a place of a list, of which the first ones are used. In place of the flag the words could be an Option, which would have to be lent anew at each call.
fn place<R: Answer>(
    words: &mut Words<'_>,
    used: bool,
    got: R,
    field: &'static str,
) -> Result<(), Difference<&'static str>> {
    if used {
        word(words, got, field)
    } else {
        unused(got, field)
    }
}

// A count, which is at most so many.
fn count(
    words: &mut Words<'_>,
    got: u8,
    most: usize,
    field: &'static str,
) -> Result<usize, Difference<&'static str>> {
    word(words, got, field)?;
    let count = usize::from(got);
    Difference::unless(count <= most, field)?;
    Ok(count)
}

// ---- planar

// The crossfade is 0; the inverse is 1 and its four numbers.
fn law(words: &mut Words<'_>, used: bool, law: Law) -> Result<(), Difference<&'static str>> {
    match law {
        Law::Crossfade => place(words, used, 0u8, "pairs.law"),
        Law::Inverse(m0, m1, m2, m3) => {
            place(words, used, 1u8, "pairs.law")?;
            for m in [m0, m1, m2, m3] {
                place(words, used, m, "pairs.law")?;
            }
            Ok(())
        }
    }
}

fn pair(words: &mut Words<'_>, used: bool, p: &PlanarPair) -> Result<(), Difference<&'static str>> {
    place(words, used, p.start, "pairs.start")?;
    place(words, used, p.gap, "pairs.gap")?;
    place(words, used, p.a, "pairs.a")?;
    place(words, used, p.b, "pairs.b")?;
    law(words, used, p.law)
}

// What stands in the record before the hull's fields.
fn planar(words: &mut Words<'_>, p: &VbapPanner) -> Result<(), Difference<&'static str>> {
    count(words, p.num_outputs, OUTPUTS, "num_outputs")?;
    word(words, p.kind as u8, "kind")?;
    word(words, p.mono, "mono")?;
    let pairs = count(words, p.num_pairs, p.pairs.len(), "num_pairs")?;
    for (i, of) in p.pairs.iter().enumerate() {
        pair(words, i < pairs, of)?;
    }
    let slots = count(words, p.num_slots, p.slots.len(), "num_slots")?;
    for (i, slot) in p.slots.iter().enumerate() {
        place(words, i < slots, *slot, "slots")?;
    }
    Ok(())
}

// ---- hull

// The real points: each one's slot and the three numbers of its direction.
fn points(words: &mut Words<'_>, p: &VbapPanner) -> Result<(), Difference<&'static str>> {
    let real = count(words, p.num_real, p.pt_out.len(), "num_real")?;
    let points = p.pt_out.iter().zip(p.pt_dir.chunks_exact(3));
    for (i, (slot, dir)) in points.enumerate() {
        place(words, i < real, *slot, "pt_out")?;
        for x in dir {
            place(words, i < real, *x, "pt_dir")?;
        }
    }
    Ok(())
}

// The triplets: each one's point numbers and inverse.
fn triplets(words: &mut Words<'_>, p: &VbapPanner) -> Result<(), Difference<&'static str>> {
    let tris = count(words, p.num_tris, MOST_TRIPLETS, "num_tris")?;
    for (t, points) in p.idx.chunks_exact(3).enumerate() {
        for x in points {
            place(words, t < tris, *x, "idx")?;
        }
        for x in p.inv.iter().skip(t).step_by(MOST_TRIPLETS) {
            place(words, t < tris, *x, "inv")?;
        }
    }
    Ok(())
}

// The imaginary points: each one's count of neighbours, and these. An unused one's count is 0.
fn imaginary(words: &mut Words<'_>, p: &VbapPanner) -> Result<(), Difference<&'static str>> {
    let imag = count(words, p.num_imag, MAX_IMAGINARY, "num_imag")?;
    let lists = p.num_nbrs.iter().zip(p.imag_nbrs.chunks_exact(NEIGHBOURS));
    for (k, (nbrs, list)) in lists.enumerate() {
        let near = if k < imag {
            count(words, *nbrs, list.len(), "num_nbrs")?
        } else {
            unused(*nbrs, "num_nbrs")?;
            0
        };
        for (j, slot) in list.iter().enumerate() {
            place(words, j < near, *slot, "imag_nbrs")?;
        }
    }
    Ok(())
}

// ---- the answer

// The refusal's number, how many imaginary points were made, and the record. Beside a refusal there are none, and no place of the record is used.
pub fn check_made(
    words: &mut Words<'_>,
    made: Result<NewPanner, Refusal>,
) -> Result<(), Difference<&'static str>> {
    word(words, number_in(&made), "number")?;
    let made = made.unwrap_or(NewPanner {
        panner: no_panner(),
        imaginary: 0,
    });
    word(words, made.imaginary, "imaginary")?;
    let p = &made.panner;
    planar(words, p)?;
    points(words, p)?;
    triplets(words, p)?;
    imaginary(words, p)
}
