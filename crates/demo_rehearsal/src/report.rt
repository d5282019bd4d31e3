// The report of a layout: what it is, its speakers, its triplets and its imaginary points.
use crate::angles::{azimuth, elevation};
use crate::decimals::Decimal;
use crate::words::{answer, kind};
use layout_new::NewPanner;
use layout_record::VbapPanner;
use refusals::Refusal;
use std::io;

// Triplets on a line. Origin: six of ten bytes keep it within 80.
const TRIPLETS_A_LINE: usize = 6;

// Neighbours of an imaginary point in the record. Origin: crate layout_record.
const NEIGHBOURS: usize = 40;

fn speakers(rt: &impl Print, p: &VbapPanner) -> io::Result<()> {
    println!(rt; "Active speakers, in degrees:")?;
    println!(rt; "point  slot  azimuth  elevation")?;
    let points = p.pt_out.iter().zip(p.pt_dir.chunks_exact(3));
    for (i, (slot, dir)) in points.take(usize::from(p.num_real)).enumerate() {
        // std has no `as_chunks` of a lent slice
        if let [x, y, z] = dir {
            let az = Decimal(azimuth(*x, *z));
            let el = Decimal(elevation(*x, *y, *z));
            println!(rt; "{i:5}{slot:6}{az:9.2}{el:11.2}")?;
        }
    }
    println!(rt; "")
}

fn triplets(rt: &impl Print, p: &VbapPanner) -> io::Result<()> {
    let real = p.num_real;
    println!(rt; "Triplets, as point numbers; points from {real} on are imaginary:")?;
    let n = usize::from(p.num_tris);
    for (t, points) in p.idx.chunks_exact(3).take(n).enumerate() {
        // as in `speakers`
        if let [a, b, c] = points {
            print!(rt; "{a:4}{b:3}{c:3}")?;
        }
        if t % TRIPLETS_A_LINE == TRIPLETS_A_LINE - 1 || t + 1 == n {
            println!(rt; "")?;
        }
    }
    println!(rt; "")
}

fn imaginary(rt: &impl Print, p: &VbapPanner) -> io::Result<()> {
    println!(rt; "Imaginary points:")?;
    println!(rt; "point  slots that stand in for it")?;
    let lists = p.num_nbrs.iter().zip(p.imag_nbrs.chunks_exact(NEIGHBOURS));
    for (k, (count, slots)) in lists.take(usize::from(p.num_imag)).enumerate() {
        let point = usize::from(p.num_real) + k;
        print!(rt; "{point:5} ")?;
        for slot in slots.iter().take(usize::from(*count)) {
            print!(rt; "{slot:3}")?;
        }
        println!(rt; "")?;
    }
    Ok(())
}

pub fn layout(rt: &impl Print, made: &Result<NewPanner, Refusal>) -> io::Result<()> {
    print!(rt; "number            ")?;
    answer(rt, made)?;
    let Ok(made) = made else {
        return Ok(());
    };
    let p = &made.panner;
    let what = kind(p.kind);
    let outputs = p.num_outputs;
    let real = p.num_real;
    let tris = p.num_tris;
    let imaginary_points = made.imaginary;
    println!(rt; "kind              {what}")?;
    println!(rt; "outputs           {outputs:2}")?;
    println!(rt; "active speakers   {real:2}")?;
    println!(rt; "triplets          {tris:2}")?;
    println!(rt; "imaginary points  {imaginary_points:2}\n")?;
    speakers(rt, p)?;
    triplets(rt, p)?;
    imaginary(rt, p)
}
