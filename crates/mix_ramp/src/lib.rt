// The ramp: document 01, "The ramp and the mixed gain follow S"; source lines 585 to 602.
#![tactic(auto)]

ghost use Rattle.std.specs.Prelude.{◌≡◌, ◌+◌, ◌≤◌, length};
ghost use mathlib.Core.List.{foldl};
ghost use Rattle.lists.specs.Lists.{range, between};
ghost use Rattle.mix_ramp.specs.Ramp.{ramp_add_of};
ghost use Rattle.mix_ramp.specs.Inner.Turns.{steady_turn, ramp_turn};

use mix_eights::Ramp;

// 2^24: up to here every whole number is an f32, and adding 8 to one rounds nothing. Origin: IEEE 754-2019, table 3.5, the 24 digits of binary32.
const EXACT_COUNTS: usize = 16777216;

// The three functions below take slices of one length, as `ramp_add` cuts them; a struct of the two would say no more than that.

// Every sample at one gain. src by the place: after `iter_mut().zip(src)` a proof knows nothing of the elements.
fn steady(dst: &mut [f32], src: &[f32], g: f32)
    requires { length dst.old ≡ length src.now }
    ensures { dst.new ≡ foldl (steady_turn src.now g) dst.old (range (length dst.old)) }
{
    for (i, d) in dst.iter_mut().enumerate() {
        *d += src[i] * g;
    }
}

// Samples at moving gains, eight at a time while eight are left and their counts are exact: how many. Origin of 8 and of the first counts, 1 to 8: crate mix_eights; sample i has the count i + 1, vbap.rs line 599.
fn by_eights(dst: &mut [f32], src: &[f32], ramp: Ramp) -> usize
    requires { length dst.old ≡ length src.now }
    ensures within { result ≤ length dst.old }
    ensures mixed { dst.new ≡ foldl (ramp_turn src.now ramp.g0 ramp.step) dst.old (range result) }
{
    let turns = dst.len().min(EXACT_COUNTS) / 8;
    let mut c = [1.0, 2.0, 3.0, 4.0, 5.0, 6.0, 7.0, 8.0];
    for k in 0..turns {
        let i = k * 8;
        let s = mix_eights::load(src, i);
        let d = mix_eights::load(&*dst, i);
        mix_eights::store(&mut *dst, i, ramp.mixed(d, s, c));
        // with a name of its own: the borrow checker does not cover `c = onward(c)`, a call's answer laid in an array that stands
        let next = mix_eights::onward(c);
        c = next;
    }
    turns * 8
}

// Samples from `from` on at moving gains, each count rounded once from the whole number.
fn one_by_one(dst: &mut [f32], src: &[f32], from: usize, ramp: Ramp)
    requires { (from ≤ length dst.old) × (length dst.old ≡ length src.now) }
    ensures { dst.new ≡ foldl (ramp_turn src.now ramp.g0 ramp.step) dst.old (between from (length dst.old)) }
{
    for i in from..dst.len() {
        let count = float_widths::f32_from_u64((i + 1) as u64);
        dst[i] = ramp.sample(dst[i], src[i], count);
    }
}

// Adds src to dst at gains that go linearly from g0, not reached, to g1. Samples past the shorter of the two stay, bit by bit.
// Free to the program: the sign and payload of a NaN in a ramped sample. Every choice is a NaN, and a quiet one, since a ramped sample is a sum.
pub fn ramp_add(dst: &mut [f32], src: &[f32], g0: f32, g1: f32)
    ensures { dst.new ≡ ramp_add_of dst.old src.now g0 g1 }
{
    let n = dst.len().min(src.len());
    let dst = &mut dst[..n];
    let src = &src[..n];
    if g0 == g1 {
        steady(dst, src, g1);
        return;
    }
    let step = (g1 - g0) / float_widths::f32_from_u64(n.max(1) as u64);
    let ramp = Ramp { g0, step };
    let done = by_eights(&mut *dst, src, ramp);
    one_by_one(dst, src, done, ramp);
}
