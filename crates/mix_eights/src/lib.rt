// Eight samples of a ramp at once, and their counts: all are read before any is stored, so that they are computed side by side.
// Origin of 8: two vectors of four 32-bit floats. Any number serves: what a ramp promises does not depend on it.
// Free to the program: the sign and payload of a NaN in a sample. Every choice is a NaN, and a quiet one, since a sample is a sum.
#![tactic(auto)]

ghost use Rattle.std.specs.Prelude.{◌≡◌, ◌+◌, ◌≤◌, length, get_or, set};
ghost use mathlib.Core.List.{map, foldl};
ghost use Rattle.std.specs.Float.{nan, binary32};
ghost use Rattle.std.specs.Float.Ieee.{add};
ghost use Rattle.lists.specs.Lists.{range};
ghost use Rattle.mix_eights.specs.Inner.Eights.{8·0, sample_of};

use std::array;

// The eight samples from i on.
pub fn load(s: &[f32], i: usize) -> [f32; 8]
    requires { i + 8 ≤ length s.now }
    ensures { result ≡ map (λ k. get_or s.now (i + k) nan) (range 8) }
{
    array::from_fn(|k| s[i + k])
}

// Eight samples, stored from i on. Place by place: with `copy_from_slice` here and in `load` a moving ramp takes twice the time.
pub fn store(d: &mut [f32], i: usize, v: [f32; 8])
    requires { i + 8 ≤ length d.old }
    ensures { d.new ≡ foldl (λ l k. set l (i + k) (get_or v k nan)) d.old (range 8) }
{
    for (k, x) in v.iter().enumerate() {
        d[i + k] = *x;
    }
}

// A gain that ramps linearly: g0 at count 0, and step more at each count.
#[derive(Clone, Copy)]
pub struct Ramp {
    pub g0: f32,
    pub step: f32,
}

impl Ramp {
    // One sample at the gain of its count.
    #[tactic(auto, unfolding(crate::specs::Inner::Eights::sample_of))]
    pub fn sample(self, d: f32, s: f32, count: f32) -> f32
        ensures { result ≡ sample_of d s self.g0 self.step count }
    {
        d + s * (self.g0 + self.step * count)
    }

    // Eight samples at the gains of their counts.
    pub fn mixed(self, d: [f32; 8], s: [f32; 8], c: [f32; 8]) -> [f32; 8]
        ensures { result ≡ map (λ k. sample_of (get_or d k nan) (get_or s k nan) self.g0 self.step (get_or c k nan)) (range 8) }
    {
        array::from_fn(|k| self.sample(d[k], s[k], c[k]))
    }
}

// The counts of the next eight.
pub fn onward(c: [f32; 8]) -> [f32; 8]
    ensures { result ≡ map (λ k. add binary32 (get_or c k nan) 8·0) (range 8) }
{
    c.map(|x| x + 8.0)
}
