// Active speakers in an array.

ghost use Rattle.std.specs.Prelude.{◌≡◌, true, List, [], ◌∷◌, ◌++◌, map, ltb, ◌<◌, ◌≤◌, length};
ghost use mathlib.Core.List.{flat_map};
ghost use Rattle.lists.specs.Lists.{every, filled};
ghost use Rattle.float_order.specs.Values.{+0};
ghost use Rattle.float_widths.specs.Narrow.{narrow_of};
ghost use Rattle.vector.specs.Speakers.{slots_of, dirs_of};
ghost use Rattle.layout_new.specs.Layout.{level};

use std::marker::Model;
use vector::Speaker;

// The sine of PLANAR_MAX_ELEVATION, 0.0873 in 32 bits; speakers within this height of the horizon count as planar.
// Origin: vbap.rs lines 52 and 206; the sine by document 01's steps.
const PLANAR_MAX_HEIGHT: f64 = 0.08718915504410238;

// A direction in 32 bits.
fn direction32(d: [f64; 3]) -> [f32; 3]
    ensures { result ≡ map narrow_of d }
{
    d.map(|x| float_widths::narrow(x))
}

// Active speakers, and how many of the array's places they take: memory is fixed. A contract sees the list of speakers.
// Origin of 40: document 01, refusal 2.
#[derive(Drop)]
pub struct ActiveSpeakers {
    all: [Speaker; 40],
    count: usize,
}

impl Model for ActiveSpeakers {
    ghost use Rattle.std.specs.Prelude.{◌≡◌, ◌≤◌, true, List, ltb, take};
    ghost use Rattle.lists.specs.Lists.{every};
    ghost use Rattle.vector.specs.declared.Speaker.{Speaker};

    ghost Value = { List Speaker };

    ghost view = { λ a. take a.count a.all };

    ghost invariant = { λ a. (a.count ≤ 40) × (every (λ s. ltb s.slot 40) (take a.count a.all) ≡ true) };
}

impl ActiveSpeakers {
    pub fn none() -> ActiveSpeakers
        ensures { result ≡ [] }
    {
        let blank = Speaker {
            slot: 0,
            dir: [0.0; 3],
        };
        ActiveSpeakers {
            all: [blank; 40],
            count: 0,
        }
    }

    // One speaker more.
    pub fn push(&mut self, s: Speaker)
        requires { (length self.old < 40) × (s.slot < 40) }
        ensures { self.new ≡ self.old ++ s ∷ [] }
    {
        self.all[self.count] = s;
        self.count += 1;
    }

    // The places that they take.
    pub fn used(&self) -> &[Speaker]
        ensures are { result.now ≡ self.now }
        ensures few { length result.now ≤ 40 }
        ensures low { every (λ s. ltb s.slot 40) result.now ≡ true }
    {
        &self.all[..self.count]
    }

    // Whether all are level: |height| at most the sine of 0.0873.
    pub fn all_level(&self) -> bool
        ensures { result ≡ every level self.now }
    {
        self.used()
            .iter()
            .all(|s| float_order::abs(s.dir[1]) <= PLANAR_MAX_HEIGHT)
    }

    // Their slots, with 0 behind.
    pub fn slots(&self) -> [u8; 40]
        ensures { result ≡ filled 40 0 (slots_of self.now) }
    {
        let mut r = [0u8; 40];
        for (i, s) in self.used().iter().enumerate() {
            r[i] = s.slot;
        }
        r
    }

    // Their directions in 32 bits, with +0 behind.
    pub fn narrowed(&self) -> [f32; 120]
        ensures { result ≡ filled 120 +0 (flat_map (λ d. d) (map (map narrow_of) (dirs_of self.now))) }
    {
        let mut r = [0.0f32; 120];
        for (i, s) in self.used().iter().enumerate() {
            r[i * 3..i * 3 + 3].copy_from_slice(&direction32(s.dir));
        }
        r
    }
}
