// The loops over the sources and slots of a block.
ghost use Rattle.std.specs.Prelude.{◌≡◌, ◌*◌, ◌<◌, length};
ghost use mathlib.Core.List.{foldl};
ghost use Rattle.lists.specs.Lists.{range};
ghost use Rattle.mix_block.specs.Inner.Turns.{ramp_part, ramp_source};

use crate::{Block, ROW};

impl<'a> Block<'a> {
    // For each slot ascending, the samples of source i ramped from its gain in `from` to its gain in `to`.
    fn mix_source(self, i: usize, out: &mut [f32])
        requires { (i < self.sources) × (length out.old ≡ self.outputs * self.block) }
        ensures { out.new ≡ foldl (ramp_part self.entry i) out.old (range self.entry.outputs) }
    {
        let block = self.block;
        let b = i * block;
        let source = &self.samples[b..b + block];
        for o in 0..self.outputs {
            let k = i * ROW + o;
            let a = o * block;
            mix_ramp::ramp_add(&mut out[a..a + block], source, self.from[k], self.to[k]);
        }
    }

    // For each source ascending.
    pub fn mix(self, out: &mut [f32])
        requires { length out.old ≡ self.outputs * self.block }
        ensures { out.new ≡ foldl (ramp_source self.entry) out.old (range self.entry.sources) }
    {
        for i in 0..self.sources {
            self.mix_source(i, out);
        }
    }
}
