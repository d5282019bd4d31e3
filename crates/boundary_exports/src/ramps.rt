// The mixed gain and the ramp. A NaN among the gains and the ramped samples is computed: its sign and payload are the program's choice,
// and each is a quiet NaN. Samples behind the shorter slice keep their bits.
ghost use Rattle.std.specs.Prelude.{◌≡◌, min, length};
ghost use Rattle.mix_gain.specs.Mixed.{normalized_lerp_gain_of};
ghost use Rattle.mix_ramp.specs.Ramp.{ramp_add_of};
ghost use Rattle.boundary_arrays.specs.Arrays.{at, Filled};

pub fn panner_normalized_lerp_gain(from: f32, to: f32, dot: f32, t: f32) -> f32
    ensures { result ≡ normalized_lerp_gain_of from to dot t }
{
    mix_gain::normalized_lerp_gain(from, to, dot, t)
}

// The gain of each four numbers.
pub fn panner_normalized_lerp_gain_all(
    from: &[f32],
    to: &[f32],
    dot: &[f32],
    t: &[f32],
    dst: &mut [f32],
)
    ensures { Filled (min (min (length from.now) (length to.now)) (min (min (length dot.now) (length t.now)) (length dst.old))) (λ i. normalized_lerp_gain_of (at from.now i) (at to.now i) (at dot.now i) (at t.now i)) dst.old dst.new }
{
    boundary_arrays::normalized_lerp_gain_all(from, to, dot, t, dst)
}

pub fn panner_ramp_add(dst: &mut [f32], src: &[f32], g0: f32, g1: f32)
    ensures { dst.new ≡ ramp_add_of dst.old src.now g0 g1 }
{
    mix_ramp::ramp_add(dst, src, g0, g1)
}
