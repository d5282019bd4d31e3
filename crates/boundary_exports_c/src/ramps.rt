// The mixed gain and the ramp, for callers of C: the functions of `boundary_exports::ramps`, whose clauses they state again.
ghost use Rattle.std.specs.Prelude.{◌≡◌, min, length};
ghost use Rattle.mix_gain.specs.Mixed.{normalized_lerp_gain_of};
ghost use Rattle.mix_ramp.specs.Ramp.{ramp_add_of};
ghost use Rattle.boundary_arrays.specs.Arrays.{at, Filled};

// `boundary_exports::ramps::panner_normalized_lerp_gain`.
#[unsafe(no_mangle)]
pub extern "C" fn panner_normalized_lerp_gain(from: f32, to: f32, dot: f32, t: f32) -> f32
    ensures { result ≡ normalized_lerp_gain_of from to dot t }
{
    boundary_exports::ramps::panner_normalized_lerp_gain(from, to, dot, t)
}

// `boundary_exports::ramps::panner_normalized_lerp_gain_all`.
#[unsafe(no_mangle)]
pub extern "C" fn panner_normalized_lerp_gain_all(
    from: &[f32],
    to: &[f32],
    dot: &[f32],
    t: &[f32],
    dst: &mut [f32],
)
    ensures { Filled (min (min (length from.now) (length to.now)) (min (min (length dot.now) (length t.now)) (length dst.old))) (λ i. normalized_lerp_gain_of (at from.now i) (at to.now i) (at dot.now i) (at t.now i)) dst.old dst.new }
{
    boundary_exports::ramps::panner_normalized_lerp_gain_all(from, to, dot, t, dst)
}

// `boundary_exports::ramps::panner_ramp_add`.
#[unsafe(no_mangle)]
pub extern "C" fn panner_ramp_add(dst: &mut [f32], src: &[f32], g0: f32, g1: f32)
    ensures { dst.new ≡ ramp_add_of dst.old src.now g0 g1 }
{
    boundary_exports::ramps::panner_ramp_add(dst, src, g0, g1)
}
