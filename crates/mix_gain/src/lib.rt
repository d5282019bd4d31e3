// The mixed gain: document 01, "The ramp and the mixed gain follow S"; source lines 143 to 153.
#![tactic(auto)]

ghost use Rattle.std.specs.Prelude.{◌≡◌};
ghost use Rattle.mix_gain.specs.Mixed.{norm_sq_of, normalized_lerp_gain_of};

// Origin: vbap.rs line 152; 2b8cbccc. The squared norm of a mix is raised to it, so that nothing is divided by the root of 0.
const LEAST_MIX_NORM_SQ: f32 = 1e-12;

// The squared norm of the mix at t of two rows with this dot product.
fn norm_sq(t: f32, dot: f32) -> f32
    ensures { result ≡ norm_sq_of t dot }
{
    let u = 1.0 - t;
    let d = float_order::clamp(dot);
    u * u + t * t + 2.0 * t * u * d
}

// The gain between two rows' gains at t, without a power dip.
// Free to the program: the sign and payload of a NaN. Every choice is a NaN, and a quiet one, since the gain is a quotient.
pub fn normalized_lerp_gain(from: f32, to: f32, dot: f32, t: f32) -> f32
    ensures { result ≡ normalized_lerp_gain_of from to dot t }
{
    let at = float_order::clamp(t);
    (from + (to - from) * at)
        / float_root::sqrt32(float_order::max(norm_sq(at, dot), LEAST_MIX_NORM_SQ))
}
