// The number work of each number of an array. A function stops at the end of its shortest slice.
// One function for each export: what they share is `fill_by`.
#![tactic(auto)]

ghost use Rattle.std.specs.Prelude.{◌≡◌, ℕ, ◌≤◌, ◌<◌, ◌++◌, min, length, map, drop};
ghost use Rattle.std.specs.Float.{binary32, binary64};
ghost use Rattle.float_widths.specs.Narrow.{narrow_of};
ghost use Rattle.float_root.specs.Root.{sqrt_of};
ghost use Rattle.float_sine.specs.Sine.{sin_of, cos_of};
ghost use Rattle.float_arctangent.specs.Arctangent.{atan2_of};
ghost use Rattle.mix_gain.specs.Mixed.{normalized_lerp_gain_of};
ghost use Rattle.lists.specs.Lists.{range};
ghost use Rattle.boundary_arrays.specs.Arrays.{at, Filled};

// Each place of dst, by what f answers at it.
fn fill_by<T: Copy, F: Fn(usize) -> T>(dst: &mut [T], f: F)
    requires { (i : ℕ) → i < length dst.old → F.pre f i }
    // whatever g says of f's answers
    ensures { (g : ℕ → T) → ((i : ℕ) (y : T) → i < length dst.old → F.post f i y → y ≡ g i) → dst.new ≡ map g (range (length dst.old)) }
{
    for (i, place) in dst.iter_mut().enumerate() {
        *place = f(i);
    }
}

pub fn narrow_all(src: &[f64], dst: &mut [f32])
    ensures { Filled (min (length src.now) (length dst.old)) (λ i. narrow_of (at src.now i)) dst.old dst.new }
{
    let n = src.len().min(dst.len());
    fill_by(&mut dst[..n], |i| float_widths::narrow(src[i]));
}

pub fn sqrt32_all(src: &[f32], dst: &mut [f32])
    ensures { Filled (min (length src.now) (length dst.old)) (λ i. sqrt_of binary32 (at src.now i)) dst.old dst.new }
{
    let n = src.len().min(dst.len());
    fill_by(&mut dst[..n], |i| float_root::sqrt32(src[i]));
}

pub fn sqrt64_all(src: &[f64], dst: &mut [f64])
    ensures { Filled (min (length src.now) (length dst.old)) (λ i. sqrt_of binary64 (at src.now i)) dst.old dst.new }
{
    let n = src.len().min(dst.len());
    fill_by(&mut dst[..n], |i| float_root::sqrt64(src[i]));
}

// Sine and cosine of each value. By the place: one call gives both, and after `iter_mut().zip(..)` a proof knows nothing of the elements.
pub fn sin_cos_all(src: &[f64], sin: &mut [f64], cos: &mut [f64])
    ensures sines { Filled (min (length src.now) (min (length sin.old) (length cos.old))) (λ i. sin_of (at src.now i)) sin.old sin.new }
    ensures cosines { Filled (min (length src.now) (min (length sin.old) (length cos.old))) (λ i. cos_of (at src.now i)) cos.old cos.new }
{
    let n = src.len().min(sin.len().min(cos.len()));
    for i in 0..n {
        let r = float_sine::sin_cos(src[i]);
        sin[i] = r.sin;
        cos[i] = r.cos;
    }
}

// The angle of each point, y before x.
pub fn atan2_all(y: &[f64], x: &[f64], dst: &mut [f64])
    ensures { Filled (min (length y.now) (min (length x.now) (length dst.old))) (λ i. atan2_of (at y.now i) (at x.now i)) dst.old dst.new }
{
    let n = y.len().min(x.len().min(dst.len()));
    fill_by(&mut dst[..n], |i| float_arctangent::atan2(y[i], x[i]));
}

// The mixed gain of each four numbers.
pub fn normalized_lerp_gain_all(from: &[f32], to: &[f32], dot: &[f32], t: &[f32], dst: &mut [f32])
    ensures { Filled (min (min (length from.now) (length to.now)) (min (min (length dot.now) (length t.now)) (length dst.old))) (λ i. normalized_lerp_gain_of (at from.now i) (at to.now i) (at dot.now i) (at t.now i)) dst.old dst.new }
{
    let n = from
        .len()
        .min(to.len())
        .min(dot.len().min(t.len()).min(dst.len()));
    fill_by(
        &mut dst[..n],
        |i| mix_gain::normalized_lerp_gain(from[i], to[i], dot[i], t[i]),
    );
}
