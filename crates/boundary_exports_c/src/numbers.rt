// The number work of each number of an array, for callers of C: the functions of `boundary_exports::numbers`, whose clauses they state again.
ghost use Rattle.std.specs.Prelude.{min, length};
ghost use Rattle.std.specs.Float.{binary32, binary64};
ghost use Rattle.float_widths.specs.Narrow.{narrow_of};
ghost use Rattle.float_root.specs.Root.{sqrt_of};
ghost use Rattle.float_sine.specs.Sine.{sin_of, cos_of};
ghost use Rattle.float_arctangent.specs.Arctangent.{atan2_of};
ghost use Rattle.boundary_arrays.specs.Arrays.{at, Filled};

// `boundary_exports::numbers::panner_narrow_all`.
#[unsafe(no_mangle)]
pub extern "C" fn panner_narrow_all(src: &[f64], dst: &mut [f32])
    ensures { Filled (min (length src.now) (length dst.old)) (λ i. narrow_of (at src.now i)) dst.old dst.new }
{
    boundary_exports::numbers::panner_narrow_all(src, dst)
}

// `boundary_exports::numbers::panner_sqrt32_all`.
#[unsafe(no_mangle)]
pub extern "C" fn panner_sqrt32_all(src: &[f32], dst: &mut [f32])
    ensures { Filled (min (length src.now) (length dst.old)) (λ i. sqrt_of binary32 (at src.now i)) dst.old dst.new }
{
    boundary_exports::numbers::panner_sqrt32_all(src, dst)
}

// `boundary_exports::numbers::panner_sqrt64_all`.
#[unsafe(no_mangle)]
pub extern "C" fn panner_sqrt64_all(src: &[f64], dst: &mut [f64])
    ensures { Filled (min (length src.now) (length dst.old)) (λ i. sqrt_of binary64 (at src.now i)) dst.old dst.new }
{
    boundary_exports::numbers::panner_sqrt64_all(src, dst)
}

// `boundary_exports::numbers::panner_sin_cos_all`.
#[unsafe(no_mangle)]
pub extern "C" fn panner_sin_cos_all(src: &[f64], sin: &mut [f64], cos: &mut [f64])
    ensures sines { Filled (min (length src.now) (min (length sin.old) (length cos.old))) (λ i. sin_of (at src.now i)) sin.old sin.new }
    ensures cosines { Filled (min (length src.now) (min (length sin.old) (length cos.old))) (λ i. cos_of (at src.now i)) cos.old cos.new }
{
    boundary_exports::numbers::panner_sin_cos_all(src, sin, cos)
}

// `boundary_exports::numbers::panner_atan2_all`.
#[unsafe(no_mangle)]
pub extern "C" fn panner_atan2_all(y: &[f64], x: &[f64], dst: &mut [f64])
    ensures { Filled (min (length y.now) (min (length x.now) (length dst.old))) (λ i. atan2_of (at y.now i) (at x.now i)) dst.old dst.new }
{
    boundary_exports::numbers::panner_atan2_all(y, x, dst)
}
