// Parts of arrays, copied. An element is copied and not computed with, so that a NaN keeps its bits.
ghost use Rattle.std.specs.Prelude.{◌≡◌, ◌+◌, ◌≤◌, length, take, drop};
ghost use Rattle.boundary_records.specs.Inner.Pasted.{Pasted};

use std::array;

// All of `from` into the places from `at` on.
pub fn put<T: Copy>(from: &[T], to: &mut [T], at: usize)
    requires { at + length from.now ≤ length to.old }
    ensures { Pasted to.old at from.now (length from.now) to.new }
{
    to[at..at + from.len()].copy_from_slice(from);
}

// The N elements from `at` on.
pub fn section<T: Copy, const N: usize>(from: &[T], at: usize) -> [T; N]
    requires { at + N ≤ length from.now }
    ensures { result ≡ take N (drop at from.now) }
{
    array::from_fn(|i| from[at + i])
}
