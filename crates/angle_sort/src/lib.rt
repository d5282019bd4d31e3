// A stable insertion sort by angle.
#![tactic(auto)]

ghost use Rattle.std.specs.Prelude.{◌≡◌, ◌≤◌, length};
ghost use Rattle.angle_sort.specs.Order.{sorted_of};
ghost use Rattle.angle_sort.specs.Inner.Front.{place_of};

// An angle and the number of what stands at it. It has a default for the unused places of a vector of fixed room.
#[derive(Clone, Copy, Default)]
pub struct Spot {
    pub angle: f64,
    pub number: usize,
}

// How many of the sorted spots stand before the first whose angle is above the given one.
fn place(sorted: &[Spot], angle: f64) -> usize
    ensures is { result ≡ place_of angle sorted.now }
    ensures within { result ≤ length sorted.now }
{
    let above = sorted.iter().position(|s| angle < s.angle);
    above.unwrap_or(sorted.len())
}

// The spots in ascending order of their angles, equals in the order in which they stand, sorted where they lie. std's stable sort asks for memory.
// Spot q goes to its place among those sorted so far, and what stood from there up to q one place on.
pub fn sort(spots: &mut [Spot])
    ensures { spots.new ≡ sorted_of spots.old }
{
    for q in 0..spots.len() {
        let angle = spots[q].angle;
        let p = place(&spots[..q], angle);
        spots[p..q + 1].rotate_right(1);
    }
}
