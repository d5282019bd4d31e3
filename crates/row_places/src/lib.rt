// The places of a row: a place beyond its end is none. Document 01, "A row"; source lines 460 to 583 (the source's `if slot < n`).
#![tactic(auto)]

ghost use Rattle.std.specs.Prelude.{◌≡◌, length, set, replicate};
ghost use Rattle.float_order.specs.Values.{+0};
ghost use Rattle.row_places.specs.Places.{add_at};

// +0 in every place.
pub fn zero(row: &mut [f32])
    ensures { row.new ≡ replicate (length row.old) +0 }
{
    row.fill(0.0);
}

// The gain v in one place.
pub fn put(row: &mut [f32], slot: u8, v: f32)
    ensures { row.new ≡ set row.old slot v }
{
    // not by `get_mut`: after it a proof knows a slice's length and none of its elements
    let i = slot as usize;
    if i < row.len() {
        row[i] = v;
    }
}

// The gain v added to what one place has.
#[tactic(auto, unfolding(crate::specs::Places::add_at))]
pub fn add_at(row: &mut [f32], slot: u8, v: f32)
    ensures { row.new ≡ add_at row.old slot v }
{
    // not by `get_mut`, as `put`
    let i = slot as usize;
    if i < row.len() {
        row[i] += v;
    }
}
