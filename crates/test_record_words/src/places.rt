// Floats of which a line lists the places that are not +0.
use test_lines::values::{Form, Role, Value};
use test_lines::{Malformed, Words};

// The places that are listed, rising, and the float at each, which is not +0.
pub fn places(words: &mut Words<'_>, to: &mut [Value], role: Role) -> Result<(), Malformed> {
    let count = words.up_to(to.len())?;
    let mut from = 0;
    for _ in 0..count {
        let place: usize = words.read()?;
        let value = words.take(Form::Single, role)?;
        if place < from || place >= to.len() || value == Value::Bits(0) {
            return Err(Malformed);
        }
        to[place] = value;
        from = place + 1;
    }
    Ok(())
}
