// The lines that set a layout. A malformed one sets it too: it is read to its end.
use crate::Got;
use layout_record::{VbapPanner, no_panner};
use test_lines::Words;
use test_lines::report::Difference;

// A layout that `layout_new::new` makes of the positions and the LFE entries of a line.
pub fn layout(words: &mut Words<'_>, panner: &mut VbapPanner) -> Result<(), Difference<Got>> {
    let mut positions = [0.0f32; 255];
    let mut lfe = [0usize; 64];
    words.read_on();
    let positions = words.list(&mut positions)?;
    let lfe = words.list(&mut lfe)?;
    let answer = layout_new::new(positions, lfe);
    *panner = match &answer {
        Ok(made) => made.panner,
        Err(_) => no_panner(),
    };
    words.end()?;
    match answer {
        Ok(_) => Ok(()),
        Err(why) => Err(Difference::At(Got::Number(why.number()))),
    }
}

// A layout made by hand.
pub fn record(words: &mut Words<'_>, panner: &mut VbapPanner) -> Result<(), Difference<Got>> {
    words.read_on();
    *panner = test_record_words::record::record(words)?;
    Ok(words.end()?)
}
