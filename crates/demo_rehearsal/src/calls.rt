// Calls on a session: what each one answers, and what the session holds then.
use crate::angles::Direction;
use crate::decimals::Decimal;
use crate::rows::gains_of;
use crate::words::answer;
use mix_block::ROW;
use refusals::Refusal;
use session_calls::Session;
use session_standing::WIDTH;
use std::io;

// A block of the rehearsal, in samples.
const BLOCK: usize = 4;

// What its buffer of outputs holds: 25 outputs of a block.
pub const HEARD: usize = 100;

// ---- a call on a line

// The answer of a call on no source. Origin of 89: the widths of the columns before it, 34 + 7 + 9 + 11 + 14 + 11 and 3 blanks.
pub fn told<T>(rt: &impl Print, call: &str, a: &Result<T, Refusal>) -> io::Result<()> {
    print!(rt; "{call:89}")?;
    answer(rt, a)
}

pub fn place(
    rt: &impl Print,
    s: Session,
    source: usize,
    direction: Direction,
) -> io::Result<Session> {
    let (az, el) = direction.radians();
    let placed = session_calls::place(s, source, az, el);
    print!(rt; "place                             {source:7}{direction}   ")?;
    answer(rt, &placed)?;
    Ok(placed.unwrap_or(s))
}

// The answer of a call on a source that has no direction: the session stays where it is refused.
fn left(
    rt: &impl Print,
    call: &str,
    source: usize,
    s: Session,
    a: Result<Session, Refusal>,
) -> io::Result<Session> {
    print!(rt; "{call:34}{source:7}{:48}", "")?;
    answer(rt, &a)?;
    Ok(a.unwrap_or(s))
}

pub fn take_back(rt: &impl Print, s: Session, source: usize) -> io::Result<Session> {
    left(
        rt,
        "take back",
        source,
        s,
        session_calls::take_back(s, source),
    )
}

pub fn settle(rt: &impl Print, s: Session, source: usize) -> io::Result<Session> {
    left(rt, "settle", source, s, session_calls::settle(s, source))
}

// ---- render

// A block of two sources, 1 throughout and 0.5 throughout: the outputs in which something sounds.
pub fn render(rt: &impl Print, s: Session) -> io::Result<Session> {
    let samples = [1.0, 1.0, 1.0, 1.0, 0.5, 0.5, 0.5, 0.5];
    let mut out = [0.0; HEARD];
    let rendered = session_render::render(s, BLOCK, &samples, &mut out);
    told(rt, "render 4 samples", &rendered)?;
    for (slot, heard) in out.chunks_exact(BLOCK).enumerate() {
        if heard.iter().all(|x| *x == 0.0) {
            continue;
        }
        print!(rt; "    output {slot:2}")?;
        for x in heard {
            print!(rt; "{:10.6}", Decimal(*x))?;
        }
        println!(rt; "")?;
    }
    Ok(rendered.unwrap_or(s))
}

// ---- what a session holds

// The standing directions of each source, as they are held, and its start row.
pub fn holds(rt: &impl Print, s: &Session) -> io::Result<()> {
    let lists = s
        .standing
        .chunks_exact(WIDTH)
        .zip(s.starts.chunks_exact(ROW));
    for (i, (count, (standing, row))) in s
        .counts
        .iter()
        .zip(lists)
        .take(usize::from(s.sources))
        .enumerate()
    {
        println!(rt; "source {i}: standing directions{count:3}")?;
        for direction in standing.chunks_exact(2).take(usize::from(*count)) {
            // std has no `as_chunks` of a lent slice
            if let [az, el] = direction {
                println!(rt; "    direction {:11.6}{:11.6}", Decimal(*az), Decimal(*el))?;
            }
        }
        print!(rt; "    start row")?;
        gains_of(rt, row, 13)?;
    }
    Ok(())
}
