// Open: document 01, "Returned numbers" 1 to 4, and the fresh session of "Session".
#![tactic(auto)]

ghost use Rattle.std.specs.Prelude.{◌≡◌};
ghost use Rattle.refusals.specs.Refusals.{number_of};
ghost use Rattle.session_open.specs.Open.{fresh, early, open_answer, open_of};

use layout_record::VbapPanner;
use mix_block::{GAINS, SOURCES};
use refusals::Refusal;
use session_calls::Session;
use session_standing::PLACES;

// How many imaginary points were made, and the session.
#[derive(Clone, Copy)]
pub struct Opened {
    pub imaginary: usize,
    pub session: Session,
}

// A fresh session: empty lists, start rows of +0.
#[tactic(auto, unfolding(crate::specs::Open::fresh))]
fn fresh(panner: VbapPanner, sources: u8) -> Session
    ensures { result ≡ fresh panner sources }
{
    Session {
        panner,
        sources,
        counts: [0; SOURCES],
        standing: [0.0; PLACES],
        starts: [0.0; GAINS],
    }
}

// Whether the layout is refused with a number below that of the sources.
fn refused_first(why: Refusal) -> bool
    ensures { result ≡ early (number_of why) }
{
    matches!(why, Refusal::NotTriples | Refusal::TooManyPositions)
}

// A fresh session over the layout of the positions. Origin of at least 1 source: document 01, refusal 3; 1, 2 and 4 are the layout's.
pub fn open(positions: &[f32], lfe: &[usize], sources: usize) -> Result<Opened, Refusal>
    ensures { open_answer result ≡ open_of positions.now lfe.now sources }
{
    let made = layout_new::new(positions, lfe);
    match made {
        Err(why) if refused_first(why) => Err(why),
        _ if !(1..=SOURCES).contains(&sources) => Err(Refusal::NoSuchCount),
        Err(why) => Err(why),
        Ok(made) => Ok(Opened {
            imaginary: made.imaginary,
            session: fresh(made.panner, sources as u8),
        }),
    }
}
