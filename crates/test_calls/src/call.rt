// The calls of lists: the words of each, the call itself, and what it answered.
ghost use Rattle.std.specs.Prelude.{◌≡◌};
ghost use Rattle.session_open.specs.Open.{no_session};

use crate::ending::check_end;
use crate::given;
use crate::report::{COUNT, Got, NUMBERS, Name, tallies};
use layout_record::no_panner;
use mix_block::{GAINS, SOURCES};
use refusals::{Refusal, number_in};
use session_calls::Session;
use session_open::Opened;
use session_standing::PLACES;
use test_call_words::draws::Draws;
use test_call_words::sums::Sum;
use test_lines::report::{Difference, Tally};
use test_lines::{Malformed, Words};

// The list at hand, and what all lists come to.
#[derive(Clone, Copy)]
pub struct Calls {
    // not within the Option: a malformed open begins a list too, on the session that stood before
    session: Session,
    // of what the calls of the list answered, where a list has begun
    sum: Option<Sum>,
    // how many lines there were of each name
    pub tallies: [Tally<Name>; COUNT],
    // how often each number was answered, in all lists
    pub numbers: [u64; NUMBERS],
}

// The number that a line ends with.
fn told(words: &mut Words<'_>) -> Result<u64, Malformed> {
    let number = words.read()?;
    words.end()?;
    Ok(number)
}

fn check_number(got: u32, told: u64) -> Result<(), Difference<Got>> {
    Difference::unless(u64::from(got) == told, Got::Number(got))
}

// The session after a refused open, which gives none: every call on it is refused.
#[tactic(auto, unfolding(session_open::specs::Open::no_session, session_open::specs::Open::fresh))]
fn no_session() -> Session
    ensures { result ≡ no_session }
{
    Session {
        panner: no_panner(),
        sources: 0,
        counts: [0; SOURCES],
        standing: [0.0; PLACES],
        starts: [0.0; GAINS],
    }
}

impl Calls {
    // No list has begun.
    pub fn none() -> Calls {
        Calls {
            session: no_session(),
            sum: None,
            tallies: tallies(),
            numbers: [0; NUMBERS],
        }
    }

    pub fn is_begun(&self) -> bool {
        self.sum.is_some()
    }

    // The sum so far, of a list that this line may begin.
    fn begun(&mut self) -> Sum {
        let sum = self.sum.unwrap_or(Sum::start());
        self.sum = Some(sum);
        sum
    }

    // The sum so far, of a list that has begun.
    fn listed(&self) -> Result<Sum, Malformed> {
        self.sum.ok_or(Malformed)
    }

    // Counts a number that was answered, and adds it to a sum.
    fn count(&mut self, sum: &mut Sum, number: u32) {
        sum.word(u64::from(number));
        if let Some(count) = self.numbers.get_mut(number as usize) {
            *count = count.wrapping_add(1);
        }
    }

    // After a call that answers a session, with the number that the line says.
    fn answered(&mut self, a: Result<Session, Refusal>, told: u64) -> Result<(), Difference<Got>> {
        let mut sum = self.listed()?;
        let number = number_in(&a);
        self.count(&mut sum, number);
        self.sum = Some(sum);
        // An Err holds no session, so a refused call can change none.
        if let Ok(session) = a {
            self.session = session;
        }
        check_number(number, told)
    }

    // ---- the session is set

    pub fn open(&mut self, words: &mut Words<'_>) -> Result<(), Difference<Got>> {
        let mut sum = self.begun();
        let mut positions = [0.0f32; 255];
        let mut lfe = [0usize; 64];
        let positions = words.list(&mut positions)?;
        let lfe = words.list(&mut lfe)?;
        let sources = words.read()?;
        let number: u64 = words.read()?;
        let imaginary = told(words)?;
        let answer = session_open::open(positions, lfe, sources);
        let got = number_in(&answer);
        // An Err holds no session and no count of imaginary points: the list has 0 for the count, and the calls that follow are made on `no_session`.
        let opened = answer.unwrap_or(Opened {
            imaginary: 0,
            session: no_session(),
        });
        self.count(&mut sum, got);
        sum.word(opened.imaginary as u64);
        self.sum = Some(sum);
        self.session = opened.session;
        check_number(got, number)?;
        if opened.imaginary as u64 != imaginary {
            return Err(Difference::At(Got::Imaginary(opened.imaginary)));
        }
        Ok(())
    }

    // A session made by hand is taken as it stands: there is no call.
    pub fn give(&mut self, words: &mut Words<'_>) -> Result<(), Difference<Got>> {
        let _ = self.begun();
        let session = given::session(words)?;
        words.end()?;
        self.session = session;
        Ok(())
    }

    // ---- calls on it

    pub fn place(&mut self, words: &mut Words<'_>) -> Result<(), Difference<Got>> {
        let source = words.read()?;
        let az = words.read()?;
        let el = words.read()?;
        let told = told(words)?;
        let _ = self.listed()?;
        self.answered(session_calls::place(self.session, source, az, el), told)
    }

    // A call on a source that has no direction.
    pub fn on_source<F: Fn(Session, usize) -> Result<Session, Refusal>>(
        &mut self,
        words: &mut Words<'_>,
        call: F,
    ) -> Result<(), Difference<Got>>
        requires { F.IsAlwaysCallable call }
    {
        let source = words.read()?;
        let told = told(words)?;
        let _ = self.listed()?;
        self.answered(call(self.session, source), told)
    }

    // No struct of the two buffers: the borrow checker does not cover two fields that are lent behind one reference.
    // With draws in two lent buffers, all that the line asks for. Every float of the output buffer counts in the sum.
    pub fn render(
        &mut self,
        words: &mut Words<'_>,
        samples: &mut [f32],
        outputs: &mut [f32],
    ) -> Result<(), Difference<Got>> {
        let block = words.read()?;
        let n = words.up_to(samples.len())?;
        let m = words.up_to(outputs.len())?;
        let seed = words.read()?;
        let told = told(words)?;
        let _ = self.listed()?;
        let samples = &mut samples[..n];
        let outputs = &mut outputs[..m];
        let mut draws = Draws::from_seed(seed);
        draws.fill(samples);
        draws.fill(outputs);
        let a = session_render::render(self.session, block, samples, outputs);
        let outcome = self.answered(a, told);
        if let Some(sum) = &mut self.sum {
            sum.all(outputs);
        }
        outcome
    }

    // The end of a list.
    pub fn end(&mut self, words: &mut Words<'_>) -> Result<(), Difference<Got>> {
        let sum = self.listed()?;
        self.sum = None;
        check_end(words, &self.session, sum)
    }
}
