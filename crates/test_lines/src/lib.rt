// A list of cases: lines of words. docs/CASES.md has the format.
#![tactic(auto)]

pub mod lines;
pub mod report;
pub mod values;

ghost use Rattle.std.specs.Prelude.{◌≡◌, MatchOption, IfOk, ◌<◌, ◌≤◌, length};
ghost use Rattle.test_lines.specs.Words.{digit_of, number_of, span_to, is_name_byte, all_name, kind_of, word_at};
ghost use Rattle.test_lines.specs.declared.Reading.TheVariants.{Strict, On};

use crate::report::Tally;

// What a word is.
#[derive(Clone, Copy)]
pub enum Word {
    // the value of its hexadecimal digits, and how many there are
    Number(u64, usize),
    Nan,
    // a name, from an index of the line to another
    Name(usize, usize),
    End,
    Bad,
}

// The words of a line are not as they have to be.
#[derive(Clone, Copy, Debug, PartialEq, Eq)]
pub struct Malformed;

// Whether the arguments behind a malformed one are read.
#[derive(Clone, Copy)]
pub enum Reading {
    Strict,
    // they are, and none was malformed so far
    On,
    // they are, and one was
    Behind,
}

// The words of a line that are left: those from an index on. Past the line's end there is none.
#[derive(Clone, Copy)]
pub struct Words<'a> {
    pub line: &'a [u8],
    pub at: usize,
    pub reading: Reading,
}

// The value of a lower-case hexadecimal digit. No to_digit of std: it takes capitals too.
fn digit(c: u8) -> Option<u64>
    ensures { MatchOption result (digit_of c ≡ 16) (λ d. (d ≡ digit_of c) × (d < 16)) }
{
    match c {
        b'0'..=b'9' => Some((c - b'0') as u64),
        b'a'..=b'f' => Some((c - b'a' + 10) as u64),
        _ => None,
    }
}

// The value of a word of 1 to 16 lower-case hexadecimal digits.
pub fn number(w: &[u8]) -> Option<u64>
    ensures { result ≡ number_of w.now }
{
    if w.is_empty() {
        return None;
    }
    if w.len() > 16 {
        return None;
    }
    let mut value: u64 = 0;
    for c in w {
        let d = digit(*c)?;
        value = value * 16 + d;
    }
    Some(value)
}

// How many bytes stand before the first blank.
fn span(s: &[u8]) -> usize
    ensures word { result ≡ span_to 32 s.now }
    ensures within { result ≤ length s.now }
{
    s.iter().position(|c| *c == b' ').unwrap_or(s.len())
}

// Whether a byte may stand in a name: a lower-case letter, a digit or _.
fn is_name_byte(c: u8) -> bool
    ensures { result ≡ is_name_byte c }
{
    matches!(c, b'0'..=b'9' | b'_' | b'a'..=b'z')
}

fn is_name(w: &[u8]) -> bool
    ensures { result ≡ all_name w.now }
{
    w.iter().all(|c| is_name_byte(*c))
}

// What the word w is, that stands from an index of a line to another.
fn kind(w: &[u8], from: usize, to: usize) -> Word
    ensures { result ≡ kind_of w.now from to }
{
    if w.is_empty() {
        return Word::Bad;
    }
    if w == b"nan".as_slice() {
        return Word::Nan;
    }
    match number(w) {
        Some(v) => Word::Number(v, w.len()),
        None if is_name(w) => Word::Name(from, to),
        None => Word::Bad,
    }
}

impl<'a> Words<'a> {
    // All words of a line.
    pub fn of(line: &'a [u8]) -> Words<'a>
        ensures { (result.line.now ≡ line.now) × (result.at ≡ 0) × (result.reading ≡ Strict) }
    {
        Words {
            line,
            at: 0,
            reading: Reading::Strict,
        }
    }

    // From here on the arguments behind a malformed one are read too, and `end` tells of it.
    pub fn read_on(&mut self)
        ensures { (self.new.line ≡ self.old.line) × (self.new.at ≡ self.old.at) × (self.new.reading ≡ On) }
    {
        self.reading = Reading::On;
    }

    // An argument is malformed: what stands in for it, where those behind it are read.
    fn malformed<T: Copy>(&mut self, instead: T) -> Result<T, Malformed>
        ensures { IfOk result (λ x. x ≡ instead) }
    {
        match self.reading {
            Reading::Strict => Err(Malformed),
            Reading::On | Reading::Behind => {
                self.reading = Reading::Behind;
                Ok(instead)
            }
        }
    }

    // The next word.
    pub fn next(&mut self) -> Word
        ensures word { result ≡ (word_at self.old.line.now self.old.at).word }
        ensures rest { self.new.at ≡ (word_at self.old.line.now self.old.at).next }
        ensures line { self.new.line ≡ self.old.line }
    {
        let line = self.line;
        let at = self.at;
        if at > line.len() {
            return Word::End;
        }
        let to = at + span(&line[at..]);
        self.at = to + 1;
        kind(&line[at..to], at, to)
    }

    // The next word, which has to be a name.
    pub fn name(&mut self) -> Result<&'a [u8], Malformed> {
        match self.next() {
            Word::Name(from, to) => self.line.get(from..to).ok_or(Malformed),
            _ => Err(Malformed),
        }
    }

    // The tally of the name that is the next word.
    pub fn tally_of<'t, T>(
        &mut self,
        tallies: &'t mut [Tally<T>],
    ) -> Result<&'t mut Tally<T>, Malformed> {
        let name = self.name()?;
        tallies
            .iter_mut()
            .find(|tally| tally.name.as_bytes() == name)
            .ok_or(Malformed)
    }

    // What the name that is the next word stands for; the line counts for it.
    pub fn counted<T: Copy>(&mut self, tallies: &mut [Tally<T>]) -> Result<T, Malformed> {
        let tally = self.tally_of(tallies)?;
        tally.add();
        Ok(tally.of)
    }

    // No word may be left, and no argument may have been malformed.
    pub fn end(&mut self) -> Result<(), Malformed> {
        match (self.next(), self.reading) {
            (Word::End, Reading::Strict | Reading::On) => Ok(()),
            _ => Err(Malformed),
        }
    }
}
