// The lines of a list, one after the other. docs/CASES.md, "Lines".
ghost use Rattle.std.specs.Prelude.{◌≡◌, ◌-◌, ◌^◌, ◌≤◌, true, false, length, MatchOption, MatchResult};

use crate::report::{Difference, Differences};
use crate::{Malformed, Words};
use std::fmt;
use std::io::Read;

// The bytes that a line may have, with its line feed, and those of the buffer that holds it. Origin: docs/CASES.md, "Lines".
const LONGEST: usize = 65536;

// Which line is at hand, and what is left to read behind it.
#[derive(Clone, Copy)]
pub struct Lines {
    // a part of the buffer, with no line end, and the number of its line
    pub from: usize,
    pub to: usize,
    pub number: u64,
    // false where the buffer does not hold the line, or no line end came
    pub is_whole: bool,
    // 0 behind the last case. Nothing says that an input ends, so this counts down from a number that no run uses up.
    pub left: u64,
    // false for a comment, and for what follows the start of a line that is too long
    is_case: bool,
    // the buffer holds bytes that no line has taken, from an index to another
    next: usize,
    held: usize,
    // whether the input has ended, and whether these bytes follow the start of a line that is too long
    is_ended: bool,
    is_rest: bool,
}

// A list: its reader, and the line at hand in a buffer. An array, and no BufReader: that one asks for memory, and reads on behind the end of an input.
#[derive(Drop)]
pub struct List<R> {
    input: R,
    buf: [u8; LONGEST],
    pub lines: Lines,
}

// A line that is no comment.
#[derive(Clone, Copy)]
pub struct Case<'a> {
    pub number: u64,
    // Without its line feed. Of a line that is too long or has no line feed it is an error that holds the first bytes.
    pub line: Result<&'a [u8], &'a [u8]>,
}

// What is written of a line that differs, behind its number.
#[derive(Clone, Copy)]
pub enum Told {
    Nothing,
    // its bytes; of one that is too long or has no line feed none
    Line,
    // its bytes; of one that is too long or has no line feed the first ones
    Part,
}

impl<'a> Case<'a> {
    // The bytes that are written.
    pub(crate) fn told(self, what: Told) -> &'a [u8] {
        match what {
            Told::Nothing => b"",
            Told::Line => self.line.unwrap_or(b""),
            Told::Part => self.line.unwrap_or_else(|part| part),
        }
    }

    pub fn words(self) -> Result<Words<'a>, Malformed> {
        self.line.map(|line| Words::of(line)).map_err(|_| Malformed)
    }
}

// ---- the buffer

// Moves the bytes from an index to another to the front, and answers how many there are.
fn to_front(buf: &mut [u8], from: usize, to: usize) -> usize
    requires { (from ≤ to) × (to ≤ length buf.old) }
    ensures { result ≡ to - from }
{
    buf.copy_within(from..to, 0);
    to - from
}

// Reads until a buffer is full, the input ends or a read fails, and answers how many bytes it put at its start.
fn read_full(input: &mut impl Read, buf: &mut [u8]) -> usize
    ensures { result ≤ length buf.new }
{
    let mut done = 0;
    while done < buf.len() {
        let got = input.read(&mut buf[done..]).unwrap_or(0);
        if got == 0 {
            break;
        }
        done += got;
    }
    done
}

// Reads on after the bytes that the buffer holds, and answers how many it then holds.
fn fill(input: &mut impl Read, buf: &mut [u8], held: usize) -> usize
    requires { held ≤ length buf.old }
{
    let got = read_full(input, &mut buf[held..]);
    held + got
}

// ---- the line at hand

impl Lines {
    // With more bytes behind those that no line has taken.
    fn refilled(self, input: &mut impl Read, buf: &mut [u8]) -> Lines
        requires { (self.next ≤ self.held) × (self.held ≤ length buf.old) }
        ensures { result.left ≤ self.left }
    {
        let kept = to_front(buf, self.next, self.held);
        let held = fill(input, buf, kept);
        Lines {
            is_case: false,
            next: 0,
            held,
            is_ended: held < buf.len(),
            ..self
        }
    }

    // With the line to an index, behind which the next one starts. The end of a line that is too long is no line.
    fn line_to(self, to: usize, next: usize, is_whole: bool, is_comment: bool) -> Lines
        ensures { result.left ≤ self.left }
    {
        let more = u64::from(!self.is_rest);
        Lines {
            from: self.next,
            to,
            number: self.number.wrapping_add(more),
            is_whole,
            is_case: !(self.is_rest | is_comment),
            next,
            is_rest: !is_whole,
            ..self
        }
    }

    // Behind the last line.
    fn ended(self) -> Lines
        ensures { result.left ≤ self.left }
    {
        Lines {
            is_case: false,
            left: 0,
            ..self
        }
    }

    // The next line, or more bytes to find its end in. A read that fails ends the input.
    fn step(self, input: &mut impl Read, buf: &mut [u8]) -> Lines
        ensures { result.left ≤ self.left }
    {
        let next = self.next;
        let held = self.held;
        if held > buf.len() {
            return self.ended();
        }
        if next > held {
            return self.ended();
        }
        let rest = &buf[next..held];
        if let Some(n) = rest.iter().position(|c| *c == b'\n') {
            let to = next + n;
            return self.line_to(to, to + 1, true, rest[0] == b'#');
        }
        if self.is_ended & (next == held) {
            return self.ended();
        }
        if self.is_ended | (held - next == buf.len()) {
            return self.line_to(held, held, false, false);
        }
        self.refilled(input, buf)
    }

    // The next case.
    fn next_in(self, input: &mut impl Read, buf: &mut [u8]) -> Lines
        ensures { result.left ≤ self.left - 1 }
    {
        let mut l = self;
        while l.left > 0 {
            l.left -= 1;
            l = l.step(input, buf);
            if l.is_case {
                return l;
            }
        }
        l
    }
}

// ---- a list

impl<R: Read> List<R> {
    // Before its first case.
    pub fn of(input: R) -> List<R>
        ensures { (result.lines.number ≡ 0) × (result.lines.left ≡ 2 ^ 64 - 1) × (result.lines.is_case ≡ false) }
    {
        List {
            input,
            buf: [0; LONGEST],
            lines: Lines {
                from: 0,
                to: 0,
                number: 0,
                is_whole: false,
                left: u64::MAX,
                is_case: false,
                next: 0,
                held: 0,
                is_ended: false,
                is_rest: false,
            },
        }
    }

    // Goes on to the next case.
    pub fn next(&mut self)
        ensures { self.new.lines.left ≤ self.old.lines.left - 1 }
    {
        self.lines = self.lines.next_in(&mut self.input, &mut self.buf);
    }

    // The case at hand: none before the first, and none behind the last.
    pub fn case(&self) -> Option<Case<'_>>
        ensures { MatchOption result (self.now.lines.is_case ≡ false) (λ c.
            (self.now.lines.is_case ≡ true) × (c.number ≡ self.now.lines.number) × MatchResult c.line (λ _. self.now.lines.is_whole ≡ true) (λ _. self.now.lines.is_whole ≡ false)) }
    {
        let l = self.lines;
        if !l.is_case {
            return None;
        }
        let bytes = self.buf.get(l.from..l.to).unwrap_or(b"");
        let line = if l.is_whole { Ok(bytes) } else { Err(bytes) };
        Some(Case {
            number: l.number,
            line,
        })
    }

    // Checks each case that is left, writes the first that differ, and answers how many do.
    pub fn replay<T: fmt::Display + Copy, F: FnMut(Case<'_>) -> Result<(), Difference<T>>>(
        &mut self,
        out: &impl Print,
        what: Told,
        mut check: F,
    ) -> Differences
        requires { F.IsAlwaysCallable check }
    {
        let mut differences = Differences::none();
        while self.lines.left > 0 {
            self.next();
            if let Some(case) = self.case() {
                differences.tell(out, case, what, check(case));
            }
        }
        differences
    }
}
