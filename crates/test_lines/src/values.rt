// The values that words stand for: the patterns of floats, whole numbers and truth values.
ghost use Rattle.std.specs.Prelude.{◌≡◌, ◌≤◌, ◌%◌, ◌^◌, ℕ, from_bits, slice_index, IfOk};
ghost use Rattle.std.specs.Float.{Format, Float, binary32, binary64};
ghost use Rattle.test_lines.specs.Words.{word_at};
ghost use Rattle.test_lines.specs.Values.{is_float, has_form, taken_of, pattern_of, agree_of, may_be_nan};

use crate::{Malformed, Word, Words};
use std::fmt;
use std::fmt::InlineText;

// The most digits of a value. Origin: those of 64 bits, docs/CASES.md, "Words".
const MOST_DIGITS: usize = 16;

// What a word has to be: the pattern of an f32 or of an f64, a whole number, or 0 or 1.
#[derive(Clone, Copy)]
pub enum Form {
    Single,
    Double,
    Whole,
    Truth,
}

// What a word is to its case: an argument, or what is expected of an answer. Only the second may be the word nan.
#[derive(Clone, Copy)]
pub enum Role {
    Argument,
    Expected,
}

// What a word says, or what a function answered. Two of them are the same bit by bit, a NaN and a NaN too. No Option: a NaN is a value like others.
#[derive(Clone, Copy, PartialEq, Eq)]
pub enum Value {
    Bits(u64),
    Nan,
}

impl Value {
    // Whether two values are the same: bit by bit, a NaN with a NaN.
    pub fn agrees(self, other: Value) -> bool
        ensures { result ≡ agree_of self other }
    {
        self == other
    }
}

// A value as a word of its form.
#[derive(Clone, Copy)]
pub struct Shown {
    pub value: Value,
    pub form: Form,
}

impl Shown {
    pub fn of<R: Answer>(got: R) -> Shown {
        Shown {
            value: got.value(),
            form: R::FORM,
        }
    }
}

impl fmt::Display for Shown {
    fn fmt<W: fmt::Write>(&self, f: &mut fmt::Formatter<W>) -> fmt::Result {
        let Shown { value, form } = *self;
        match value {
            Value::Bits(b) => {
                let digits = match form {
                    Form::Single => 8,
                    Form::Double => 16,
                    Form::Whole | Form::Truth => 1,
                };
                // one piece, with the zeros in front
                let text = InlineText::<MOST_DIGITS>::of(format_args!("{b:0digits$x}"));
                f.write_str(text.as_str())
            }
            Value::Nan => f.write_str("nan"),
        }
    }
}

fn is_float(form: Form) -> bool
    ensures { result ≡ is_float form }
{
    matches!(form, Form::Single | Form::Double)
}

fn may_be_nan(role: Role) -> bool
    ensures { result ≡ may_be_nan role }
{
    matches!(role, Role::Expected)
}

// Whether a number of so many digits, the first of them given, has the form.
fn has_form(form: Form, first: u8, value: u64, digits: usize) -> bool
    ensures { result ≡ has_form form first value digits }
{
    match form {
        Form::Single => digits == 8,
        Form::Double => digits == 16,
        Form::Whole => (digits == 1) | (first != b'0'),
        Form::Truth => (digits == 1) & (value < 2),
    }
}

// ---- floats and their patterns

// A float by its pattern. The two impls differ in the type of the pattern, its conversions and each number: a body for both would hand all of these in.
pub trait Pattern: Copy {
    ghost format: { Format };

    ghost width: { ℕ };

    ghost value: { Self → Float };

    const FORM: Form;

    // The float of a pattern; every NaN's pattern is the one NaN.
    fn of_bits(bits: u64) -> Self
        ensures { value result ≡ from_bits format (bits % 2 ^ width) };

    fn pattern(self) -> Value
        ensures { result ≡ pattern_of format (value self) };
}

impl Pattern for f32 {
    ghost format = { binary32 };

    ghost width = { 32 };

    ghost value = { λ x. x };

    const FORM: Form = Form::Single;

    #[tactic(auto, using(crate::proofs::Patterns::nan_of, crate::proofs::Patterns::no_nan))]
    fn of_bits(bits: u64) -> f32 {
        let b = (bits % 0x1_0000_0000) as u32;
        if b % 0x8000_0000 > 0x7f80_0000 {
            return f32::NAN;
        }
        f32::from_bits(b)
    }

    fn pattern(self) -> Value {
        if self.is_nan() {
            return Value::Nan;
        }
        Value::Bits(u64::from(self.to_bits()))
    }
}

impl Pattern for f64 {
    ghost format = { binary64 };

    ghost width = { 64 };

    ghost value = { λ x. x };

    const FORM: Form = Form::Double;

    #[tactic(auto, using(crate::proofs::Patterns::nan_of, crate::proofs::Patterns::no_nan))]
    fn of_bits(bits: u64) -> f64 {
        if bits % 0x8000_0000_0000_0000 > 0x7ff0_0000_0000_0000 {
            return f64::NAN;
        }
        f64::from_bits(bits)
    }

    fn pattern(self) -> Value {
        if self.is_nan() {
            return Value::Nan;
        }
        Value::Bits(self.to_bits())
    }
}

// ---- what the next words say

impl<'a> Words<'a> {
    // The next word's value, in a form and a role.
    pub fn take(&mut self, form: Form, role: Role) -> Result<Value, Malformed>
        ensures value { result ≡ taken_of form (may_be_nan role) (slice_index self.old.line.now self.old.at) (word_at self.old.line.now self.old.at).word }
        ensures rest { self.new.at ≡ (word_at self.old.line.now self.old.at).next }
        ensures line { self.new.line ≡ self.old.line }
    {
        let first = self.line.get(self.at).copied().unwrap_or(0);
        match self.next() {
            Word::Number(v, digits) if has_form(form, first, v, digits) => Ok(Value::Bits(v)),
            Word::Nan if may_be_nan(role) & is_float(form) => Ok(Value::Nan),
            _ => Err(Malformed),
        }
    }

    // An argument: a float is its pattern, and no nan. For one that is malformed stands the number that it is in another form, or 0.
    fn bits(&mut self, form: Form) -> Result<u64, Malformed> {
        let mut word = *self;
        match self.take(form, Role::Argument) {
            Ok(Value::Bits(b)) => Ok(b),
            _ => match word.next() {
                Word::Number(b, _) => self.malformed(b),
                _ => self.malformed(0),
            },
        }
    }

    // Whether the next word says what was answered.
    pub fn says<R: Answer>(&mut self, got: R) -> Result<bool, Malformed> {
        Ok(self.take(R::FORM, Role::Expected)?.agrees(got.value()))
    }

    pub fn read<T: Given>(&mut self) -> Result<T, Malformed> {
        T::read(self)
    }

    // A whole number up to a greatest one. For one that is malformed or greater stands 0.
    pub fn up_to(&mut self, most: usize) -> Result<usize, Malformed>
        ensures { IfOk result (λ n. n ≤ most) }
    {
        let n: usize = self.read()?;
        if n <= most { Ok(n) } else { self.malformed(0) }
    }

    // One of a list, by its number.
    pub fn one_of<T: Copy>(&mut self, list: &[T]) -> Result<T, Malformed> {
        let number = self.up_to(list.len().saturating_sub(1))?;
        list.get(number).copied().ok_or(Malformed)
    }

    // As many as a buffer has places.
    pub fn fill<T: Given>(&mut self, to: &mut [T]) -> Result<(), Malformed> {
        for x in to {
            *x = self.read()?;
        }
        Ok(())
    }

    // As many as the count before them says, to the front of a buffer.
    pub fn list<'b, T: Given>(&mut self, to: &'b mut [T]) -> Result<&'b mut [T], Malformed> {
        let n = self.up_to(to.len())?;
        let to = &mut to[..n];
        self.fill(to)?;
        Ok(to)
    }
}

// What the next words of a line may give.
pub trait Given: Copy {
    fn read(words: &mut Words<'_>) -> Result<Self, Malformed>;
}

impl<T: Pattern> Given for T {
    fn read(words: &mut Words<'_>) -> Result<T, Malformed> {
        Ok(T::of_bits(words.bits(T::FORM)?))
    }
}

impl Given for u64 {
    fn read(words: &mut Words<'_>) -> Result<u64, Malformed> {
        words.bits(Form::Whole)
    }
}

impl Given for usize {
    fn read(words: &mut Words<'_>) -> Result<usize, Malformed> {
        Ok(words.bits(Form::Whole)? as usize)
    }
}

impl Given for u8 {
    fn read(words: &mut Words<'_>) -> Result<u8, Malformed> {
        let n = words.up_to(usize::from(u8::MAX))?;
        u8::try_from(n).map_err(|_| Malformed)
    }
}

// Two words, the first one first.
impl<A: Given> Given for (A, A) {
    fn read(words: &mut Words<'_>) -> Result<(A, A), Malformed> {
        Ok((words.read()?, words.read()?))
    }
}

// What may be answered, as a word of its form. An impl for each type that is no float: a general one for these would overlap that of floats. No `From<R> for Value` beside the form: each function that takes an answer would have to name that bound too.
pub trait Answer: Copy {
    const FORM: Form;

    fn value(self) -> Value;
}

impl<T: Pattern> Answer for T {
    const FORM: Form = T::FORM;

    fn value(self) -> Value {
        self.pattern()
    }
}

impl Answer for bool {
    const FORM: Form = Form::Truth;

    fn value(self) -> Value {
        Value::Bits(u64::from(self))
    }
}

impl Answer for u8 {
    const FORM: Form = Form::Whole;

    fn value(self) -> Value {
        Value::Bits(u64::from(self))
    }
}

impl Answer for u32 {
    const FORM: Form = Form::Whole;

    fn value(self) -> Value {
        Value::Bits(u64::from(self))
    }
}

impl Answer for usize {
    const FORM: Form = Form::Whole;

    fn value(self) -> Value {
        Value::Bits(self as u64)
    }
}
