ghost use Rattle.std.specs.Prelude.{◌≡◌, ◌++◌, IfOk, OnOk};
ghost use Rattle.lisp_sequences.specs.Strings.{string_length, substring, is_within, kept, string_upcase, string_downcase, string_equal};

use lisp_data::{NoMemory, Text};
use std::alloc::Global;

/// How many characters the text has.
pub fn string_length(text: &Text) -> usize
    ensures { result ≡ string_length text.now }
{
    text.as_str().chars().count()
}

/// Whether a character stands in a part that begins in so many characters and ends in so many.
fn is_within(before: usize, until: usize) -> bool
    ensures { result ≡ is_within before until }
{
    before == 0 && until > 0
}

fn push_if(out: &mut Text, keeps: bool, c: char) -> Result<(), NoMemory>
    ensures { OnOk result (out.new ≡ out.old ++ kept keeps c) }
{
    if keeps { out.push(c) } else { Ok(()) }
}

/// The characters from one place to before another, as far as the text has them.
pub fn substring(alloc: Global, text: &Text, from: usize, to: usize) -> Result<Text, NoMemory>
    ensures { IfOk result (λ part. part ≡ substring from to text.now) }
{
    let mut out = Text::new(alloc);
    let mut rest = text.as_str().chars();
    let mut before = from;
    let mut until = to;
    while let Some(c) = rest.next() {
        push_if(&mut out, is_within(before, until), c)?;
        before = before.saturating_sub(1);
        until = until.saturating_sub(1);
    }
    Ok(out)
}

/// The text with its ASCII letters in upper case.
pub fn string_upcase(alloc: Global, text: &Text) -> Result<Text, NoMemory>
    ensures { IfOk result (λ upper. upper ≡ string_upcase text.now) }
{
    Text::ascii_uppercase(alloc, text.as_str())
}

/// The text with its ASCII letters in lower case.
pub fn string_downcase(alloc: Global, text: &Text) -> Result<Text, NoMemory>
    ensures { IfOk result (λ lower. lower ≡ string_downcase text.now) }
{
    Text::ascii_lowercase(alloc, text.as_str())
}

/// Whether two texts have the same characters.
pub fn string_equal(a: &Text, b: &Text) -> bool
    ensures { result ≡ string_equal a.now b.now }
{
    a.as_str() == b.as_str()
}
