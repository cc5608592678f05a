ghost use Rattle.std.specs.Prelude.{◌≡◌, ◌++◌, true, IfOk, encode_utf8_all};
ghost use Rattle.std.specs.List.{list_all, list_any};
ghost use Rattle.std.specs.Char.{is_ascii_digit};
ghost use Rattle.sexp_reader.specs.Tokens as tokens;
ghost use Rattle.sexp_reader.specs.Atoms as spec;
ghost use Rattle.sexp_reader.specs.Answers.{Gives};

use crate::ReadFault;
use crate::characters::{begins_number, spoils};
use lisp_data::{NoMemory, Rows, Sexp, Text};
use std::alloc::Global;

fn without_sign(token: &[char]) -> &[char]
    ensures { result.now ≡ spec.without_sign token.now }
{
    match token {
        ['-' | '+', rest @ ..] => rest,
        _ => token,
    }
}

fn all_digits(digits: &[char]) -> bool
    ensures { result ≡ list_all is_ascii_digit digits.now }
{
    digits.iter().all(|c| c.is_ascii_digit())
}

#[tactic(auto, unfolding(crate::specs::Atoms::is_integer))]
fn is_integer(token: &[char]) -> bool
    ensures { result ≡ spec.is_integer token.now }
{
    let digits = without_sign(token);
    !digits.is_empty() && all_digits(digits)
}

#[tactic(auto, unfolding(crate::specs::Atoms::is_number_like))]
fn is_number_like(token: &[char]) -> bool
    ensures { result ≡ spec.is_number_like token.now }
{
    match without_sign(token) {
        [first, ..] => begins_number(*first),
        [] => false,
    }
}

fn is_increment(token: &[char]) -> bool
    ensures { result ≡ spec.is_increment token.now }
{
    match token {
        ['1', '+' | '-'] => true,
        _ => false,
    }
}

fn is_nil(token: &[char]) -> bool
    ensures { result ≡ spec.is_nil token.now }
{
    match token {
        ['n' | 'N', 'i' | 'I', 'l' | 'L'] => true,
        _ => false,
    }
}

fn has_colon(part: &[char]) -> bool
    ensures { result ≡ tokens.has_colon part.now }
{
    part.iter().any(|c| *c == ':')
}

fn is_name(part: &[char]) -> bool
    ensures { result ≡ spec.is_name part.now }
{
    !part.is_empty() && !has_colon(part)
}

/// Whether the rest of a token that does not begin with a colon has its colons as they must be.
fn has_good_rest(part: &[char]) -> bool
    ensures { result ≡ spec.has_good_rest part.now }
{
    let mut rest = part;
    while let [first, more @ ..] = rest {
        if *first == ':' {
            return match more {
                [':', name @ ..] => is_name(name),
                _ => is_name(more),
            };
        }
        rest = more;
    }
    true
}

#[tactic(auto, unfolding(crate::specs::Atoms::has_good_colons))]
fn has_good_colons(token: &[char]) -> bool
    ensures { result ≡ spec.has_good_colons token.now }
{
    match token {
        [':', name @ ..] => is_name(name),
        _ => has_good_rest(token),
    }
}

fn is_spoiled(token: &[char]) -> bool
    ensures { result ≡ list_any tokens.spoils token.now }
{
    token.iter().any(|c| spoils(*c))
}

/// Whether a token that is no integer is bad.
#[tactic(auto, unfolding(crate::specs::Atoms::is_bad))]
fn is_bad(token: &[char]) -> bool
    ensures { result ≡ spec.is_bad token.now }
{
    is_spoiled(token) || (is_number_like(token) && !is_increment(token)) || !has_good_colons(token)
}

fn uppercase(alloc: Global, token: &[char]) -> Result<Text, NoMemory>
    ensures { IfOk result (λ text. text ≡ encode_utf8_all (tokens.uppercase token.now)) }
{
    let mut text = Text::new(alloc);
    let mut rest = token;
    while let [first, more @ ..] = rest {
        text.push(first.to_ascii_uppercase())?;
        rest = more;
    }
    Ok(text)
}

/// The number of a text of a sign and digits.
#[tactic(auto, unfolding(crate::specs::Atoms::integer_of))]
fn parsed(text: &str) -> Result<Sexp, ReadFault>
    requires { spec.is_integer text.now ≡ true }
    ensures { result ≡ spec.integer_of text.now }
{
    match text.parse::<i64>() {
        Ok(number) => Ok(Sexp::Int(number)),
        Err(_) => Err(ReadFault::NumberTooWide),
    }
}

/// The number of a sign and digits.
#[tactic(auto, using(crate::proofs::IntegerLemmas::integer_octets))]
fn integer(alloc: Global, token: &[char]) -> Result<Sexp, ReadFault>
    requires { spec.is_integer token.now ≡ true }
    ensures { Gives (λ x. x) result (spec.integer_of token.now) }
{
    let text = uppercase(alloc, token)?;
    parsed(text.as_str())
}

/// The form of a token of at most 1,000 characters that begins with no `#`.
#[tactic(auto, unfolding(crate::specs::Atoms::atom))]
pub fn atom(alloc: Global, token: &[char]) -> Result<Sexp, ReadFault>
    ensures { Gives (λ x. x) result (spec.atom token.now) }
{
    if is_integer(token) {
        return integer(alloc, token);
    }
    if is_nil(token) {
        return Ok(Sexp::List(Rows::new(alloc)));
    }
    if is_bad(token) {
        return Err(ReadFault::BadToken);
    }
    Ok(Sexp::Sym(uppercase(alloc, token)?))
}
