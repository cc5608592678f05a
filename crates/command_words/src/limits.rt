ghost use Rattle.std.specs.Prelude.{◌≡◌, ◌≢◌, ◌≤◌, ℕ, List, Some, None, Err, IfOk, codes, map};
ghost use Rattle.std.specs.Str.Parse.{digits_value};
ghost use Rattle.clap.specs.Words.{found_of, kind_of, one_text};
ghost use Rattle.clap.specs.declared.error.kind.ErrorKind.TheVariants as kind;
ghost use Rattle.command_words.specs.Words.{limits_of};
ghost use Rattle.command_words.specs.Options.{IsReadable};

use crate::form::is_form;
use crate::options::pipe_command;
use clap::error::ErrorKind;
use clap::{ArgMatches, Error};
use lisp_data::Text;
use session_model::Limits;
use std::alloc::{AllocError, Global};

/// Why words ask for no session.
#[derive(Clone, Copy, Debug, PartialEq, Eq)]
pub enum WordsFault {
    /// They are no form.
    Usage,
    /// Memory is wanting.
    NoMemory,
}

/// The words as text.
fn texts<'a>(alloc: Global, words: &'a [Text]) -> Result<Vec<&'a str>, AllocError>
    ensures { IfOk result (λ texts. map (λ s. s.now) texts.items ≡ words.entry.now) }
{
    let mut texts = Vec::new(alloc);
    for word in words {
        texts.push(word.as_str())?;
    }
    Ok(texts)
}

/// What a refusal of the command says of the words.
fn fault_of(error: &Error) -> WordsFault
    ensures { result ≡ WordsFault.Usage → kind_of error.now ≢ kind.OutOfMemory }
{
    match error.kind() {
        ErrorKind::OutOfMemory => WordsFault::NoMemory,
        _ => WordsFault::Usage,
    }
}

/// The number of an option.
fn number(matches: &ArgMatches<'_>, id: &str) -> Option<u64>
    ensures { (n : List ℕ) → one_text (found_of matches.now) id.now ≡ Some n → IsReadable n → result ≡ Some (digits_value 10 n) }
{
    matches.get_one::<u64>(id)
}

/// The numbers that the command has read.
fn numbers(matches: &ArgMatches<'_>) -> Option<Limits>
    ensures { (n m : List ℕ) → one_text (found_of matches.now) (codes "steps") ≡ Some n → one_text (found_of matches.now) (codes "journal") ≡ Some m → IsReadable n → IsReadable m
        → result ≡ Some (record { steps = digits_value 10 n; journal = digits_value 10 m }) }
{
    match (number(matches, "steps"), number(matches, "journal")) {
        (Some(steps), Some(journal)) => Some(Limits { steps, journal }),
        _ => None,
    }
}

/// The limits of the session that the words ask for.
pub fn limits_in(alloc: Global, words: &[Text]) -> Result<Limits, WordsFault>
    ensures ok { IfOk result (λ limits. limits_of words.now ≡ Some limits) }
    ensures steps { IfOk result (λ limits. (1 ≤ limits.steps) × (limits.steps ≤ 100000000)) }
    ensures journal { IfOk result (λ limits. (2 ≤ limits.journal) × (limits.journal ≤ 4000000)) }
    ensures usage { result ≡ Err WordsFault.Usage → limits_of words.now ≡ None }
{
    if !is_form(words) {
        return Err(WordsFault::Usage);
    }
    let Ok(texts) = texts(alloc, words) else {
        return Err(WordsFault::NoMemory);
    };
    let Ok(command) = pipe_command(alloc) else {
        return Err(WordsFault::NoMemory);
    };
    match command.try_get_matches_from(texts.as_slice()) {
        Ok(matches) => numbers(&matches).ok_or(WordsFault::Usage),
        Err(error) => Err(fault_of(&error)),
    }
}
