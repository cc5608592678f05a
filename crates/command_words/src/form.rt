ghost use Rattle.std.specs.Prelude.{◌≡◌, ◌&&◌, ◌||◌, codes, bytes_eq};
ghost use Rattle.std.specs.Char.{is_ascii_digit};
ghost use Rattle.std.specs.List.{list_all};
ghost use Rattle.command_words.specs.Words as words;
ghost use Rattle.command_words.specs.Form as spec;

use lisp_data::Text;

const PIPE: &str = "pipe";

const STEPS: &str = "--steps";

const JOURNAL: &str = "--journal";

fn is_word(word: &Text, name: &str) -> bool
    ensures { result ≡ bytes_eq word.now name.now }
{
    word.as_str() == name
}

fn are_digits(digits: &[u8]) -> bool
    ensures { result ≡ list_all is_ascii_digit digits.now }
{
    digits.iter().all(|digit| digit.is_ascii_digit())
}

/// Whether a word is a number as options take it: one to twenty decimal digits.
fn is_number(word: &Text) -> bool
    ensures { result ≡ words.is_number word.now }
{
    let digits = word.as_str().as_bytes();
    1 <= digits.len() && digits.len() <= 20 && are_digits(digits)
}

fn are_both(name: &Text, other: &Text) -> bool
    ensures { result ≡ spec.are_both name.now other.now }
{
    (is_word(name, STEPS) && is_word(other, JOURNAL))
        || (is_word(name, JOURNAL) && is_word(other, STEPS))
}

fn is_option(name: &Text, number: &Text) -> bool
    ensures { result ≡ ((bytes_eq name.now (codes "--steps") || bytes_eq name.now (codes "--journal")) && words.is_number number.now) }
{
    (is_word(name, STEPS) || is_word(name, JOURNAL)) && is_number(number)
}

fn are_options(name: &Text, number: &Text, other: &Text, further: &Text) -> bool
    ensures { result ≡ (spec.are_both name.now other.now && (words.is_number number.now && words.is_number further.now)) }
{
    are_both(name, other) && is_number(number) && is_number(further)
}

/// Whether the words are the form `pipe`, with options in pairs: an exact name and a number each, each name at most once.
pub fn is_form(words: &[Text]) -> bool
    ensures { result ≡ spec.has_form words.now }
{
    match words {
        [form] => is_word(form, PIPE),
        [form, name, number] => is_word(form, PIPE) && is_option(name, number),
        [form, name, number, other, further] => {
            is_word(form, PIPE) && are_options(name, number, other, further)
        }
        _ => false,
    }
}
