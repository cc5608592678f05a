ghost use Rattle.std.specs.Prelude.{◌≡◌, encode_utf8_all, length};
ghost use Rattle.std.specs.Fmt.{signed_decimal};
ghost use Rattle.lisp_data.specs.Sexp.{capped};
ghost use Rattle.sexp_printer.specs.Printed.{escaped, quoted};
ghost use Rattle.sexp_printer.specs.UserText.{symbol_text, string_text, condition_text, user_text};

use crate::value::is_bare;
use itoa::Buffer;
use lisp_data::{Condition, Symbol, Text, Value};

fn integer_length(number: i64) -> u64
    ensures { result ≡ length (signed_decimal number) }
{
    let mut buffer = Buffer::new();
    buffer.format(number).len() as u64
}

fn escaped_length(c: char) -> u64
    ensures { result ≡ length (encode_utf8_all (escaped c)) }
{
    let own = c.len_utf8() as u64;
    if c == '"' || c == '\\' { own + 1 } else { own }
}

fn quoted_length(text: &str) -> u64
    ensures { result ≡ capped (length (quoted text.now)) }
{
    let mut total: u64 = 2;
    let mut rest = text.chars();
    while let Some(c) = rest.next() {
        total = total.saturating_add(escaped_length(c));
    }
    total
}

fn symbol_length(current: &str, symbol: &Symbol) -> u64
    ensures { result ≡ capped (length (symbol_text current.now symbol.now)) }
{
    let home = symbol.home.as_str();
    let name = symbol.name.len() as u64;
    if symbol.is_keyword() {
        return name.saturating_add(1);
    }
    if is_bare(home, current) {
        return name;
    }
    (home.len() as u64).saturating_add(2).saturating_add(name)
}

fn condition_length(escape: bool, condition: &Condition) -> u64
    ensures { result ≡ capped (length (condition_text escape condition.now.kind condition.now.message)) }
{
    let message = condition.message.as_str();
    if !escape {
        return message.len() as u64;
    }
    (condition.kind.name().len() as u64)
        .saturating_add(4)
        .saturating_add(quoted_length(message))
}

fn string_length(escape: bool, text: &str) -> u64
    ensures { result ≡ capped (length (string_text escape text.now)) }
{
    if escape {
        quoted_length(text)
    } else {
        text.len() as u64
    }
}

fn length_in(current: &str, escape: bool, value: &Value) -> u64
    ensures { result ≡ capped (length (user_text current.now escape value.now)) }
{
    match value {
        Value::Int(number) => integer_length(*number),
        Value::Str(text) => string_length(escape, text.as_str()),
        Value::Sym(name) => symbol_length(current, name.symbol()),
        Value::List(items) => match items.as_slice() {
            [] => 3,
            [first, others @ ..] => {
                let mut total = length_in(current, escape, first).saturating_add(2);
                for item in others {
                    total = total
                        .saturating_add(1)
                        .saturating_add(length_in(current, escape, item));
                }
                total
            }
        },
        Value::Cond(condition) => condition_length(escape, condition.get()),
    }
}

/// How many octets the user text of a value has, at most 2^64 - 1. Nothing is printed, and no memory is taken.
pub fn user_length(value: &Value, package: &Text, escape: bool) -> u64
    ensures { result ≡ capped (length (user_text «package».now escape value.now)) }
{
    length_in(package.as_str(), escape, value)
}
