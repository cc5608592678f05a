ghost use Rattle.std.specs.Prelude.{◌≡◌, ◌++◌, length, OnOk};
ghost use Rattle.lisp_data.specs.Sexp.{capped};
ghost use Rattle.lisp_format.specs.Formatted.{shown};
ghost use Rattle.sexp_printer.specs.UserText.{user_text};
ghost use Rattle.lisp_format.specs.Passes.{piece_text, Obeys, GoesOn};

use crate::directive::{Directive, Style, directive_of};
use crate::fault::FormatFault;
use crate::hexadecimal::{hexadecimal_length, write_hexadecimal};
use lisp_data::{NoMemory, Text, Value};
use sexp_printer::{print_user, user_length};
use std::alloc::Global;

/// What one character of a control text adds to the text.
#[derive(Clone, Copy)]
pub enum Piece<'a> {
    Nothing,
    Character(char),
    Shown(Style, &'a Value),
}

/// A piece, whether the next character stands after a tilde, and the arguments that are left then.
#[derive(Clone, Copy)]
pub struct Step<'a> {
    pub piece: Piece<'a>,
    pub after_tilde: bool,
    pub left: &'a [Value],
}

fn obey<'a>(directive: Directive, left: &'a [Value]) -> Result<Step<'a>, FormatFault>
    ensures { Obeys directive left.now result }
{
    match directive {
        Directive::Writes(c) => Ok(Step {
            piece: Piece::Character(c),
            after_tilde: false,
            left,
        }),
        Directive::Shows(style) => match left {
            [value, others @ ..] => Ok(Step {
                piece: Piece::Shown(style, value),
                after_tilde: false,
                left: others,
            }),
            [] => Err(FormatFault::TooFewArguments),
        },
        Directive::Unknown => Err(FormatFault::BadDirective),
    }
}

/// What a character of a control text does, which stands after a tilde or not.
#[tactic(auto, unfolding(crate::specs::Formatted::text_from))]
pub fn step_of<'a>(after_tilde: bool, c: char, left: &'a [Value]) -> Result<Step<'a>, FormatFault>
    ensures { GoesOn after_tilde c left.now result }
{
    if after_tilde {
        return obey(directive_of(c), left);
    }
    if c == '~' {
        return Ok(Step {
            piece: Piece::Nothing,
            after_tilde: true,
            left,
        });
    }
    Ok(Step {
        piece: Piece::Character(c),
        after_tilde: false,
        left,
    })
}

fn shown_length(style: Style, value: &Value, current: &Text) -> u64
    ensures { result ≡ capped (length (shown current.now style value.now)) }
{
    match (style, value) {
        (Style::Hexadecimal, Value::Int(number)) => hexadecimal_length(*number),
        (Style::Standard, _) => user_length(value, current, true),
        _ => user_length(value, current, false),
    }
}

pub fn piece_length(piece: Piece<'_>, current: &Text) -> u64
    ensures { result ≡ capped (length (piece_text current.now piece.entry)) }
{
    match piece {
        Piece::Nothing => 0,
        Piece::Character(c) => c.len_utf8() as u64,
        Piece::Shown(style, value) => shown_length(style, value, current),
    }
}

fn print_to(
    alloc: Global,
    out: &mut Text,
    value: &Value,
    current: &Text,
    escape: bool,
) -> Result<(), NoMemory>
    ensures { OnOk result (out.new ≡ out.old ++ user_text current.now escape value.now) }
{
    let text = print_user(alloc, value, current, escape)?;
    out.push_str(text.as_str())
}

fn write_shown(
    alloc: Global,
    out: &mut Text,
    style: Style,
    value: &Value,
    current: &Text,
) -> Result<(), NoMemory>
    ensures { OnOk result (out.new ≡ out.old ++ shown current.now style value.now) }
{
    match (style, value) {
        (Style::Hexadecimal, Value::Int(number)) => write_hexadecimal(alloc, out, *number),
        (Style::Standard, _) => print_to(alloc, out, value, current, true),
        _ => print_to(alloc, out, value, current, false),
    }
}

pub fn write_piece(
    alloc: Global,
    out: &mut Text,
    piece: Piece<'_>,
    current: &Text,
) -> Result<(), NoMemory>
    ensures { OnOk result (out.new ≡ out.old ++ piece_text current.now piece.entry) }
{
    match piece {
        Piece::Nothing => Ok(()),
        Piece::Character(c) => out.push(c),
        Piece::Shown(style, value) => write_shown(alloc, out, style, value, current),
    }
}
