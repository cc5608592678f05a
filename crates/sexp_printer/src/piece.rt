ghost use Rattle.std.specs.Prelude.{◌≡◌, ◌++◌, map, encode_utf8_all, OnOk};
ghost use Rattle.std.specs.Fmt.{signed_decimal};
ghost use Rattle.std.specs.List.{flat_map};
ghost use Rattle.std.specs.Str.{chars};
ghost use Rattle.sexp_printer.specs.Printed.{escaped, quoted};

use itoa::Buffer;
use lisp_data::{NoMemory, Text};

pub fn write_integer(out: &mut Text, number: i64) -> Result<(), NoMemory>
    ensures { OnOk result (out.new ≡ out.old ++ signed_decimal number) }
{
    let mut buffer = Buffer::new();
    out.push_str(buffer.format(number))
}

/// Writes a string in double quotes.
pub fn write_quoted(out: &mut Text, text: &str) -> Result<(), NoMemory>
    ensures { OnOk result (out.new ≡ out.old ++ quoted text.now) }
{
    out.push('"')?;
    write_escaped(out, text)?;
    out.push('"')
}

fn write_escaped(out: &mut Text, text: &str) -> Result<(), NoMemory>
    ensures { OnOk result (out.new ≡ out.old ++ encode_utf8_all (flat_map escaped (chars text.now))) }
{
    let mut rest = text.chars();
    while let Some(c) = rest.next() {
        write_character(out, c)?;
    }
    Ok(())
}

fn write_character(out: &mut Text, c: char) -> Result<(), NoMemory>
    ensures { OnOk result (out.new ≡ out.old ++ encode_utf8_all (escaped c)) }
{
    if c == '"' || c == '\\' {
        out.push('\\')?;
    }
    out.push(c)
}
