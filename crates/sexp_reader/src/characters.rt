ghost use Rattle.std.specs.Prelude.{◌≡◌};
ghost use Rattle.sexp_reader.specs.Tokens as tokens;

pub fn is_space(c: char) -> bool
    ensures { result ≡ tokens.is_space c }
{
    c == ' ' || c == '\t' || c == '\n' || c == '\r' || c == '\x0C'
}

pub fn ends_token(c: char) -> bool
    ensures { result ≡ tokens.ends_token c }
{
    is_space(c) || c == '(' || c == ')' || c == '"' || c == ';' || c == '\''
}

pub fn begins_number(c: char) -> bool
    ensures { result ≡ tokens.begins_number c }
{
    c.is_ascii_digit() || c == '.'
}

pub fn spoils(c: char) -> bool
    ensures { result ≡ tokens.spoils c }
{
    c == '\\' || c == '|' || c == ',' || c == '`'
}
