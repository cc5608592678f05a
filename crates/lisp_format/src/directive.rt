ghost use Rattle.std.specs.Prelude.{◌≡◌};
ghost use Rattle.lisp_format.specs.Directives.{directive_of};

/// How a directive shows its argument.
#[derive(Clone, Copy, Debug, PartialEq, Eq)]
pub enum Style {
    Aesthetic,
    Standard,
    Decimal,
    Hexadecimal,
}

/// What the character after a tilde asks for.
#[derive(Clone, Copy)]
pub enum Directive {
    Shows(Style),
    Writes(char),
    Unknown,
}

#[tactic(auto, unfolding(crate::specs::Directives::directive_of))]
pub fn directive_of(c: char) -> Directive
    ensures { result ≡ directive_of c }
{
    match c {
        'a' | 'A' => Directive::Shows(Style::Aesthetic),
        's' | 'S' => Directive::Shows(Style::Standard),
        'd' | 'D' => Directive::Shows(Style::Decimal),
        'x' | 'X' => Directive::Shows(Style::Hexadecimal),
        '%' => Directive::Writes('\n'),
        '~' => Directive::Writes('~'),
        _ => Directive::Unknown,
    }
}
