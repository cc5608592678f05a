ghost use Rattle.std.specs.Prelude.{◌≡◌, ◌↔◌, IsTrue, IfOk};
ghost use Rattle.std.specs.List.{list_any};
ghost use Rattle.std.specs.Bool.{nat_eq};
ghost use Rattle.std.specs.Str.{bytes_eq};
ghost use Rattle.lisp_packages.specs.Packages.{is_named};

use crate::Own;
use lisp_data::{Rows, Text};

/// A package: its full name, its nicknames, the places of the packages that it uses, in order of use, and the symbols present
/// in it, in order of interning. A package's place is its number in order of making, from 0.
#[derive(Drop)]
pub struct Package {
    pub name: Text,
    pub nicknames: Rows<Text>,
    pub uses: Rows<usize>,
    pub own: Own,
}

/// Whether the text is one of the nicknames.
fn is_among(nicknames: &[Text], text: &str) -> bool
    ensures { result ≡ list_any (bytes_eq text.now) nicknames.now }
{
    nicknames.iter().any(|nickname| text == nickname.as_str())
}

impl Package {
    /// Whether the text is the full name or a nickname.
    pub fn is_named(&self, text: &str) -> bool
        ensures { result ≡ is_named text.now self.now }
    {
        text == self.name.as_str() || is_among(self.nicknames.as_slice(), text)
    }

    /// Whether it uses the package at this place.
    pub fn does_use(&self, used: usize) -> bool
        ensures { result ≡ list_any (nat_eq used) self.now.uses }
    {
        self.uses.as_slice().iter().any(|place| used == *place)
    }
}
