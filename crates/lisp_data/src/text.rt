ghost use Rattle.std.specs.Char.{to_ascii_lowercase, to_ascii_uppercase};
ghost use Rattle.std.specs.Prelude.{map, ◌≡◌, ◌↔◌, [], ◌++◌, encode_utf8, length, IsTrue, IfOk, OnOk, OnErr};
ghost use Rattle.std.specs.Str.{IsUtf8};

use crate::NoMemory;
use std::alloc::Global;
use std::marker::Model;

/// Text in UTF-8, which contracts see as its octets.
pub struct Text {
    text: String,
}

impl Model for Text {
    ghost use Rattle.std.specs.Prelude.{List, ℕ, string_bytes};

    ghost Value = { List ℕ };

    ghost view = { λ t. string_bytes t.text };
}

impl Drop for Text {
    fn drop(self) {
        let Text { text: _ } = self;
    }
}

impl Text {
    /// An empty text, which takes no memory.
    pub fn new(alloc: Global) -> Text
        ensures { result ≡ [] }
    {
        Text {
            text: String::new(alloc),
        }
    }

    pub fn of(alloc: Global, s: &str) -> Result<Text, NoMemory>
        ensures { IfOk result (λ text. text ≡ s.now) }
    {
        Ok(Text {
            text: String::from_str(alloc, s)?,
        })
    }

    /// The text with its ASCII letters in upper case.
    pub fn ascii_uppercase(alloc: Global, s: &str) -> Result<Text, NoMemory>
        ensures { IfOk result (λ text. text ≡ map to_ascii_uppercase s.now) }
    {
        let mut text = String::from_str(alloc, s)?;
        text.make_ascii_uppercase();
        Ok(Text { text })
    }

    /// The text with its ASCII letters in lower case.
    pub fn ascii_lowercase(alloc: Global, s: &str) -> Result<Text, NoMemory>
        ensures { IfOk result (λ text. text ≡ map to_ascii_lowercase s.now) }
    {
        let mut text = String::from_str(alloc, s)?;
        text.make_ascii_lowercase();
        Ok(Text { text })
    }

    pub fn as_str(&self) -> &str
        ensures value { result.now ≡ self.now }
        ensures utf8 { IsUtf8 self.now }
    {
        self.text.as_str()
    }

    /// How many octets the text has.
    pub fn len(&self) -> usize
        ensures { result ≡ length self.now }
    {
        self.text.len()
    }

    pub fn is_empty(&self) -> bool
        ensures { IsTrue result ↔ (self.now ≡ []) }
    {
        self.text.is_empty()
    }

    pub fn same(&self, other: &Text) -> bool
        ensures { IsTrue result ↔ (self.now ≡ other.now) }
    {
        self.as_str() == other.as_str()
    }

    pub fn copy(&self, alloc: Global) -> Result<Text, NoMemory>
        ensures { IfOk result (λ text. text ≡ self.now) }
    {
        Text::of(alloc, self.as_str())
    }

    /// Adds a character at the end.
    pub fn push(&mut self, c: char) -> Result<(), NoMemory>
        ensures ok { OnOk result (self.new ≡ self.old ++ encode_utf8 c) }
        ensures err { OnErr result (self.new ≡ self.old) }
    {
        self.text.push(c)?;
        Ok(())
    }

    pub fn push_str(&mut self, more: &str) -> Result<(), NoMemory>
        ensures ok { OnOk result (self.new ≡ self.old ++ more.now) }
        ensures err { OnErr result (self.new ≡ self.old) }
    {
        self.text.push_str(more)?;
        Ok(())
    }
}
