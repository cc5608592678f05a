ghost use Rattle.std.specs.Prelude.{◌≡◌, [], ◌∷◌, ◌++◌, ◌<◌, IfSome, OnErr, OnOk, is_some, length, position};
ghost use Rattle.rpc_messages.specs.Waiting.{accepted};
ghost use Rattle.mailboxes.specs.Mail.{first_accepted, without_accepted, AllBefore, IsMail, NoneBefore};

use lisp_data::{NoMemory, Rows};
use rpc_messages::{FromEmacs, Pattern, accepts};
use std::alloc::Global;
use std::marker::Model;

/// The messages of a thread in order of arrival, each with the place of its arrival in the journal.
#[derive(Drop)]
pub struct Mailbox {
    entries: Rows<(u64, FromEmacs)>,
}

impl Model for Mailbox {
    ghost use Rattle.std.specs.Prelude.{List, ℕ};
    ghost use Rattle.mailboxes.specs.Mail.{AreInOrder};
    ghost use Rattle.rpc_messages.specs.declared.from_emacs.FromEmacs.{FromEmacs};
    ghost use Rattle.rpc_messages.specs.contracts.from_emacs.FromEmacs as message;
    ghost use Rattle.std.specs.Coded.{codes};

    ghost Value = { List (ℕ × FromEmacs) };

    ghost coded = { Prim.hlevel (codes, message.the_row.coded) };

    ghost view = { λ m. m.entries };

    ghost invariant = { λ m. AreInOrder m.entries };
}

/// The place of the first message that the pattern accepts.
fn first_place(entries: &[(u64, FromEmacs)], p: &Pattern) -> Option<usize>
    ensures place { result ≡ position (λ entry. accepted p.now entry.1) entries.now }
    ensures within { IfSome result (λ at. at < length entries.now) }
{
    entries.iter().position(|entry| accepts(p, &entry.1))
}

fn take_from(entries: &mut Rows<(u64, FromEmacs)>, p: &Pattern) -> Option<(u64, FromEmacs)>
    ensures found { result ≡ first_accepted p.now entries.old }
    ensures rest { entries.new ≡ without_accepted p.now entries.old }
{
    match first_place(entries.as_slice(), p) {
        None => None,
        Some(at) => Some(entries.remove(at)),
    }
}

impl Mailbox {
    /// An empty mailbox, which takes no memory.
    pub fn new(alloc: Global) -> Mailbox
        ensures { result ≡ [] }
    {
        Mailbox {
            entries: Rows::new(alloc),
        }
    }

    /// Adds a message at the end. `at` is the place of its arrival in the journal. The message is dropped where memory is
    /// wanting.
    pub fn post(&mut self, at: u64, m: FromEmacs) -> Result<(), NoMemory>
        requires later { AllBefore at self.old }
        requires mail { IsMail m }
        ensures ok { OnOk result (self.new ≡ self.old ++ (at, m) ∷ []) }
        ensures err { OnErr result (self.new ≡ self.old) }
    {
        self.entries.push((at, m))?;
        Ok(())
    }

    /// Whether there is a message that the pattern accepts.
    pub fn accepts(&self, p: &Pattern) -> bool
        ensures { result ≡ is_some (first_accepted p.now self.now) }
    {
        first_place(self.entries.as_slice(), p).is_some()
    }

    /// All messages, each with its place.
    pub fn into_entries(self) -> Rows<(u64, FromEmacs)>
        ensures { result ≡ self }
    {
        self.entries
    }

    /// Takes the first message that the pattern accepts, with its place. None where the mailbox has none; the others keep
    /// their order. It takes no memory, and looks at each message once at most.
    pub fn take_first(&mut self, p: &Pattern) -> Option<(u64, FromEmacs)>
        ensures found { result ≡ first_accepted p.now self.old }
        ensures rest { self.new ≡ without_accepted p.now self.old }

        // No message that the pattern accepts came before the one that is taken.
        ensures least { IfSome result (λ taken. NoneBefore p.now taken.0 self.old) }
    {
        take_from(&mut self.entries, p)
    }
}
