ghost use Rattle.std.specs.Prelude.{◌≡◌, ◌⊎◌, ℕ, List, Ok, Err, IfOk, IfErr};
ghost use Rattle.std.specs.Str.{chars};
ghost use Rattle.sexp_reader.specs.Answers.{Answers, Gives};
ghost use Rattle.sexp_reader.specs.Faults.{IsFault, IsFaultAmong};
ghost use Rattle.sexp_reader.specs.Grammar.{IsSpelled, AreSpelled};
ghost use Rattle.sexp_reader.specs.Reading.{read_of, form_of};
ghost use Rattle.lisp_data.specs.declared.sexp.Sexp.{Sexp};
ghost use Rattle.sexp_reader.specs.declared.fault.ReadFault.{ReadFault};
ghost use Rattle.sexp_reader.specs.declared.placed.Placed.{Placed};

use crate::state::Reader;
use crate::{Placed, ReadFault};
use lisp_data::{Rows, Sexp, Text};
use std::alloc::Global;

fn read(alloc: Global, text: &Text, many: bool) -> Result<Rows<Placed>, ReadFault>
    ensures { Gives (λ forms. forms) result (read_of many (chars text.now)) }
{
    let mut reader = Reader::new(alloc, many);
    reader.read(alloc, text.as_str())?;
    reader.finish(alloc)
}

fn read_one(alloc: Global, text: &Text) -> Result<Sexp, ReadFault>
    ensures { Gives (λ form. form) result (form_of (chars text.now)) }
{
    let mut forms = read(alloc, text, false)?;
    if forms.is_empty() {
        return Err(ReadFault::End);
    }
    let Placed { form, .. } = forms.remove(0);
    Ok(form)
}

/// The form that the text spells, or the text's fault.
pub fn read_form(alloc: Global, text: &Text) -> Result<Sexp, ReadFault>
    // What is read is what the text spells.
    ensures read { IfOk result (IsSpelled (chars text.now)) }

    // What is refused has that fault.
    ensures refused { IfErr result (λ fault. IsFault (chars text.now) fault ⊎ (fault ≡ ReadFault.NoMemory)) }

    // What the text spells is read.
    ensures spelled { (form : Sexp) → IsSpelled (chars text.now) form → Answers (Ok form) result }

    // The fault that the text has is answered.
    ensures faulty { (fault : ReadFault) → IsFault (chars text.now) fault → Answers (Err fault) result }
{
    read_one(alloc, text)
}

/// The forms that the text spells one after another, each with its place, or the fault of the first that is none. A place
/// counts the characters of the text that stand before the form's first one.
pub fn read_all(alloc: Global, text: &Text) -> Result<Rows<Placed>, ReadFault>
    // What is read is what the text spells.
    ensures read { IfOk result (AreSpelled (chars text.now)) }

    // What is refused has that fault.
    ensures refused { IfErr result (λ fault. IsFaultAmong (chars text.now) fault ⊎ (fault ≡ ReadFault.NoMemory)) }

    // What the text spells is read.
    ensures spelled { (forms : List Placed) → AreSpelled (chars text.now) forms → Answers (Ok forms) result }

    // The fault that the text has is answered.
    ensures faulty { (fault : ReadFault) → IsFaultAmong (chars text.now) fault → Answers (Err fault) result }

    // A text may hold no form, and another form may follow each.
    ensures never { IfErr result (λ fault. ¬ (fault ≡ ReadFault.End) × ¬ (fault ≡ ReadFault.TrailingText)) }
{
    read(alloc, text, true)
}

/// The laws of reading one form: every list of characters is a spelling of one form, or has one fault.
pub fn reading_is_exact()
    // Each text spells a form or has a fault.
    ensures some { (text : List ℕ) → ((form : Sexp) × IsSpelled text form) ⊎ ((fault : ReadFault) × IsFault text fault) }

    // It doesn't spell two.
    ensures one_form { (text : List ℕ) → (a b : Sexp) → IsSpelled text a → IsSpelled text b → a ≡ b }

    // It doesn't have two.
    ensures one_fault { (text : List ℕ) → (a b : ReadFault) → IsFault text a → IsFault text b → a ≡ b }

    // And never both.
    ensures not_both { (text : List ℕ) → (form : Sexp) → (fault : ReadFault) → IsSpelled text form → IsFault text fault → ⊥ }
{}

/// The laws of reading forms one after another: every list of characters is a spelling of one list of forms with their places,
/// or has one fault.
pub fn reading_all_is_exact()
    // Each text spells forms or has a fault.
    ensures some { (text : List ℕ) → ((forms : List Placed) × AreSpelled text forms) ⊎ ((fault : ReadFault) × IsFaultAmong text fault) }

    // It doesn't spell two lists of them.
    ensures one_list { (text : List ℕ) → (a b : List Placed) → AreSpelled text a → AreSpelled text b → a ≡ b }

    // It doesn't have two faults.
    ensures one_fault { (text : List ℕ) → (a b : ReadFault) → IsFaultAmong text a → IsFaultAmong text b → a ≡ b }

    // And never both.
    ensures not_both { (text : List ℕ) → (forms : List Placed) → (fault : ReadFault) → AreSpelled text forms → IsFaultAmong text fault → ⊥ }
{}
