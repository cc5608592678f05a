ghost use Rattle.std.specs.Prelude.{◌≡◌, ◌↔◌, [], IsTrue, IfOk};
ghost use Rattle.std.specs.Option.{option_copied};
ghost use Rattle.lisp_data.specs.Parts.{form_items, form_text, form_token};
ghost use Rattle.lisp_data.specs.Sexp.{capped, depth_of, nil, weight_of};
ghost use Rattle.lisp_data.specs.declared.sexp.Sexp.TheVariants as form;

use crate::{NoMemory, Rows, Text};
use std::alloc::Global;

/// A form as it is read, before its symbols are resolved. NIL is the empty list.
pub enum Sexp {
    Int(i64),
    Str(Text),
    /// A symbol's token, with its prefix, in upper case.
    Sym(Text),
    List(Rows<Sexp>),
}

/// Lets go of each of these forms. The row is then empty, and is let go without the `Drop` of its items.
#[cycle(sexp_discard)]
fn let_go(forms: Rows<Sexp>) {
    let mut forms = forms;
    while let Some(form) = forms.pop() {
        let _gone = form;
    }
    forms.spent();
}

impl Drop for Sexp {
    #[cycle(sexp_discard)]
    fn drop(self) {
        match self {
            Sexp::Int(_) | Sexp::Str(_) | Sexp::Sym(_) => {}
            Sexp::List(items) => let_go(items),
        }
    }
}

impl Sexp {
    /// The symbol with this token.
    pub fn symbol(alloc: Global, token: &str) -> Result<Sexp, NoMemory>
        ensures { IfOk result (λ made. made ≡ form.Sym token.now) }
    {
        Ok(Sexp::Sym(Text::of(alloc, token)?))
    }

    /// A string.
    pub fn string(alloc: Global, text: &str) -> Result<Sexp, NoMemory>
        ensures { IfOk result (λ made. made ≡ form.Str text.now) }
    {
        Ok(Sexp::Str(Text::of(alloc, text)?))
    }

    /// The list of these items.
    pub fn list<const N: usize>(alloc: Global, items: [Sexp; N]) -> Result<Sexp, NoMemory>
        ensures { IfOk result (λ made. made ≡ form.List items.entry) }
    {
        Ok(Sexp::List(Rows::from_vec(Vec::from_array(alloc, items)?)))
    }

    /// NIL, the empty list, which takes no memory.
    pub fn nil(alloc: Global) -> Sexp
        ensures { result ≡ nil }
    {
        Sexp::List(Rows::new(alloc))
    }

    /// The items of a list, NIL among them; None for what is no list.
    pub fn as_list(&self) -> Option<&[Sexp]>
        ensures { option_copied result ≡ form_items self.now }
    {
        match self {
            Sexp::List(items) => Some(items.as_slice()),
            _ => None,
        }
    }

    /// The text of a string, None for what is none.
    pub fn as_text(&self) -> Option<&Text>
        ensures { option_copied result ≡ form_text self.now }
    {
        match self {
            Sexp::Str(text) => Some(text),
            _ => None,
        }
    }

    /// The token of a symbol, None for what is none.
    pub fn as_symbol(&self) -> Option<&Text>
        ensures { option_copied result ≡ form_token self.now }
    {
        match self {
            Sexp::Sym(token) => Some(token),
            _ => None,
        }
    }

    /// How large the form is: 1 for an integer, 1 and the octets of a string or a token, 1 and the items of a list. At most
    /// 2^64 - 1.
    pub fn weight(&self) -> u64
        ensures { result ≡ capped (weight_of self.now) }
    {
        match self {
            Sexp::Int(_) => 1,
            Sexp::Str(text) => (text.len() as u64).saturating_add(1),
            Sexp::Sym(token) => (token.len() as u64).saturating_add(1),
            Sexp::List(items) => {
                let mut total: u64 = 1;
                for item in items.as_slice() {
                    total = total.saturating_add(item.weight());
                }
                total
            }
        }
    }

    /// How deeply lists are nested: 0 for all but a list with items. At most 2^64 - 1.
    pub fn depth(&self) -> u64
        ensures { result ≡ capped (depth_of self.now) }
    {
        match self {
            Sexp::List(items) => {
                let mut deepest: u64 = 0;
                for item in items.as_slice() {
                    deepest = deepest.max(item.depth().saturating_add(1));
                }
                deepest
            }
            _ => 0,
        }
    }

    pub fn same(&self, other: &Sexp) -> bool
        ensures { IsTrue result ↔ (self.now ≡ other.now) }
    {
        match (self, other) {
            (Sexp::Int(a), Sexp::Int(b)) => a == b,
            (Sexp::Str(a), Sexp::Str(b)) => a.same(b),
            (Sexp::Sym(a), Sexp::Sym(b)) => a.same(b),
            (Sexp::List(a), Sexp::List(b)) => {
                let (a, b) = (a.as_slice(), b.as_slice());
                if a.len() != b.len() {
                    return false;
                }
                for (i, item) in a.iter().enumerate() {
                    if !item.same(&b[i]) {
                        return false;
                    }
                }
                true
            }
            _ => false,
        }
    }

    pub fn copy(&self, alloc: Global) -> Result<Sexp, NoMemory>
        ensures { IfOk result (λ form. form ≡ self.now) }
    {
        match self {
            Sexp::Int(number) => Ok(Sexp::Int(*number)),
            Sexp::Str(text) => Ok(Sexp::Str(text.copy(alloc)?)),
            Sexp::Sym(token) => Ok(Sexp::Sym(token.copy(alloc)?)),
            Sexp::List(items) => {
                let mut copies = Rows::new(alloc);
                for item in items.as_slice() {
                    copies.push(item.copy(alloc)?)?;
                }
                Ok(Sexp::List(copies))
            }
        }
    }
}
