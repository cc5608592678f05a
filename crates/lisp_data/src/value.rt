ghost use Rattle.std.specs.Prelude.{◌≡◌, ◌↔◌, IsTrue, IfOk};
ghost use Rattle.std.specs.Option.{option_copied};
ghost use Rattle.lisp_data.specs.Parts.{is_nil_value, nil, truth, value_items, value_symbol, value_text};
ghost use Rattle.lisp_data.specs.Same.{same_condition, same_value};
ghost use Rattle.lisp_data.specs.Sexp.{capped};
ghost use Rattle.lisp_data.specs.Symbols.{value_of_symbol};
ghost use Rattle.lisp_data.specs.Value.{weight_of, condition_weight_of, depth_of, condition_depth_of};
ghost use Rattle.lisp_data.specs.declared.value.Value.TheVariants as value;

use crate::{Boxed, Name, NoMemory, Rows, Symbol, Text, TypeId};
use std::alloc::Global;

/// A condition: its type, the text that reports it, and its datum, which is NIL for all but type and cell errors.
#[cycle(value)]
pub struct Condition {
    pub kind: TypeId,
    pub message: Text,
    pub datum: Value,
}

/// A value of the subset. NIL is the empty list, and lists have no dotted pairs.
#[cycle(value)]
pub enum Value {
    Int(i64),
    Str(Text),
    Sym(Name),
    List(Rows<Value>),
    Cond(Boxed<Condition>),
}

/// Lets go of each of these values. The row is then empty, and is let go without the `Drop` of its items.
#[cycle(value_discard)]
fn let_go(values: Rows<Value>) {
    let mut values = values;
    while let Some(value) = values.pop() {
        let _gone = value;
    }
    values.spent();
}

impl Drop for Condition {
    #[cycle(value_discard)]
    fn drop(self) {
        let Condition {
            kind: _,
            message: _,
            datum: _,
        } = self;
    }
}

impl Drop for Value {
    #[cycle(value_discard)]
    fn drop(self) {
        match self {
            Value::Int(_) | Value::Str(_) | Value::Sym(_) => {}
            Value::List(items) => let_go(items),
            Value::Cond(condition) => {
                let _gone = condition.into_inner();
            }
        }
    }
}

impl Condition {
    /// 1, the octets of the message, and the datum's weight. At most 2^64 - 1.
    #[cycle(value_weight)]
    pub fn weight(&self) -> u64
        ensures { result ≡ capped (condition_weight_of self.now) }
    {
        (self.message.len() as u64)
            .saturating_add(1)
            .saturating_add(self.datum.weight())
    }

    /// 1 and the datum's depth. At most 2^64 - 1.
    #[cycle(value_depth)]
    pub fn depth(&self) -> u64
        ensures { result ≡ capped (condition_depth_of self.now) }
    {
        self.datum.depth().saturating_add(1)
    }

    #[cycle(value_same)]
    pub fn same(&self, other: &Condition) -> bool
        ensures value { result ≡ same_condition self.now other.now }
        ensures law { IsTrue result ↔ (self.now ≡ other.now) }
    {
        self.kind.same(other.kind)
            && self.message.as_str() == other.message.as_str()
            && self.datum.same(&other.datum)
    }

    #[cycle(value_copy)]
    pub fn copy(&self, alloc: Global) -> Result<Condition, NoMemory>
        ensures { IfOk result (λ condition. condition ≡ self.now) }
    {
        Ok(Condition {
            kind: self.kind,
            message: self.message.copy(alloc)?,
            datum: self.datum.copy(alloc)?,
        })
    }
}

impl Value {
    /// NIL, the empty list, which takes no memory.
    pub fn nil(alloc: Global) -> Value
        ensures { result ≡ nil }
    {
        Value::List(Rows::new(alloc))
    }

    /// T or NIL.
    pub fn truth(alloc: Global, holds: bool) -> Result<Value, NoMemory>
        ensures { IfOk result (λ made. made ≡ truth holds) }
    {
        if holds {
            Ok(Value::Sym(Name::common_lisp(alloc, "T")?))
        } else {
            Ok(Value::nil(alloc))
        }
    }

    /// A string.
    pub fn string(alloc: Global, text: &str) -> Result<Value, NoMemory>
        ensures { IfOk result (λ made. made ≡ value.Str text.now) }
    {
        Ok(Value::Str(Text::of(alloc, text)?))
    }

    /// The list of these items.
    pub fn list<const N: usize>(alloc: Global, items: [Value; N]) -> Result<Value, NoMemory>
        ensures { IfOk result (λ made. made ≡ value.List items.entry) }
    {
        Ok(Value::List(Rows::from_vec(Vec::from_array(alloc, items)?)))
    }

    /// The symbol as a value, which takes no memory: the empty list at NIL.
    pub fn symbol(alloc: Global, name: Name) -> Value
        ensures { result ≡ value_of_symbol name }
    {
        if name.symbol().is_nil() {
            return Value::nil(alloc);
        }
        Value::Sym(name)
    }

    pub fn is_nil(&self) -> bool
        ensures { result ≡ is_nil_value self.now }
    {
        match self {
            Value::List(items) => items.is_empty(),
            _ => false,
        }
    }

    /// The items of a list, NIL among them; None for what is no list.
    pub fn as_list(&self) -> Option<&[Value]>
        ensures { option_copied result ≡ value_items self.now }
    {
        match self {
            Value::List(items) => Some(items.as_slice()),
            _ => None,
        }
    }

    /// The text of a string, None for what is none.
    pub fn as_text(&self) -> Option<&Text>
        ensures { option_copied result ≡ value_text self.now }
    {
        match self {
            Value::Str(text) => Some(text),
            _ => None,
        }
    }

    /// The symbol that the value is. NIL is a list here, and gives None.
    pub fn as_symbol(&self) -> Option<&Symbol>
        ensures { option_copied result ≡ value_symbol self.now }
    {
        match self {
            Value::Sym(name) => Some(name.symbol()),
            _ => None,
        }
    }

    /// How large the value is: 1 for an integer, 1 and the octets of a string or of a symbol's name, 1 and the items of a
    /// list, and a condition's own weight. At most 2^64 - 1.
    #[cycle(value_weight)]
    pub fn weight(&self) -> u64
        ensures { result ≡ capped (weight_of self.now) }
    {
        match self {
            Value::Int(_) => 1,
            Value::Str(text) => (text.len() as u64).saturating_add(1),
            Value::Sym(name) => (name.symbol().name.len() as u64).saturating_add(1),
            Value::List(items) => {
                let mut total: u64 = 1;
                for item in items.as_slice() {
                    total = total.saturating_add(item.weight());
                }
                total
            }
            Value::Cond(condition) => condition.get().weight(),
        }
    }

    /// How deeply lists and conditions are nested: 0 for all but a condition and a list with items. At most 2^64 - 1.
    #[cycle(value_depth)]
    pub fn depth(&self) -> u64
        ensures { result ≡ capped (depth_of self.now) }
    {
        match self {
            Value::List(items) => {
                let mut deepest: u64 = 0;
                for item in items.as_slice() {
                    deepest = deepest.max(item.depth().saturating_add(1));
                }
                deepest
            }
            Value::Cond(condition) => condition.get().depth(),
            _ => 0,
        }
    }

    #[cycle(value_same)]
    pub fn same(&self, other: &Value) -> bool
        ensures value { result ≡ same_value self.now other.now }
        ensures law { IsTrue result ↔ (self.now ≡ other.now) }
    {
        match (self, other) {
            (Value::Int(a), Value::Int(b)) => a == b,
            (Value::Str(a), Value::Str(b)) => a.as_str() == b.as_str(),
            (Value::Sym(a), Value::Sym(b)) => a.symbol().same(b.symbol()),
            (Value::List(a), Value::List(b)) => {
                let (a, b) = (a.as_slice(), b.as_slice());
                if a.len() != b.len() {
                    return false;
                }
                for (i, item) in a.iter().enumerate() {
                    if !item.same(&b[i]) {
                        return false;
                    }
                }
                true
            }
            (Value::Cond(a), Value::Cond(b)) => a.get().same(b.get()),
            _ => false,
        }
    }

    #[cycle(value_copy)]
    pub fn copy(&self, alloc: Global) -> Result<Value, NoMemory>
        ensures { IfOk result (λ value. value ≡ self.now) }
    {
        match self {
            Value::Int(number) => Ok(Value::Int(*number)),
            Value::Str(text) => Ok(Value::Str(text.copy(alloc)?)),
            Value::Sym(name) => Ok(Value::Sym(name.share()?)),
            Value::List(items) => {
                let mut copies = Rows::new(alloc);
                for item in items.as_slice() {
                    copies.push(item.copy(alloc)?)?;
                }
                Ok(Value::List(copies))
            }
            Value::Cond(condition) => {
                Ok(Value::Cond(Boxed::new(alloc, condition.get().copy(alloc)?)?))
            }
        }
    }
}
