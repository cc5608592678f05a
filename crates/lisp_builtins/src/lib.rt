//! The one-step functions of the Lisp: those that compute their value from their arguments and the current package alone.
//!
//! [`op_of`] finds the function of a symbol, and [`call_builtin`] calls it. What the layer above uses is that the call answers
//! `outcome` of the function, its arguments and the package (`specs/Outcome.antt`): the value, or exactly the condition that it
//! raises. The table stands in `specs/Signatures.antt`: what each function takes, and what it makes of that. The number of arguments
//! is looked at first, then their kinds from left to right, then indices; each kind of signature has its definition in
//! `specs/Numbers.antt`, `Values.antt`, `Lists.antt`, `Texts.antt` or `Conditions.antt`. A value or a condition past the limits is
//! `Value too large.` in its place, and one whose making would take much memory is not begun.
#![tactic(auto)]

mod answer;
mod call;
mod conditions;
mod fault;
mod laws;
mod lists;
mod numbers;
mod op;
mod signature;
mod texts;
mod values;

pub use call::call_builtin;
pub use fault::BuiltinFault;
pub use laws::each_one_step_function_is_found;
pub use op::{Op, name_of, op_of};
