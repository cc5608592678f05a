//! The conditions that the system itself raises, and the limits of values.
//!
//! Each cause of an error has one function here and one definition in `specs/Causes.antt`: its type, its message and its datum,
//! which is the value for a type error, the symbol for a cell error, and NIL otherwise. What the crates above use is that the
//! condition made is the one defined, and that it is within the limits: where it would be too large it is the one that says so,
//! by [`limited`] (`specs/Limits.antt`).
#![tactic(auto)]

mod fixed;
mod limits;
mod named;
mod naming;
mod wanted;

pub use fixed::{
    bad_directive, division_by_zero, inexact_quotient, integer_out_of_range, name_conflict,
    no_part, stack_exhausted, too_few_arguments,
};
pub use limits::{
    MAX_DEPTH, MAX_WEIGHT, is_condition_too_large, is_too_large, limited, value_too_large,
};
pub use named::{bad_arguments, package_not_found, reader_fault, symbol_not_external};
pub use naming::{
    bad_form, no_block, no_catch_tag, no_restart, unbound_variable, undefined_function, wrong_kind,
    wrong_number_of_arguments,
};
pub use wanted::{Wanted, wanted_name};

#[cfg(test)]
mod tests;
