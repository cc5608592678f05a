//! Forms to syntax trees and back. `operator` finds the operator of a form by its name, `rows` has one reader for each row of the syntax,
//! `parser` reads a form by its rows from the top down, and `unparser` gives the form of a tree. The laws, of the definitions alone, are
//! in `laws`.
#![tactic(auto)]

mod clauses;
mod fault;
mod fit;
mod heads;
mod items;
mod laws;
mod operator;
mod parameters;
mod parser;
mod parts;
mod rows;
mod shape;
mod sort;
mod symbols;
mod unparser;
mod values;

pub use fault::ParseFault;
pub use laws::{
    faults_are_the_first_bad_forms, forms_are_parsed_by_their_rows, good_forms_have_trees,
    operators_are_found_by_their_names, rows_are_those_of_the_syntax, trees_give_their_forms_back,
};
pub use operator::{Operator, operator_of};
pub use parser::parse_form;
pub use sort::Sort;
pub use symbols::{is_readable, is_variable};
pub use unparser::unparse;
