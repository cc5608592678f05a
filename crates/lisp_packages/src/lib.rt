//! The packages of a Lisp image and their symbols: which symbol a token names, the values of forms, and the calls that make symbols,
//! export them and let packages use one another.
//!
//! The layer above uses that [`Packages::resolve`], [`Packages::value_of`] and [`Packages::look`] give the named symbol or the
//! refusal (`named` and `valued` in `specs/Naming.antt`). What packages are stands in `specs/Packages.antt`, the changes in
//! `specs/Changes.antt` and `specs/Making.antt`, the refusals in `specs/Causes.antt`, the fresh image in `specs/Fresh.antt`.
#![tactic(auto)]

mod changes;
mod entry;
mod fault;
mod fresh;
mod index;
mod laws;
mod lisp_package;
mod made;
mod making;
mod names;
mod naming;
mod own;
mod packages;
mod read;

pub use entry::Entry;
pub use fault::NameFault;
pub use laws::the_standard_names_stand_once;
pub use lisp_package::Package;
pub use own::Own;
pub use packages::Packages;
