//! The image of a Lisp session: the packages, the global values of variables, the variables proclaimed special, and the functions.
//!
//! The layer above uses that an [`Image`] is four finite maps: each call's clause says which of them changes and how, by the words
//! of `specs/Image.antt` (`global`, `is_special`, `function`, and what each is after a change). A map from symbols is a [`SymbolMap`],
//! whose definitions stand in `specs/SymbolMap.antt`.
#![tactic(auto)]

mod function;
mod image;
mod package_variable;
mod places;
mod symbol_map;

pub use function::{Function, Place};
pub use image::Image;
pub use symbol_map::SymbolMap;
