//! Tests of the syntax, the packages and the image, which hold no code: each public call that takes memory on its happy path, and tables
//! of what no clause shows. They stand apart so that they are proved without the crates that they test being proved again.
#![tactic(auto)]

#[cfg(test)]
mod forms;
#[cfg(test)]
mod images;
#[cfg(test)]
mod packages;
#[cfg(test)]
mod parsing;
#[cfg(test)]
mod symbols;
#[cfg(test)]
mod trees;
