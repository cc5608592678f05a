//! Tests of the functions that take one step and of those that a request may call, which hold no code: tables of calls with what they
//! give. They stand apart so that they are proved without the crates that they test being proved again.
#![tactic(auto)]

#[cfg(test)]
mod builtins;
#[cfg(test)]
mod requests;
