//! Tests of a thread's stack, which hold no code: each public call of the stack, of going in, of exits and of restarts on its happy path, as far
//! as no session of `swank_rows` makes it. They stand apart so that they are proved without the crates that they test being proved again.
#![tactic(auto)]

#[cfg(test)]
mod entering;
#[cfg(test)]
mod exits;
#[cfg(test)]
mod restarts;
#[cfg(test)]
mod samples;
#[cfg(test)]
mod stacks;
