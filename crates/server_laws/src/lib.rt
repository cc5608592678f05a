//! The laws of every session of this server.
//!
//! They are the clauses of the functions of `laws.rt`: each message that a session writes fits a packet, package names that are short stay
//! short, and a request for a restart that isn't there any more does nothing. What the first two ask of the image and of what arrives stands
//! in `specs/Small.antt`; [`has_short_names`] decides what they ask of the image.
#![tactic(auto)]

mod laws;
mod short_names;

pub use laws::{outputs_fit_their_packets, short_names_stay_short, stale_requests_do_nothing};
pub use short_names::has_short_names;
