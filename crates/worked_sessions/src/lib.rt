//! Worked sessions: journals that were followed by hand, and what they write, as laws over the definitions alone.
//!
//! Each function of `laws.rt` does nothing, and its clause says that the outputs of a journal are these messages. The journals and the messages
//! stand in `specs/`, a file a session. So a definition that answers something else than the session shows is refused here.
#![tactic(auto)]

mod laws;

pub use laws::{
    a_call_is_aborted, a_request_is_told_of_the_server, a_text_is_evaluated,
    a_type_error_is_announced,
};
