//! What a user is told on standard error beside the line of a command that ended without its result: what it means, and
//! what to do. The tree and the sink that are listened to hand every call on.
#![tactic(auto)]

mod heard;
mod sentences;
mod telling;
mod watched;

pub use heard::Heard;
pub use sentences::advice;
pub use telling::explain;
pub use watched::{Failing, Watched};
