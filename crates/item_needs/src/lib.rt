//! What each item of a set needs.
#![tactic(auto)]

mod classes;
mod code;
mod frames;
mod known;
mod members;
mod named;
mod needs;
mod wants;

pub use needs::{Needs, needs_of};
