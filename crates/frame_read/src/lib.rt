//! The stack map frames of a code, from their bytes (JVMS 4.7.4).
#![tactic(auto, unfolding(crate::proofs::Unfolding::numbers))]

mod back;
mod fault;
mod frames;
mod reader;
mod reading;
mod row;
mod starts;
mod table;
mod types;

pub use back::frames_are_read_back;
pub use fault::FrameFault;
pub use reader::FrameReader;
pub use starts::Starts;
pub use table::{StackMapTable, frames_at, read_frames};
