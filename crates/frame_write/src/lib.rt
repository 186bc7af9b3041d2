//! The bytes of the stack map frames of a code, in their canonical rows (JVMS 4.7.4).
#![tactic(auto)]

mod comparing;
mod constants;
mod form;
mod writing;

pub use form::{FrameForm, frame_form};
pub use writing::{write_frames, write_frames_with};
