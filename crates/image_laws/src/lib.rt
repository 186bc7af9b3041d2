//! When one set of classes is the image of another, and what follows for both.
#![tactic(auto)]

pub mod set_image;
pub mod shrunk_image;
pub mod taken_set;
pub mod typed_image;
pub mod view_image;
