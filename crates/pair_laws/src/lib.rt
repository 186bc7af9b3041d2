//! What holds of a set of classes under new names, of a pair of programs that the check takes, and of what is written.
#![tactic(auto)]

pub mod edited_pairs;
pub mod files_found;
pub mod named_form;
pub mod own_checked;
pub mod own_lines;
pub mod own_mapping;
pub mod own_names;
pub mod own_pairs;
pub mod own_shape;
pub mod pair_same;
pub mod pair_sound;
pub mod pair_trace;
pub mod renamed_form;
pub mod renamed_image;
pub mod renamed_same;
pub mod renamed_taken;
pub mod renamed_typed;
pub mod swapped_pairs;
