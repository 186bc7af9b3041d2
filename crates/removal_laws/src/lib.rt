//! What closed marks leave of a set of classes is taken, is typed and does the same.
#![tactic(auto)]

pub mod accepted_sets;
pub mod filtered_same;
pub mod filtered_set;
pub mod removal_accepted;
pub mod removal_builds;
pub mod removal_image;
pub mod removal_links;
pub mod removal_same;
pub mod removal_typed;
