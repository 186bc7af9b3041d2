//! What the names of a mapping change that the clauses on names take: nothing that a run tells.
#![tactic(auto)]

mod laws;

pub use laws::mapped_classes_keep_same;
