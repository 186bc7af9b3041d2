//! Why an item is kept: derivations of least depth in a system of requirements.
#![tactic(auto)]

mod by_item;
mod certify;
mod explain;
mod laws;
mod reasons;
mod search;
mod sources;

pub use certify::levels_ok;
pub use laws::{derivations_mark, levels_bound};
pub use reasons::{By, Reasons, WhyStep, why};
