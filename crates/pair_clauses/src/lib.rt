//! What is tested of a pair of programs, clause by clause: the first place at which each of them holds.
#![tactic(auto)]

mod closing;
mod codes;
mod fixed;
mod lined;
mod members;
mod place;
mod ranges;
mod seen;
mod shape;
mod texts;

pub use closing::{closed_fault, seed_fault};
pub use codes::has_same_code;
pub use fixed::{fixed_fault, package_fault};
pub use lined::lined_items;
pub use members::{member_differs, new_one};
pub use place::{Place, method_place};
pub use ranges::range_fault;
pub use shape::shape_fault;
pub use texts::described_text;
