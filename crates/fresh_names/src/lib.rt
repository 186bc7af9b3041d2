//! New names for classes and members, in their order.
#![tactic(auto)]

mod fresh;
mod front;
mod giving;
mod grouped;
mod laws;
mod naming;
mod stays;
mod taken;

pub use laws::given_names_differ;
pub use naming::new_names;
pub use taken::{Named, TakenMethods, TakenNames, TakenSet};
