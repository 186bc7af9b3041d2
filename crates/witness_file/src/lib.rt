//! Witnesses, which tell how each method was edited: read and written.
#![tactic(auto)]

mod acts;
mod line;
mod methods;
mod reading;
mod steps;
mod witness;
mod writing;

pub use acts::{act_of, push_act};
pub use reading::{first_fault, one_witness, read_witness};
pub use witness::{MethodWitness, WitFault, WitKind, Witness};
pub use writing::write_witness;
