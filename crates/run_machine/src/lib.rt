//! The machine of `jvm_model`, run on a program.
#![tactic(auto)]

mod answers;
mod asking;
mod constants;
mod going;
mod initialising;
mod inits;
mod pile;
mod requests;
mod returning;
mod running;
mod state;
mod stepping;
mod unwinding;
mod waiting;

pub use inits::{Init, Marks};
pub use pile::Pile;
pub use running::run;
pub use state::{Control, Frame, Rest, State, Status, Wait};
