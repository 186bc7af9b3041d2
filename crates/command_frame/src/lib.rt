//! What commands have in common: the refusals with their lines, the reading of a file, and the run of a command, of which
//! nothing is left to each but what is due of it.
#![tactic(auto)]

mod command;
mod reading;
mod refusal;
mod saying;
mod stop;

pub use command::{Command, Plan, run_command};
pub use reading::read_file;
pub use refusal::{Quantity, Reason, Refusal, absent_file, faulty_text, passed_limit};
pub use saying::{say_line, say_no_memory, say_stop, say_text};
pub use stop::Stop;
