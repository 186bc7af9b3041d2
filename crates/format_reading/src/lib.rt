//! Where and why bytes are no class file, the readers that say it, and the laws by which a reader
//! takes exactly the texts that a grammar spells.
#![tactic(auto)]

mod fault;

pub use fault::{FormatFault, FormatKind, of_part};
