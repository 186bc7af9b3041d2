//! The steps of commands that read configs and class files, each with what is due of it and how it is refused.
#![tactic(auto)]

mod config;
mod directory;
mod laws;
mod refusals;
mod set;
mod system;
mod texts;

pub use config::{find_config, find_config_apart};
pub use directory::find_files;
pub use laws::{configs_are_read, one_config};
pub use refusals::name_or_dash;
pub use set::set_of;
pub use system::requirements;
pub use texts::{find_earlier, mapping_in, witness_in};
