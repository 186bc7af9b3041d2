//! The methods of the library, as the machine of `jvm_model` has them.
#![tactic(auto)]

mod builders;
mod exception;
mod methods;
mod objects;
mod parts;
mod references;
mod row;
mod seen;
mod streams;
mod strings;
mod table;
mod told;
mod units;

pub use exception::{Exception, class_of};
pub use methods::act;
pub use row::{Row, Told};
pub use seen::{Act, Seen};
pub use table::row_of;
