//! What holds of class files and of the classes that they spell (JVMS 4).
#![tactic(auto)]

mod reading;

pub use reading::files_are_read_where_spelled;
