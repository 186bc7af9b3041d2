//! The classes of the Java library that a program may use, as a table.
#![tactic(auto)]

mod class;
mod descriptor;
mod member;
mod table;

pub use class::{LibId, LibKind, lib_class, lib_interface, lib_kind, lib_name, lib_super};
pub use member::{
    LibMember, Role, lib_is, lib_like, lib_member, lib_member_at, lib_method, lib_named, lib_same,
};
