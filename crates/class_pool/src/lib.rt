//! The hierarchy of a set of class files: which classes there are, and their supertypes up into the library.
#![tactic(auto)]

mod alike;
mod fault;
mod hierarchy;
mod id;
mod known;
mod library;
mod rows;
mod set;
mod upwards;

pub use alike::AlikeMethods;
pub use fault::{NamedClass, PoolFault, PoolKind};
pub use hierarchy::building::build;
pub use id::{ClassId, MemberAt};
pub use known::{known_at, superclass_number, unknown_from};
pub use library::library_names;
pub use rows::computed_links;
pub use set::ClassSet;
pub use upwards::Superclasses;
