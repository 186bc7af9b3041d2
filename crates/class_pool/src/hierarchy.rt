// How a set is made of classes that have a hierarchy.
pub mod building;
pub mod count;
pub mod cycles;
pub mod graph;
pub mod met;
pub mod rounds;
pub mod shared_lists;
pub mod superclasses;
pub mod superinterfaces;
pub mod supers;
