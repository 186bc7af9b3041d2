// What references mean, and which method a call runs.
pub mod access;
pub mod found;
pub mod resolution;
pub mod running;
pub mod selection;
pub mod special;
pub mod superinterface_methods;
pub mod superinterfaces;
