//! Tests of the crates that find marks by their public calls, in a crate of their own, so that none of these is proved
//! twice for its tests.
#![tactic(auto)]

#[cfg(test)]
mod component;
#[cfg(test)]
mod marks;
#[cfg(test)]
mod seats;
