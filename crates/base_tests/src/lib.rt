//! Tests of the lower crates by their public calls, in a crate of their own, so that no crate is proved twice for its
//! tests: what no clause says, as that a call succeeds where there is memory, and what the system's files hold.
#![tactic(auto)]

#[cfg(test)]
mod batches;
#[cfg(test)]
mod disk;
#[cfg(test)]
mod files;
#[cfg(test)]
mod library;
#[cfg(test)]
mod lines;
#[cfg(test)]
mod queues;
#[cfg(test)]
mod spelling;
#[cfg(test)]
mod texts;
#[cfg(test)]
mod trees;
