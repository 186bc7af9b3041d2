//! Tests of the commands as a whole, over trees and sinks in memory, in a crate of their own, so that the command isn't
//! proved twice for them: files too long or too many for a stored run, or in more places than it tells, workers that
//! meet, and more classes than one worker takes.
#![tactic(auto)]

#[cfg(test)]
mod batches;
#[cfg(test)]
mod calls;
#[cfg(test)]
mod gates;
#[cfg(test)]
mod generated;
#[cfg(test)]
mod marks;
#[cfg(test)]
mod shrink;
