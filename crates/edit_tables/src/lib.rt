//! Tables on the indices of a code: where control goes, what acts do there, and where indices come
//! to stand.
#![tactic(auto)]

pub mod aims;
pub mod dropping;
pub mod flow;
pub mod marks;
pub mod places;
pub mod skipping;
pub mod spreading;
