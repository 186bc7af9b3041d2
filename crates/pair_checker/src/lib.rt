//! Whether an output belongs to an input, by a mapping, rules and a witness, or the first place at which it doesn't.
#![tactic(auto)]

mod answer;
mod checking;
mod laws;
mod matching;

pub use answer::{Clause, No};
pub use checking::{Told, check_pair, check_required};
pub use laws::pairs_have_one_answer;
