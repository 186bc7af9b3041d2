//! What the passes change in a code, and that each change meets what the machine asks of one.
#![tactic(auto)]
