//! The rules that a config gives (ProGuard manual, "Usage"): what the words of a config stand for, or the first fault.
#![tactic(auto)]

mod ahead;
mod draft;
mod fault;
mod filtering;
mod keeping;
mod laws;
mod options;
mod paths;
mod reading;
mod rules;
mod specifications;
mod texts;
mod values;

pub use fault::{RuleFault, RuleKind};
pub use laws::rules_are_read;
pub use paths::meets_config;
pub use reading::read_rules;
pub use rules::{ClassSpec, Filter, Keep, KeepKind, MemberSpec, Rules};
