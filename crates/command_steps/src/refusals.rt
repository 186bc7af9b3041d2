// How what was read is refused.
ghost use Rattle.std.specs.Prelude.{◌≡◌, IfOk};
ghost use Rattle.command_steps.specs.Refusals.{format_refused, named_or_dash, profile_refused, rules_refused};

use command_frame::{Reason, Refusal};
use format_reading::FormatFault;
use jv_base::{M, Text};
use report_text::format_name;
use set_read::RuleFault;
use std::alloc::Global;

/// A config is at fault: where, and the kind with its option.
pub(crate) fn faulty_rules(alloc: Global, fault: &keep_rules::RuleFault) -> M<Refusal>
    ensures { IfOk result (λ refusal. refusal ≡ rules_refused fault.now) }
{
    let line = fault.line;
    let name = fault.kind.name();
    match fault.kind.option() {
        Some(option) => {
            let option = option.as_str();
            let told = format!(in alloc; "{line} {name} {option}")?;
            Refusal::new(alloc, Reason::Rules, told)
        }
        None => {
            let told = format!(in alloc; "{line} {name}")?;
            Refusal::new(alloc, Reason::Rules, told)
        }
    }
}

/// The file at a path is no class file.
pub(crate) fn no_class_file(alloc: Global, path: &Text, fault: &FormatFault) -> M<Refusal>
    ensures { IfOk result (λ refusal. refusal ≡ format_refused path.now fault.now) }
{
    let path = path.as_str();
    let offset = fault.offset;
    let kind = format_name(fault.kind);
    let told = format!(in alloc; "{path} {offset} {kind}")?;
    Refusal::new(alloc, Reason::Format, told)
}

/// A class breaks a rule.
pub(crate) fn no_set(alloc: Global, fault: &RuleFault) -> M<Refusal>
    ensures { IfOk result (λ refusal. refusal ≡ profile_refused fault.now) }
{
    let class = fault.class.as_str();
    let member = name_or_dash(&fault.member);
    let kind = fault.kind.name();
    let told = format!(in alloc; "{class} {member} {kind}")?;
    Refusal::new(alloc, Reason::Profile, told)
}

/// The text of a class or a member, `-` where there is none.
pub fn name_or_dash(name: &Option<Text>) -> &str
    ensures { result.now ≡ named_or_dash name.now }
{
    match name {
        Some(name) => name.as_str(),
        None => "-",
    }
}
