// What has to be kept of a set.
ghost use Rattle.std.specs.Prelude.{◌≡◌, IfOk};
ghost use Rattle.mark_core.specs.Valid.{Valid};
ghost use Rattle.command_frame.specs.Steps.{Makes};
ghost use Rattle.command_steps.specs.System.{IsSystem, keeps_nothing, nothing_kept};

use crate::refusals::faulty_rules;
use class_pool::ClassSet;
use command_frame::{Stop, passed_limit};
use jv_base::Or;
use keep_rules::{RuleFault, RuleKind, Rules};
use mark_core::System;
use rule_system::system_of;
use std::alloc::Global;

/// The requirements of a set by rules, which keep something.
pub fn requirements(alloc: Global, rules: &Rules, set: &ClassSet) -> Result<System, Stop>
    ensures made { Makes result (IsSystem rules.now set.now) }
    ensures valid { IfOk result Valid }
{
    match system_of(alloc, set, rules) {
        Ok(sys) => {
            if keeps_nothing(rules, &sys) {
                return Err(Stop::Refused(faulty_rules(alloc, &nothing_kept())?));
            }
            Ok(sys)
        }
        Err(Or::Fault(many)) => {
            let (name, limit) = (many.what.name(), many.what.limit());
            Err(Stop::Refused(passed_limit(alloc, name, limit)?))
        }
        Err(Or::OutOfMemory) => Err(Stop::OutOfMemory),
    }
}

/// Whether rules keep nothing, though what isn't kept goes, where this has to be kept by them.
fn keeps_nothing(rules: &Rules, sys: &System) -> bool
    ensures { result ≡ keeps_nothing rules.now sys.now }
{
    rules.shrink && sys.seeds.is_empty()
}

/// Nothing is kept.
fn nothing_kept() -> RuleFault
    ensures { result ≡ nothing_kept }
{
    RuleFault {
        line: 0,
        kind: RuleKind::NothingKept,
    }
}
