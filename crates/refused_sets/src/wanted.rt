// What has to be kept of a set.
ghost use Rattle.std.specs.Prelude.{IfOk};
ghost use Rattle.jv_base.specs.Outcome.{IsDue};
ghost use Rattle.mark_core.specs.Valid.{Valid};
ghost use Rattle.rule_system.specs.Required.{system_due};

use class_pool::ClassSet;
use jv_base::Or;
use keep_rules::Rules;
use mark_core::System;
use require_sys::TooMany;
use std::alloc::Global;

/// `system_of` of `rule_system`.
pub fn system_of(alloc: Global, set: &ClassSet, rules: &Rules) -> Result<System, Or<TooMany>>
    ensures exact { IsDue result (system_due set.now rules.now) }
    ensures valid { IfOk result Valid }
{
    rule_system::system_of(alloc, set, rules)
}
