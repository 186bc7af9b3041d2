// What rules ask of a set.
ghost use Rattle.std.specs.Prelude.{◌≡◌, IfOk, codes};
ghost use Rattle.attribute_filter.specs.KeptAttributes.{is_kept};
ghost use Rattle.rule_system.specs.Required.{kept_by_rules};

use attribute_filter::attribute_filter;
use class_pool::ClassSet;
use jv_base::M;
use keep_match::{members_asked, seeds_of};
use keep_rules::Rules;
use require_sys::KeptByRules;
use std::alloc::Global;

/// What the rules of a config ask of a set (ProGuard manual, "Keep Options", "-dontshrink", "-keepattributes").
pub fn kept_by_rules(alloc: Global, set: &ClassSet, rules: &Rules) -> M<KeptByRules>
    ensures { IfOk result (λ kept. kept ≡ kept_by_rules set.now rules.now) }
{
    let exceptions = keeps_exceptions(alloc, rules)?;
    let seeds = seeds_of(alloc, rules, set)?;
    let members = members_asked(alloc, rules, set)?;
    Ok(KeptByRules {
        shrink: rules.shrink,
        seeds,
        members,
        exceptions,
    })
}

fn keeps_exceptions(alloc: Global, rules: &Rules) -> M<bool>
    ensures { IfOk result (λ keeps. keeps ≡ is_kept rules.now (codes "Exceptions")) }
{
    let filter = attribute_filter(alloc, rules)?;
    Ok(filter.exceptions)
}
