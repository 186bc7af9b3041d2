// Sets with the codes that the passes leave.
ghost use Rattle.optimised_laws.specs.Laws.{OptimisedSetsAreSwapped, OptimisedSetsAreTyped};
ghost use Rattle.optimised_laws.specs.Laws.{SetsByRulesAreSwapped, SetsByRulesAreTyped};

use edit_laws::found::found_acts_are_legal;

/// A set that is taken and typed is swapped for the one with the codes that become of its kept methods, and that is
/// typed. It does nothing.
pub fn optimised_sets_are_swapped()
    ensures swapped { OptimisedSetsAreSwapped }
    ensures typed { OptimisedSetsAreTyped }
{
    found_acts_are_legal();
}

/// The same by the rules, where a set that isn't to be optimised stays as it is (ProGuard manual, "-dontoptimize"). It
/// does nothing.
pub fn sets_by_rules_are_swapped()
    ensures swapped { SetsByRulesAreSwapped }
    ensures typed { SetsByRulesAreTyped }
{
    found_acts_are_legal();
}
