// What holds of sets that are taken.
ghost use Rattle.std.specs.Prelude.{◌≡◌, List, Ok};
ghost use Rattle.class_model.specs.declared.class.Class.{Class};
ghost use Rattle.link_check.specs.Profile.{links_checked};
ghost use Rattle.link_check.specs.Taken.{BreaksNoRule};

/// Of a set that `check_links` takes no class, no field and no method breaks a rule.
pub fn taken_sets_break_no_rule()
    ensures { (classes : List Class) → links_checked classes ≡ Ok tt → BreaksNoRule classes }
{}
