//! What new names keep of the types of methods.
ghost use Rattle.pair_laws.specs.RenamedTyped.Laws.{RenamedIsTyped};

/// Where each method of a set that is taken is typed, so is each one of its classes under names that keep the form and
/// stay apart and in whatever order. It does nothing.
pub fn renamed_sets_are_typed()
    ensures { RenamedIsTyped }
{}
