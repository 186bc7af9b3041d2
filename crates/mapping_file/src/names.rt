// The names of classes that were read.
ghost use Rattle.std.specs.Prelude.{◌≡◌, true, not, List, [], ◌∷◌, ◌++◌, IfOk, OnOk};
ghost use Rattle.std.specs.BTreeSet.{Updates, contains};
ghost use Rattle.std.specs.Cmp.Lexicographic.{slice_cmp};
ghost use Rattle.std.specs.Ordering.{nat_cmp};
ghost use Rattle.mapping_file.specs.MapReading.{empty_class, has_name};
ghost use Rattle.mapping_file.specs.bodies.NameTable.{TellsNames};
ghost use Rattle.mapping_file.specs.declared.mapping.MapClass.{MapClass};

use jv_base::{M, Name};
use std::alloc::Global;
use std::collections::BTreeSet;

/// The old and the new names of classes, in order, so that no choice of names makes a search slow.
#[derive(Drop)]
pub(crate) struct ClassNames {
    before: BTreeSet<Name>,
    after: BTreeSet<Name>,
}

impl ClassNames {
    pub(crate) fn new(alloc: Global) -> ClassNames
        ensures { TellsNames result [] }
    {
        ClassNames {
            before: BTreeSet::new(alloc),
            after: BTreeSet::new(alloc),
        }
    }

    /// Puts the names of a class, and answers whether no class has one of them yet.
    pub(crate) fn put(&mut self, old: &Name, new: &Name) -> M<bool>
        ensures is_new { (classes : List MapClass) → TellsNames self.old classes
            → IfOk result (λ is_new. is_new ≡ not (has_name classes old.now new.now)) }
        ensures put { (classes : List MapClass) → TellsNames self.old classes
            → OnOk result (TellsNames self.new (classes ++ empty_class old.now new.now ∷ [])) }
    {
        let is_new_before = put_name(&mut self.before, old)?;
        let is_new_after = put_name(&mut self.after, new)?;
        Ok(is_new_before && is_new_after)
    }
}

fn put_name(names: &mut BTreeSet<Name>, name: &Name) -> M<bool>
    ensures is_new { IfOk result (λ is_new. is_new ≡ not (contains (slice_cmp nat_cmp) names.old name.now)) }
    ensures put { OnOk result (Updates (slice_cmp nat_cmp) names.old names.new name.now true) }
{
    Ok(names.insert(name.clone()?)?)
}
