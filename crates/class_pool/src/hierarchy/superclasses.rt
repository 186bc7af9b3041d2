// The superclass of each class, found by its name once.
ghost use Rattle.std.specs.Prelude.{◌≡◌, IfOk, map};
ghost use Rattle.class_pool.specs.Hierarchy.{superclass_of};

use crate::ClassId;
use crate::set::lookup::ClassesByName;
use jv_base::{Items, M};
use std::alloc::Global;

/// For each class its direct superclass, in the order of the classes; none where no class has its name.
pub(crate) fn superclasses_of(alloc: Global, classes: &ClassesByName) -> M<Items<Option<ClassId>>>
    ensures { IfOk result (λ ids. ids ≡ map (superclass_of classes.now) classes.now) }
{
    let mut ids = Items::new(alloc);
    for number in 0..classes.len() {
        ids.push(classes.find(&classes.class(number).super_name))?;
    }
    Ok(ids)
}
