// Calls on the types of codes.
ghost use Rattle.std.specs.Prelude.{◌≡◌, ◌<◌, Ok, Some, length, slice_get};
ghost use Rattle.jv_base.specs.Outcome.{IsDue};
ghost use Rattle.class_model.specs.declared.class.Class.{Class};
ghost use Rattle.type_verifier.specs.Assignable.{is_assignable};
ghost use Rattle.type_verifier.specs.Verified.{IsTypedAt, JudgesMethod};

use class_model::VType;
use class_pool::ClassSet;
use jv_base::Or;
use std::alloc::Global;
use type_verifier::TypeFault;

/// `assignable` of `type_verifier`.
pub fn assignable(set: &ClassSet, from: &VType, to: &VType) -> bool
    ensures { result ≡ is_assignable set.now from.now to.now }
{
    type_verifier::assignable(set, from, to)
}

/// `verify_method` of `type_verifier`.
pub fn verify_method(
    alloc: Global,
    set: &ClassSet,
    class: u32,
    method: u32,
) -> Result<(), Or<TypeFault>>
    requires class { class < length set.now }
    requires method { (c : Class) → slice_get set.now class ≡ Some c → method < length c.methods }
    ensures judged { JudgesMethod result set.now class method }
    ensures typed { IsTypedAt set.now class method → IsDue result (Ok tt) }
{
    type_verifier::verify_method(alloc, set, class, method)
}
