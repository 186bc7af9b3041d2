// What becomes of the codes of a set.
ghost use Rattle.std.specs.Prelude.{◌≡◌, ℕ, IfOk, Some, length, slice_get};
ghost use Rattle.class_model.specs.WellFormed.{IsWellFormed};
ghost use Rattle.class_model.specs.declared.class.Class.{Class};
ghost use Rattle.class_pool.specs.Count.{item_count};
ghost use Rattle.pass_driver.specs.Optimised.{IsOptimised};
ghost use Rattle.type_verifier.specs.Verified.{AreTyped};

use class_pool::ClassSet;
use jv_base::M;
use mark_words::Marked;
use pass_driver::Optimised;
use std::alloc::Global;
use std::thread::Threads;

/// Has the contract of the call that is its body.
pub fn optimise<Rt: Threads + Sync>(
    rt: &Rt,
    workers: usize,
    alloc: Global,
    set: &ClassSet,
    marked: &Marked,
) -> M<Optimised>
    requires marks { length marked.now ≡ item_count set.now }
    requires formed { (n : ℕ) (c : Class) → slice_get set.now n ≡ Some c → IsWellFormed c }
    requires typed { AreTyped set.now }
    ensures { IfOk result (IsOptimised marked.now set.now) }
{
    pass_driver::optimise(rt, workers, alloc, set, marked)
}
