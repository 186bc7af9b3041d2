// What is left of classes, by marks.
ghost use Rattle.std.specs.Prelude.{◌≡◌, IfOk, length};
ghost use Rattle.class_pool.specs.Count.{item_count};
ghost use Rattle.member_shrink.specs.Shrunk.{shrunk};

use class_model::Class;
use jv_base::{Items, M};
use mark_words::Marked;
use std::alloc::Global;

/// `shrunk` of `member_shrink`.
pub fn shrunk(alloc: Global, classes: Items<Class>, marked: &Marked) -> M<Items<Class>>
    requires { length marked.now ≡ item_count classes }
    ensures { IfOk result (λ kept. kept ≡ shrunk classes marked.now) }
{
    member_shrink::shrunk(alloc, classes, marked)
}
