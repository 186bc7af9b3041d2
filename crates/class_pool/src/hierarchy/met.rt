// Classes that are met in a walk.
ghost use Rattle.std.specs.Prelude.{◌≡◌, ◌++◌, ◌<◌, [], ◌∷◌, length, IfOk, OnOk};
ghost use Rattle.std.specs.List.{All};
ghost use Rattle.class_pool.specs.bodies.Graph.{library_ids, number};
ghost use Rattle.class_pool.specs.bodies.Marked.{IsBelow, IsLeft};
ghost use Rattle.class_pool.specs.Walk.{each_once};

use crate::ClassId;
use crate::hierarchy::graph::number;
use jv_base::{Items, M};
use lib_table::LibId;
use std::alloc::Global;
use std::marker::Model;
use std::mem::replace;

/// The classes that were met, each once, in the order in which they were met first.
#[derive(Drop)]
pub(crate) struct Met {
    /// By the number of a class whether it was met.
    marks: Vec<bool>,
    ids: Items<ClassId>,
}

impl Model for Met {
    ghost use Rattle.std.specs.Prelude.{length};
    ghost use Rattle.class_pool.specs.bodies.Marked.{Classes, IsMarked};

    ghost Value = { Classes };

    ghost view = { λ s. record { count = length s.marks.items; ids = s.ids } };

    ghost invariant = { λ s. IsMarked s.marks.items s.ids };
}

impl Met {
    /// None yet, of classes whose numbers are below `count`.
    pub(crate) fn new(alloc: Global, count: usize) -> M<Met>
        ensures { IfOk result (λ met. met ≡ record { count = count; ids = [] }) }
    {
        let marks = vec![in alloc; false; count]?;
        Ok(Met {
            marks,
            ids: Items::new(alloc),
        })
    }

    pub(crate) fn meet(&mut self, library: &Items<LibId>, id: &ClassId) -> M<()>
        requires library { library.now ≡ library_ids }
        requires below { IsBelow self.old.count id.now }
        ensures count { self.new.count ≡ self.old.count }
        ensures ids { OnOk result (self.new.ids ≡ self.old.ids ++ each_once self.old.ids (id.now ∷ [])) }
    {
        let place = number(library, *id);
        if self.marks[place] {
            return Ok(());
        }
        self.ids.push(*id)?;
        self.marks[place] = true;
        Ok(())
    }

    pub(crate) fn meet_all(&mut self, library: &Items<LibId>, ids: &[ClassId]) -> M<()>
        requires library { library.now ≡ library_ids }
        requires below { All (IsBelow self.old.count) ids.now }
        ensures count { self.new.count ≡ self.old.count }
        ensures ids { OnOk result (self.new.ids ≡ self.old.ids ++ each_once self.old.ids ids.now) }
    {
        for id in ids {
            self.meet(library, id)?;
        }
        Ok(())
    }

    /// Those that were met. From then on it has none.
    pub(crate) fn take(&mut self, alloc: Global, library: &Items<LibId>) -> Items<ClassId>
        requires { library.now ≡ library_ids }
        ensures count { self.new.count ≡ self.old.count }
        ensures none { self.new.ids ≡ [] }
        ensures ids { result ≡ self.old.ids }
    {
        let ids = replace(&mut self.ids, Items::new(alloc));
        unmark(library, &mut self.marks, ids.as_slice());
        ids
    }
}

fn unmark(library: &Items<LibId>, marks: &mut Vec<bool>, ids: &[ClassId])
    requires library { library.now ≡ library_ids }
    requires below { All (IsBelow (length marks.old.items)) ids.now }
    ensures lengths { length marks.new.items ≡ length marks.old.items }
    ensures left { IsLeft marks.old.items ids.now marks.new.items }
{
    for id in ids {
        let place = number(library, *id);
        marks[place] = false;
    }
}
