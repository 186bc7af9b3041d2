// How far the initialisation of classes is (JVMS 5.5).
ghost use Rattle.std.specs.Prelude.{◌≡◌, [], OnOk};
ghost use Rattle.jvm_model.specs.Initialisation.{is_due};
ghost use Rattle.jvm_model.specs.Program.{Shape};
ghost use Rattle.jvm_model.specs.Value.{set_class};
ghost use Rattle.run_machine.specs.Inits.{init_at, init_of};

use indexmap::IndexMap;
use jv_base::{M, Name};
use run_heap::Shapes;
use std::alloc::Global;
use std::marker::Model;

/// How far the initialisation of a class or interface is: not begun, begun, ended, or failed.
#[derive(Clone, Copy, PartialEq, Eq)]
pub enum Init {
    Fresh,
    Begun,
    Ready,
    Failed,
}

/// How far each class is whose initialisation was begun or has failed, which contracts see as a list. One is found by
/// its name at once, however many there are.
#[derive(Drop)]
pub struct Marks {
    inits: IndexMap<Name, Init>,
}

impl Model for Marks {
    ghost use Rattle.std.specs.Prelude.{List, ℕ};
    ghost use Rattle.run_machine.specs.declared.inits.Init.{Init};

    ghost Value = { List (List ℕ × Init) };

    ghost view = { λ m. m.inits.entries };
}

impl Marks {
    /// No class is marked.
    pub fn new(alloc: Global) -> Self
        ensures { result ≡ [] }
    {
        Marks {
            inits: IndexMap::new(alloc),
        }
    }

    /// A class has come so far.
    pub fn mark(&mut self, class: Name, init: Init) -> M<()>
        ensures { OnOk result ((p : Shape) → init_at p self.new
            ≡ set_class (init_at p self.old) class (init_of init)) }
    {
        self.inits.insert(class, init)?;
        Ok(())
    }
}

/// How far a class is; where it wasn't marked, the classes of the library are initialised, and no other one.
pub(crate) fn init_of<S: Shapes>(shapes: &S, marks: &Marks, class: &Name) -> Init
    ensures { init_of result ≡ init_at (S.shape shapes.now) marks.now class.now }
{
    match marks.inits.get(class) {
        Some(init) => *init,
        None => {
            if shapes.is_library(class) {
                Init::Ready
            } else {
                Init::Fresh
            }
        }
    }
}

/// Whether a class still has to be initialised.
pub(crate) fn is_due<S: Shapes>(shapes: &S, marks: &Marks, class: &Name) -> bool
    ensures { result ≡ is_due (init_at (S.shape shapes.now) marks.now class.now) }
{
    match init_of(shapes, marks, class) {
        Init::Fresh => true,
        Init::Begun => false,
        Init::Ready => false,
        Init::Failed => true,
    }
}
