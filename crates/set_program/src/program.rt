// A set of classes as the interpreter asks for it.
ghost use Rattle.std.specs.Prelude.{◌≡◌, IfOk};

use crate::kept;
use crate::linking::links_of;
use crate::links::Links;
use class_model::{Code, MemberRef};
use class_pool::ClassSet;
use jv_base::{Items, M, Name, Text};
use run_heap::{Found, Key, Known, Shapes, Target};
use run_steps::{Descriptors, Kinds};
use run_values::Value;
use std::alloc::Global;
use std::marker::Model;

/// A set of classes as a program, which contracts see as the list of the classes. It means by each name what the
/// machine's view of these classes does.
#[derive(Drop)]
pub struct SetProgram<'a> {
    set: &'a ClassSet,
    alloc: Global,
    links: Links,
    /// The names of the classes that are known by themselves.
    object: Name,
    string: Name,
    builder: Name,
    /// The name of class and interface initialisation methods (JVMS 2.9).
    clinit: Name,
    /// Their descriptor.
    no_parameters: Text,
}

impl<'a> Model for SetProgram<'a> {
    ghost use Rattle.std.specs.Prelude.{◌≡◌, List, codes};
    ghost use Rattle.class_model.specs.declared.class.Class.{Class};
    ghost use Rattle.run_heap.specs.Targets.{known_name};
    ghost use Rattle.run_heap.specs.declared.shapes.Known.TheVariants as known;
    ghost use Rattle.set_program.specs.bodies.Links.{AreLinks};

    ghost Value = { List Class };

    ghost view = { λ p. p.set.now };

    ghost invariant = { λ p. AreLinks p.set.now p.links × (p.object ≡ known_name known.Object)
        × (p.string ≡ known_name known.String) × (p.builder ≡ known_name known.StringBuilder)
        × (p.clinit ≡ codes "<clinit>") × (p.no_parameters ≡ codes "()V") };
}

impl<'a> SetProgram<'a> {
    ghost use Rattle.set_program.specs.bodies.Links.{AreLinks};

    /// The program that a set is.
    pub fn of(alloc: Global, set: &'a ClassSet) -> M<SetProgram<'a>>
        ensures { IfOk result (λ program. program ≡ set.now) }
    {
        let names = set_meanings::all_names(alloc, set)?;
        let links = links_of(alloc, set, names.as_slice())?;
        SetProgram::with(alloc, set, links)
    }

    fn with(alloc: Global, set: &'a ClassSet, links: Links) -> M<SetProgram<'a>>
        requires { AreLinks set.now links }
        ensures { IfOk result (λ program. program ≡ set.now) }
    {
        let object = Text::from_str(alloc, "java/lang/Object")?;
        let string = Text::from_str(alloc, "java/lang/String")?;
        let builder = Text::from_str(alloc, "java/lang/StringBuilder")?;
        let clinit = Text::from_str(alloc, "<clinit>")?;
        let no_parameters = Text::from_str(alloc, "()V")?;
        Ok(SetProgram {
            set,
            alloc,
            links,
            object,
            string,
            builder,
            clinit,
            no_parameters,
        })
    }
}

impl<'a> Descriptors for SetProgram<'a> {
    fn operand_kinds(
        &self,
        alloc: Global,
        has_receiver: bool,
        descriptor: &Text,
    ) -> M<Option<Kinds<'_>>> {
        kept::operand_kinds(alloc, &self.links, has_receiver, descriptor)
    }
}

impl<'a> Shapes for SetProgram<'a> {
    ghost use Rattle.set_view.specs.ViewOf.{shape_of, view_of};

    ghost shape = { shape_of };

    ghost code_of = { λ classes. (view_of classes).code };

    fn is_sub(&self, class: &Name, other: &Name) -> bool {
        kept::is_sub(self.set, &self.links, class, other)
    }

    fn name_of(&self, class: Known) -> &Name {
        match class {
            Known::Object => &self.object,
            Known::String => &self.string,
            Known::StringBuilder => &self.builder,
        }
    }

    fn is_library(&self, class: &Name) -> bool {
        kept::is_library(self.set, &self.links, class)
    }

    fn field(&self, reference: &MemberRef) -> M<Option<Found<'_>>> {
        kept::field(self.alloc, self.set, &self.links, reference)
    }

    fn static_target(&self, method: &MemberRef) -> M<Option<Target>> {
        kept::static_target(self.alloc, self.set, &self.links, method)
    }

    fn special_target(&self, from: &Name, method: &MemberRef) -> M<Option<Target>> {
        kept::special_target(self.alloc, self.set, &self.links, from, method)
    }

    fn selected_target(&self, class: &Name, method: &MemberRef) -> M<Option<Target>> {
        kept::selected_target(self.alloc, self.set, &self.links, class, method)
    }

    fn array_target(&self, method: &MemberRef) -> M<Option<Target>> {
        set_meanings::array_target(self.alloc, self.set, method)
    }

    fn firsts(&self, alloc: Global, class: &Name) -> M<Items<Name>> {
        set_meanings::firsts(alloc, self.set, class)
    }

    fn clinit(&self, class: &Name) -> M<Option<Key>> {
        set_meanings::clinit(
            self.alloc,
            self.set,
            class,
            &self.clinit,
            &self.no_parameters,
        )
    }

    fn fields_of(&self, alloc: Global, class: &Name) -> M<Items<Key>> {
        set_meanings::fields_of(alloc, self.set, class)
    }

    fn constant(&self, key: &Key) -> M<Option<Value>> {
        set_meanings::constant(self.set, key)
    }

    fn code(&self, key: &Key) -> Option<&Code> {
        kept::code(self.set, &self.links, key)
    }
}
