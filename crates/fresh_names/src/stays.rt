// What stays, by groups of names.
ghost use Rattle.std.specs.Prelude.{◌≡◌, [], IfOk};
ghost use Rattle.fresh_names.specs.Fresh.{is_taken};
ghost use Rattle.fresh_names.specs.bodies.Giving.{front_in, stays_in, what_stays};

use crate::taken::{Named, TakenMethods, TakenSet};
use jv_base::{M, Name, Text};
use std::alloc::Global;

/// The names that stay among classes, fields or methods. Each of these has a group: a class the package that it is in,
/// a method its descriptor, and all fields one.
#[derive(Clone, Copy)]
pub(crate) enum Stays<'a> {
    Classes(&'a TakenSet),
    Fields(&'a TakenSet),
    Methods(&'a TakenMethods),
}

impl<'a> Stays<'a> {
    /// What is named.
    pub(crate) fn named(&self) -> Named
        ensures { result ≡ what_stays self.now }
    {
        match self {
            Stays::Classes(_) => Named::Class,
            Stays::Fields(_) => Named::Field,
            Stays::Methods(_) => Named::Method,
        }
    }

    /// Whether a name stays in a group.
    pub(crate) fn has(&self, member: &(Name, Text)) -> bool
        ensures { result ≡ is_taken (stays_in self.now member.now.1) member.now.0 }
    {
        match self {
            Stays::Classes(names) => names.has(&member.0),
            Stays::Fields(names) => names.has(&member.0),
            Stays::Methods(methods) => methods.has(member),
        }
    }

    /// What the new names of a group begin with: the package of classes with the `/` behind it, or nothing.
    pub(crate) fn front(&self, alloc: Global, group: &Text) -> M<Text>
        ensures { IfOk result (λ front. front ≡ front_in self.now group.now) }
    {
        match self {
            Stays::Classes(_) => Ok(group.clone()?),
            Stays::Fields(_) => Ok(Text::from_str(alloc, "")?),
            Stays::Methods(_) => Ok(Text::from_str(alloc, "")?),
        }
    }
}
