// What the rules look at beside a frame (JVMS 4.10.1.1).
ghost use Rattle.std.specs.Prelude.{◌≡◌, IfOk};
ghost use Rattle.type_verifier.specs.Environment.{in_constructor, own_type};
ghost use Rattle.type_verifier.specs.bodies.Seen.{environment_of};

use crate::hierarchy::Hierarchy;
use crate::known::Known;
use crate::types::class_type;
use class_model::{Class, Code, Method, VType};
use jv_base::M;

/// A method of a class of the set, and the code that is looked at as that method's.
#[derive(Drop)]
pub(crate) struct Env<'a> {
    pub(crate) set: &'a Hierarchy<'a>,
    /// The number of the class.
    pub(crate) own: u32,
    pub(crate) class: &'a Class,
    /// The number of the method among those of the class.
    pub(crate) number: u32,
    pub(crate) method: &'a Method,
    pub(crate) code: &'a Code,
    pub(crate) known: &'a Known,
}

impl<'a> Env<'a> {
    /// The type of the own class.
    pub(crate) fn own_type(&self) -> M<VType>
        ensures { IfOk result (λ ty. ty ≡ own_type (environment_of self.now)) }
    {
        Ok(VType::Object(class_type(&self.class.name)?))
    }

    /// Whether the method is a constructor.
    pub(crate) fn is_in_constructor(&self) -> bool
        ensures { result ≡ in_constructor (environment_of self.now) }
    {
        self.method.name.as_str() == "<init>"
    }
}
