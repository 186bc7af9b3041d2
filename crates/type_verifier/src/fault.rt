// Why codes are refused.
ghost use Rattle.std.specs.Prelude.{◌≡◌};
ghost use Rattle.jv_base.specs.declared.outcome.Or.TheVariants.{Fault};
ghost use Rattle.type_verifier.specs.KindNames.{type_name};

use jv_base::Or;
use thiserror::Error;

/// What is wrong at an instruction. Of several things the first counts; but a target's frame is looked at behind the
/// instruction's own rule.
#[derive(Clone, Copy, Debug, PartialEq, Eq)]
pub enum TypeKind {
    /// No frame is declared where one is needed: at a target, where a handler begins, and behind an instruction that
    /// never goes on to the next one (JVMS 4.10.1.6).
    NoFrame,
    /// What flows to an instruction isn't assignable to the frame that is declared there (JVMS 4.10.1.4).
    Mismatch,
    /// The stack has fewer words than are taken, or would have more than `max_stack` (JVMS 4.10.1.4).
    Depth,
    /// A local is none of those of `max_locals`, or holds something else than is wanted (JVMS 4.10.1.7).
    Local,
    /// A value on the stack is something else than is wanted (JVMS 4.10.1.9).
    Operand,
    /// A protected member of a superclass in another package is used on an object that isn't of the own class
    /// (JVMS 4.10.1.8).
    Protected,
    /// An object isn't initialised as it has to be (JVMS 4.10.1.9).
    Uninit,
    /// A handler covers the instruction, and its locals or what is caught don't fit there (JVMS 4.10.1.6).
    Handler,
    /// Control goes on behind the last instruction (JVMS 4.10.1.6).
    FallsOff,
}

impl TypeKind {
    /// Its name, as it stands in the texts of faults.
    pub fn name(self) -> &'static str
        ensures { result.now ≡ type_name self }
    {
        match self {
            TypeKind::NoFrame => "NoFrame",
            TypeKind::Mismatch => "Mismatch",
            TypeKind::Depth => "Depth",
            TypeKind::Local => "Local",
            TypeKind::Operand => "Operand",
            TypeKind::Protected => "Protected",
            TypeKind::Uninit => "Uninit",
            TypeKind::Handler => "Handler",
            TypeKind::FallsOff => "FallsOff",
        }
    }
}

impl From<TypeKind> for Or<TypeKind> {
    ghost from_gives = { λ kind e. e ≡ Fault kind };

    fn from(kind: TypeKind) -> Self {
        Or::Fault(kind)
    }
}

/// The first fault of a code, or of a set: class after class in order, method after method, instruction after
/// instruction.
#[derive(Clone, Copy, Debug, Error, PartialEq, Eq)]
#[error("{kind:?} at instruction {index} of method {method} of class {class}")]
pub struct TypeFault {
    /// The number of the class.
    pub class: u32,
    /// The number of the method among those of the class.
    pub method: u32,
    /// The number of the instruction.
    pub index: u32,
    pub kind: TypeKind,
}
