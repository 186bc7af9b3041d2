// What descriptors tell, by whoever keeps it (JVMS 4.3).
use class_model::Kind;
use jv_base::{Items, M, Text};
use std::alloc::Global;

/// Computational types, which are kept, or were made.
#[derive(Drop)]
pub enum Kinds<'a> {
    Kept(&'a [Kind]),
    Made(Items<Kind>),
}

impl<'a> Kinds<'a> {
    ghost use Rattle.std.specs.Prelude.{◌≡◌};
    ghost use Rattle.run_steps.specs.Arguments.{kinds_told};

    /// They.
    pub fn as_slice(&self) -> &[Kind]
        ensures { result.now ≡ kinds_told self.now }
    {
        match self {
            Kinds::Kept(kinds) => *kinds,
            Kinds::Made(kinds) => kinds.as_slice(),
        }
    }
}

/// Whoever tells what descriptors mean, which may keep it for those that are met often.
pub trait Descriptors {
    ghost use Rattle.std.specs.Prelude.{◌≡◌, IfOk};
    ghost use Rattle.std.specs.Option.{option_map};
    ghost use Rattle.jvm_model.specs.Types.{argument_kinds};
    ghost use Rattle.run_steps.specs.Arguments.{kinds_told, operand_kinds};

    /// The computational types of a method's arguments by its descriptor, if it is one (JVMS 4.3.3), and before them
    /// that of a receiver, where there is one.
    fn operand_kinds(
        &self,
        alloc: Global,
        has_receiver: bool,
        descriptor: &Text,
    ) -> M<Option<Kinds<'_>>>
        ensures { IfOk result (λ kinds. option_map kinds_told kinds
            ≡ operand_kinds has_receiver (argument_kinds descriptor.now)) };
}
