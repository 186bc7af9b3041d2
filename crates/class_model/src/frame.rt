// Stack map frames (JVMS 4.7.4).
ghost use Rattle.std.specs.Prelude.{◌≡◌};
ghost use Rattle.class_model.specs.Frames.{is_top, words_of_type};

use jv_base::{FieldType, Items};
use std::alloc::AllocError;

/// The frame that is declared at an instruction.
#[derive(Drop)]
pub struct FrameAt {
    /// The instruction's number.
    pub index: u32,
    pub frame: Frame,
}

/// The types of the local variables and of the operand stack (JVMS 4.10.1.4). A long is one item in
/// both; trailing Tops of the locals are cut.
#[derive(Drop)]
pub struct Frame {
    pub locals: Items<VType>,
    /// From the bottom to the top.
    pub stack: Items<VType>,
}

/// A verification type (JVMS 4.10.1.2).
#[derive(Drop)]
pub enum VType {
    Top,
    /// An int, or a boolean, byte, char or short.
    Int,
    Long,
    Null,
    /// `this` of an instance initialisation method, before another one was called on it.
    UninitThis,
    /// A reference to an object of a class, an interface or an array type.
    Object(FieldType),
    /// What the New instruction of this number made, before an instance initialisation method was
    /// called on it.
    Uninit(u32),
}

impl VType {
    /// How many words it takes in the local variables or on the operand stack.
    pub fn words(&self) -> u16
        ensures { result ≡ words_of_type self.now }
    {
        match self {
            VType::Long => 2,
            _ => 1,
        }
    }

    /// Whether it is Top.
    pub fn is_top(&self) -> bool
        ensures { result ≡ is_top self.now }
    {
        matches!(self, VType::Top)
    }
}

impl Clone for VType {
    ghost is_clone = { λ a b. b ≡ a };

    fn clone(&self) -> Result<VType, AllocError> {
        match self {
            VType::Top => Ok(VType::Top),
            VType::Int => Ok(VType::Int),
            VType::Long => Ok(VType::Long),
            VType::Null => Ok(VType::Null),
            VType::UninitThis => Ok(VType::UninitThis),
            VType::Object(class) => Ok(VType::Object(class.clone()?)),
            VType::Uninit(number) => Ok(VType::Uninit(*number)),
        }
    }
}
