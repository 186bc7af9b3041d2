// Why bytes are no code.
ghost use Rattle.std.specs.Prelude.{◌≡◌};
ghost use Rattle.jv_base.specs.declared.outcome.Or.TheVariants.{Fault};
ghost use Rattle.code_read.specs.declared.fault.Wrong.TheVariants.{Cut as cut_off};
ghost use Rattle.code_read.specs.Fault.{code_fault};

use jv_base::{End, Or};
use thiserror::Error;

/// The first fault of a code (JVMS 4.9.1), with the offset of the instruction's first byte.
#[derive(Clone, Copy, Debug, Error, PartialEq, Eq)]
pub enum CodeFault {
    /// The byte, or the one behind wide, is no opcode (JVMS 6.5).
    #[error("BadOpcode at byte {0}")]
    BadOpcode(u32),
    /// An operand breaks a rule (JVMS 4.9.1).
    #[error("BadOperand at byte {0}")]
    BadOperand(u32),
    /// The code ends inside the instruction.
    #[error("Cut at byte {0}")]
    Cut(u32),
    /// The instruction is one that is left out: of float or double, monitorenter, monitorexit, invokedynamic, or
    /// one that loads a class, a float or a double. Its first byte comes second; it is that of wide where wide
    /// stands in front.
    #[error("LeftOutOpcode {1} at byte {0}")]
    LeftOutOpcode(u32, u8),
    /// A target of the instruction isn't the first byte of one (JVMS 4.9.1).
    #[error("BadTarget at byte {0}")]
    BadTarget(u32),
}

/// What is wrong with the bytes of an instruction.
#[derive(Clone, Copy, Debug, PartialEq, Eq)]
pub enum Wrong {
    /// It has no opcode.
    Opcode,
    /// An operand breaks a rule.
    Operand,
    /// They end too soon.
    Cut,
    /// The instruction of this opcode is left out.
    LeftOut(u8),
}

impl From<End> for Wrong {
    ghost from_gives = { λ _ wrong. wrong ≡ cut_off };

    fn from(_: End) -> Self {
        Wrong::Cut
    }
}

/// What is wrong with the instruction at an offset, as the fault of the code.
pub fn code_fault(offset: u32, wrong: Wrong) -> CodeFault
    ensures { result ≡ code_fault offset wrong }
{
    match wrong {
        Wrong::Opcode => CodeFault::BadOpcode(offset),
        Wrong::Operand => CodeFault::BadOperand(offset),
        Wrong::Cut => CodeFault::Cut(offset),
        Wrong::LeftOut(opcode) => CodeFault::LeftOutOpcode(offset, opcode),
    }
}
