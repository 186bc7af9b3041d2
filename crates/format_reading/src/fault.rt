// Where and why bytes are no class file.
ghost use Rattle.std.specs.Prelude.{◌≡◌};
ghost use Rattle.format_reading.specs.Fault.{cut, inside, or_inside};
ghost use Rattle.jv_base.specs.declared.outcome.Or.TheVariants.{Fault};

use jv_base::{End, Or};
use thiserror::Error;

/// The rule of JVMS 4 that bytes break.
#[derive(Clone, Copy, Debug, PartialEq, Eq)]
pub enum FormatKind {
    /// The bytes end too soon. The offset is how many there are.
    Cut,
    /// The first four bytes aren't `CAFEBABE` (JVMS 4.1).
    BadMagic,
    /// The version isn't 52.0 (JVMS 4.1).
    BadVersion,
    /// An entry of the constant pool has an unknown tag, or no room for its second index (JVMS 4.4).
    BadTag,
    /// Bytes aren't in modified UTF-8 (JVMS 4.4.7).
    BadUtf8,
    /// An index names no entry of the constant pool of the kind that its place needs (JVMS 4.4).
    BadIndex,
    /// A text is no name of the kind that its place needs (JVMS 4.2).
    BadName,
    /// A text is no descriptor of the kind that its place needs (JVMS 4.3).
    BadDescriptor,
    /// Access flags contradict each other or their place (JVMS 4.1, 4.5 and 4.6).
    BadFlags,
    /// An attribute isn't as long as its contents, or stands where it may not, or is missing
    /// (JVMS 4.7).
    BadAttribute,
    /// A constant doesn't fit the type of its field (JVMS 4.7.2).
    BadConstant,
    /// A code array is empty or longer than 65,535 bytes, or ends inside an instruction (JVMS 4.7.3
    /// and 4.9.1).
    BadCode,
    /// A byte is no opcode that may stand there (JVMS 4.9.1 and 6.5).
    BadOpcode,
    /// An instruction's operand breaks a rule (JVMS 4.9.1).
    BadOperand,
    /// A branch leads to no instruction (JVMS 4.9.1).
    BadTarget,
    /// An exception handler names no range or no instruction (JVMS 4.7.3).
    BadHandler,
    /// A row of a stack map has no known form, names no instruction, type or `new`, takes more locals
    /// than there are, or is too large (JVMS 4.7.4).
    BadFrame,
    /// A member or an attribute stands twice (JVMS 4.5, 4.6 and 4.7).
    Repeated,
    /// Bytes follow the class file (JVMS 4.8).
    Trailing,
}

/// The first fault of bytes that are no class file: the rule that is broken, and the offset of the
/// first byte of the item that breaks it.
#[derive(Clone, Copy, Debug, Error, PartialEq, Eq)]
#[error("{kind:?} at byte {offset}")]
pub struct FormatFault {
    pub offset: u32,
    pub kind: FormatKind,
}

impl From<End> for FormatFault {
    ghost from_gives = { λ end fault. fault ≡ cut end };

    fn from(end: End) -> Self {
        FormatFault {
            offset: end.0,
            kind: FormatKind::Cut,
        }
    }
}

impl From<FormatFault> for Or<FormatFault> {
    ghost from_gives = { λ fault either. either ≡ Fault fault };

    fn from(fault: FormatFault) -> Self {
        Or::Fault(fault)
    }
}

impl FormatFault {
    /// A fault in a part of an attribute, as one of the class file. Where the bytes of the part end
    /// too soon, the attribute is at fault, whose first byte has the offset `attribute`.
    pub fn inside(self, attribute: u32) -> FormatFault
        ensures { result ≡ inside attribute self }
    {
        match self.kind {
            FormatKind::Cut => FormatFault {
                offset: attribute,
                kind: FormatKind::BadAttribute,
            },
            _ => self,
        }
    }
}

/// The same beside want of memory, which stays.
pub fn of_part(attribute: u32, fault: Or<FormatFault>) -> Or<FormatFault>
    ensures { result ≡ or_inside attribute fault }
{
    match fault {
        Or::Fault(fault) => Or::Fault(fault.inside(attribute)),
        Or::OutOfMemory => Or::OutOfMemory,
    }
}
