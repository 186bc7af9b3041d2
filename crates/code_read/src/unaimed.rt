// Instructions before their targets are known.
use class_model::Op;
use jv_base::Items;

/// An instruction whose targets are still told as the class file does: by how many bytes they are away from
/// it (JVMS 4.9.1). Numbers of four bytes stand as they are written, in two's complement.
#[derive(Drop)]
pub enum Unaimed {
    /// It has no target.
    Whole(Op),
    /// The branch of this opcode; goto_w has that of goto.
    Branch {
        opcode: u8,
        offset: i32,
    },
    /// tableswitch: the default's offset, the least key, and the offsets of the keys.
    TableSwitch {
        default: u32,
        low: u32,
        offsets: Items<u32>,
    },
    /// lookupswitch: the default's offset, and each key with its offset.
    LookupSwitch {
        default: u32,
        matches: Items<Match>,
    },
}

/// A key of a lookupswitch, and the offset of its target.
#[derive(Clone, Copy)]
pub struct Match {
    pub key: u32,
    pub offset: u32,
}

/// An instruction with the offset of its first byte.
#[derive(Drop)]
pub struct Placed {
    pub at: u32,
    pub op: Unaimed,
}
