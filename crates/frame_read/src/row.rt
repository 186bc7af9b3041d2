// The rows of a StackMapTable as they are written (JVMS 4.7.4).
use jv_base::Items;

/// A type, its tag first: verification_type_info.
#[derive(Clone, Copy, Debug)]
pub enum TypeInfo {
    /// A type without operand, by its tag.
    Tag(u8),
    /// An object, by the index of its class in the constant pool.
    Object(u16),
    /// An object that isn't initialised, by the offset of the `new` that made it.
    Uninitialized(u16),
}

/// A row, its frame_type first: stack_map_frame. Only the forms of several frame_types keep it.
#[derive(Drop)]
pub enum Row {
    Same {
        frame_type: u8,
    },
    SameLocalsOneStackItem {
        frame_type: u8,
        item: TypeInfo,
    },
    SameLocalsOneStackItemExtended {
        offset_delta: u16,
        item: TypeInfo,
    },
    Chop {
        frame_type: u8,
        offset_delta: u16,
    },
    SameExtended {
        offset_delta: u16,
    },
    Append {
        frame_type: u8,
        offset_delta: u16,
        locals: Items<TypeInfo>,
    },
    Full {
        offset_delta: u16,
        locals: Items<TypeInfo>,
        stack: Items<TypeInfo>,
    },
}
