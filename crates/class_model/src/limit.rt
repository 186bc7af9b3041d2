// What a class file has no room for (JVMS 4.11).

/// The first limit of the format that a class passes where it is written in its canonical spelling, in
/// the order of the variants.
#[derive(Clone, Copy, Debug, PartialEq, Eq)]
pub enum WriteLimit {
    /// The constant pool needs this constant_pool_count, above 65,535 (JVMS 4.1).
    PoolFull(u64),
    /// The first text of the constant pool that is too long takes this many bytes, above 65,535
    /// (JVMS 4.4.7).
    TextTooLong(u64),
    /// The code of the first method at fault takes this many bytes, above 65,535 (JVMS 4.7.3).
    CodeTooLong(u64),
    /// In the code of the first method at fault the first branch that is too far: its number, and the
    /// distance, which doesn't lie from -32,768 to 32,767 (JVMS 6.5). A switch is no branch.
    BranchTooFar(u32, i64),
    /// The first table, in the order of the file, that is too long needs this many rows, above 65,535
    /// (JVMS 4.1, 4.7.3 to 4.7.5, 4.7.12).
    AttributeFull(u64),
    /// The first attribute Code that is too long takes this many bytes behind its length, above
    /// 4,294,967,295 (JVMS 4.7).
    AttributeTooLong(u64),
}
