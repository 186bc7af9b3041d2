// A call of a tree or a sink with its answer.
use crate::{ListFault, PutFault, ReadFault, WriteFault};
use jv_base::{Bytes, Items, Text};

/// A call and what it answered, as contracts see it. No value of it is made.
#[derive(Drop)]
pub enum Event {
    /// A directory was listed, at most so many paths.
    Listed(Text, u32, Result<Items<Text>, ListFault>),
    /// A file was read, at most so many bytes.
    Read(Text, u64, Result<Bytes, ReadFault>),
    /// Bytes were put at a path.
    Wrote(Text, Bytes, Result<(), WriteFault>),
    /// Bytes were appended to a sink.
    Put(Bytes, Result<(), PutFault>),
}

/// The same, lent.
#[derive(Clone, Copy, Drop)]
pub enum Note<'a> {
    Listed(&'a Text, u32, &'a Result<Items<Text>, ListFault>),
    Read(&'a Text, u64, &'a Result<Bytes, ReadFault>),
    Wrote(&'a Text, &'a [u8], &'a Result<(), WriteFault>),
    Put(&'a [u8], &'a Result<(), PutFault>),
}
