//! What lies outside the shrinker: a tree of files, a sink for text, and a gate that is told of the
//! turns of workers. Each has an implementation in memory, whose calls fail where a test wants it,
//! and one over the system.
#![tactic(auto)]

mod calls;
mod event;
mod faults;
mod file_at;
mod file_tree;
mod gate;
mod listing;
mod log;
mod memory_sink;
mod memory_tree;
mod pieces;
mod sink;
mod stream_sink;
mod tree;

pub use event::{Event, Note};
pub use faults::{ListFault, PutFault, ReadFault, WriteFault};
pub use file_at::FileAt;
pub use file_tree::FileTree;
pub use gate::{Gate, OpenGate, Turn};
pub use log::Log;
pub use memory_sink::MemorySink;
pub use memory_tree::MemoryTree;
pub use sink::Sink;
pub use stream_sink::StreamSink;
pub use tree::Tree;
