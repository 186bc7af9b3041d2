// A sink that is listened to.
use std::alloc::Global;
use tree_io::{PutFault, Sink};

/// The longest text that is kept, in bytes.
const LONGEST: usize = 262_144;

/// Hands on what it is given, and keeps the bytes of the last call.
#[derive(Drop)]
pub struct Heard<S> {
    sink: S,
    last: Vec<u8>,
}

impl<S: Sink> Heard<S> {
    /// A sink that hands on to another one.
    pub fn new(alloc: Global, sink: S) -> Self {
        Heard {
            sink,
            last: Vec::new(alloc),
        }
    }

    /// The bytes of the last call; none where they were more than 262,144, or there was no memory for them.
    pub fn last(&self) -> &[u8] {
        &self.last
    }
}

impl<S: Sink> Sink for Heard<S> {
    ghost written = { λ h. S.written h.sink };

    ghost faults = { λ h. S.faults h.sink };

    ghost log = { λ h. S.log h.sink };

    fn put(&mut self, bytes: &[u8]) -> Result<(), PutFault> {
        self.last.clear();
        if bytes.len() <= LONGEST {
            let _ = self.last.extend_from_slice(bytes);
        }
        self.sink.put(bytes)
    }
}
