// Standard output.
ghost use Rattle.std.specs.Prelude.{◌≡◌, None, []};

use crate::calls::counted;
use crate::event::Note;
use crate::faults::DeviceFailed;
use crate::log::Log;
use crate::pieces::print_all;
use crate::{PutFault, Sink};
use std::marker::Model;

/// A sink that writes to standard output. It doesn't tell what was written, and contracts see its
/// count of faults and its calls alone.
///
/// The count rises at each error of the system, and where the output takes none of the bytes that
/// are left.
#[derive(Drop)]
pub struct StreamSink<'a, R: Print> {
    rt: &'a R,
    faults: u64,
    log: Log,
}

impl<'a, R: Print> Model for StreamSink<'a, R> {
    ghost use Rattle.tree_io.specs.System.{SystemCalls};

    ghost Value = { SystemCalls };

    ghost view = { λ s. record { faults = s.faults; log = s.log.events } };
}

impl<'a, R: Print> StreamSink<'a, R> {
    /// The standard output of the runtime.
    pub fn new(rt: &'a R) -> Self
        ensures { result ≡ record { faults = 0; log = [] } }
    {
        StreamSink {
            rt,
            faults: 0,
            log: Log::new(),
        }
    }
}

impl<'a, R: Print> Sink for StreamSink<'a, R> {
    ghost written = { λ _. None };

    ghost faults = { λ s. s.faults };

    ghost log = { λ s. s.log };

    fn put(&mut self, bytes: &[u8]) -> Result<(), PutFault> {
        let answer = match print_all(self.rt, bytes) {
            Ok(()) => Ok(()),
            Err(DeviceFailed) => {
                self.faults = counted(self.faults);
                Err(PutFault::Failed)
            }
        };
        self.log = self.log.then(&Note::Put(bytes, &answer));
        answer
    }
}
