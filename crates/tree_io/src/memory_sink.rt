// Text in memory.
ghost use Rattle.std.specs.Prelude.{◌≡◌, ◌↔◌, [], ◌∷◌, ◌++◌, Some, IsTrue, if◌then◌else◌, is_ok, IfOk, IsErrOf};
ghost use Rattle.tree_io.specs.Calls.{called, fails_next};
ghost use Rattle.tree_io.specs.Memory.{sink_of};
ghost use Rattle.tree_io.specs.declared.event.Event.TheVariants.{Put};

use crate::calls::Calls;
use crate::event::Note;
use crate::log::Log;
use crate::{PutFault, Sink};
use jv_base::{Items, M};
use std::alloc::Global;
use std::marker::Model;

/// A sink that keeps its text in memory. Contracts see its text and its counts of calls.
///
/// Each call of `put` counts, whatever it answers, from 0 on; at 2^64 - 1 the count stands still. A
/// call fails just where its number is named, and then it appends nothing.
#[derive(Drop)]
pub struct MemorySink {
    text: Vec<u8>,
    calls: Calls,
    log: Log,
}

impl Model for MemorySink {
    ghost use Rattle.tree_io.specs.Memory.{MemoryText, memory_text_code};

    ghost Value = { MemoryText };

    ghost coded = { memory_text_code };

    ghost view = { λ s. record { text = s.text.items; counts = s.calls; log = s.log.events } };
}

impl MemorySink {
    /// A sink without text, whose calls of these numbers fail, counted from 0.
    pub fn new(alloc: Global, fails: Items<u64>) -> M<Self>
        ensures { IfOk result (λ sink. sink ≡ sink_of fails) }
    {
        Ok(MemorySink {
            text: Vec::new(alloc),
            calls: Calls::new(fails),
            log: Log::new(),
        })
    }

    /// What was appended so far.
    pub fn written(&self) -> &[u8]
        ensures { result.now ≡ self.now.text }
    {
        &self.text
    }
}

// What `put` answers.
fn put_or_fail(text: &mut Vec<u8>, calls: &mut Calls, bytes: &[u8]) -> Result<(), PutFault>
    ensures named { IsErrOf result PutFault.Failed ↔ IsTrue (fails_next calls.old) }
    ensures after { calls.new ≡ called calls.old }
    ensures text { text.new.items ≡ (if is_ok result then text.old.items ++ bytes.now else text.old.items) }
{
    if calls.begin() {
        calls.fail();
        return Err(PutFault::Failed);
    }
    text.extend_from_slice(bytes)?;
    Ok(())
}

impl Sink for MemorySink {
    ghost written = { λ s. Some s.text };

    ghost faults = { λ s. s.counts.faults };

    ghost log = { λ s. s.log };

    fn put(&mut self, bytes: &[u8]) -> Result<(), PutFault>
        ensures named { IsErrOf result PutFault.Failed ↔ IsTrue (fails_next self.old.counts) }
        ensures after { self.new ≡ record {
          text = if is_ok result then self.old.text ++ bytes.now else self.old.text;
          counts = called self.old.counts;
          log = self.old.log ++ Put bytes.now result ∷ [];
        } }
    {
        let answer = put_or_fail(&mut self.text, &mut self.calls, bytes);
        self.log = self.log.then(&Note::Put(bytes, &answer));
        answer
    }
}
