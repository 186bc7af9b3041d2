// What a command says.
ghost use Rattle.std.specs.Prelude.{◌≡◌, ◌≤◌, codes};
ghost use Rattle.tree_io.specs.Count.{Rose};
ghost use Rattle.command_frame.specs.Output.{SaysLine, SaysText, output};
ghost use Rattle.command_frame.specs.Saying.{Says};
ghost use Rattle.command_frame.specs.declared.stop.Stop.TheVariants.{Refused};

use crate::{Refusal, Stop};
use std::alloc::Global;
use tree_io::{PutFault, Sink};

/// Says the line of a status, which stays where the line can't be put.
pub fn say_line<S: Sink>(status: u8, line: &[u8], out: &mut S) -> u8
    ensures said { SaysLine status line.now result
        (output (S.written out.old) (S.faults out.old) (S.log out.old))
        (output (S.written out.new) (S.faults out.new) (S.log out.new)) }
    ensures later { S.faults out.old ≤ S.faults out.new }
{
    let _ = out.put(line);
    status
}

/// Says that memory is wanting.
pub fn say_no_memory<S: Sink>(out: &mut S) -> u8
    ensures { SaysLine 10 (codes "error 10 memory\n") result
        (output (S.written out.old) (S.faults out.old) (S.log out.old))
        (output (S.written out.new) (S.faults out.new) (S.log out.new)) }
{
    say_line(10, b"error 10 memory\n", out)
}

/// Says that a device failed.
fn say_device<S: Sink>(out: &mut S) -> u8
    ensures said { SaysLine 7 (codes "error 7 device\n") result
        (output (S.written out.old) (S.faults out.old) (S.log out.old))
        (output (S.written out.new) (S.faults out.new) (S.log out.new)) }
    ensures later { S.faults out.old ≤ S.faults out.new }
{
    say_line(7, b"error 7 device\n", out)
}

/// Says a command's own text, and answers the status.
pub fn say_text<S: Sink>(text: &[u8], out: &mut S) -> u8
    ensures device { result ≡ 7 → Rose (S.faults out.old) (S.faults out.new) }
    ensures said { SaysText text.now result
        (output (S.written out.old) (S.faults out.old) (S.log out.old))
        (output (S.written out.new) (S.faults out.new) (S.log out.new)) }
{
    match out.put(text) {
        Ok(()) => 0,
        Err(PutFault::Failed) => say_device(out),
        Err(PutFault::OutOfMemory) => say_no_memory(out),
    }
}

/// Says why a command ends without its result, and answers the status.
pub fn say_stop<S: Sink>(alloc: Global, stop: &Stop, out: &mut S) -> u8
    ensures { Says stop.now result
        (output (S.written out.old) (S.faults out.old) (S.log out.old))
        (output (S.written out.new) (S.faults out.new) (S.log out.new)) }
{
    match stop {
        Stop::Refused(refusal) => say_refusal(alloc, refusal, out),
        Stop::Device => say_device(out),
        Stop::OutOfMemory => say_no_memory(out),
    }
}

fn say_refusal<S: Sink>(alloc: Global, refusal: &Refusal, out: &mut S) -> u8
    ensures { Says (Refused refusal.now) result
        (output (S.written out.old) (S.faults out.old) (S.log out.old))
        (output (S.written out.new) (S.faults out.new) (S.log out.new)) }
{
    match refusal.line(alloc) {
        Ok(line) => say_line(refusal.reason.status(), line.as_bytes(), out),
        Err(_) => say_no_memory(out),
    }
}
