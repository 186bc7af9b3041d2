// What is said of a text.
ghost use Rattle.std.specs.Prelude.{◌≡◌, ◌<◌, IfOk, length};
ghost use Rattle.mapping_file.specs.MapReading.{read_mapping};
ghost use Rattle.witness_file.specs.WitnessReading.{read_witness};
ghost use Rattle.text_vectors.specs.Answers.{fault_answer, mapping_answer, ok_answer, retrace_answer, witness_answer};

use jv_base::{M, Or, OutOfMemory};
use mapping_file::{read_mapping, write_mapping};
use retrace_core::retrace;
use std::alloc::Global;
use witness_file::{read_witness, write_witness};

/// How the mapping that a text stands for is written, or the text's first fault.
pub(crate) fn mapping_answer(alloc: Global, bytes: &[u8]) -> M<Vec<u8>>
    requires { length bytes.now < 4294967295 }
    ensures { IfOk result (λ text. text.items ≡ mapping_answer (read_mapping bytes.now)) }
{
    match read_mapping(alloc, bytes) {
        Ok(map) => ok_answer(alloc, write_mapping(alloc, &map)?.as_slice()),
        Err(Or::Fault(fault)) => fault_answer(alloc, fault.line, fault.kind.name()),
        Err(Or::OutOfMemory) => Err(OutOfMemory),
    }
}

/// How the witness that a text stands for is written, or the text's first fault.
pub(crate) fn witness_answer(alloc: Global, bytes: &[u8]) -> M<Vec<u8>>
    requires { length bytes.now < 4294967295 }
    ensures { IfOk result (λ text. text.items ≡ witness_answer (read_witness bytes.now)) }
{
    match read_witness(alloc, bytes) {
        Ok(w) => ok_answer(alloc, write_witness(alloc, &w)?.as_slice()),
        Err(Or::Fault(fault)) => fault_answer(alloc, fault.line, fault.kind.name()),
        Err(Or::OutOfMemory) => Err(OutOfMemory),
    }
}

/// A trace with the old names of the mapping that a text stands for, or the text's first fault.
pub(crate) fn retrace_answer(alloc: Global, bytes: &[u8], trace: &[u8]) -> M<Vec<u8>>
    requires { length bytes.now < 4294967295 }
    ensures { IfOk result (λ text. text.items ≡ retrace_answer (read_mapping bytes.now) trace.now) }
{
    match read_mapping(alloc, bytes) {
        Ok(map) => ok_answer(alloc, retrace(alloc, &map, trace)?.as_slice()),
        Err(Or::Fault(fault)) => fault_answer(alloc, fault.line, fault.kind.name()),
        Err(Or::OutOfMemory) => Err(OutOfMemory),
    }
}

fn ok_answer(alloc: Global, text: &[u8]) -> M<Vec<u8>>
    ensures { IfOk result (λ answer. answer.items ≡ ok_answer text.now) }
{
    let mut answer = Vec::new(alloc);
    answer.extend_from_slice(b"ok ")?;
    answer.extend_from_slice(text)?;
    Ok(answer)
}

fn fault_answer(alloc: Global, line: u32, kind: &str) -> M<Vec<u8>>
    ensures { IfOk result (λ answer. answer.items ≡ fault_answer line kind.now) }
{
    Ok(format!(in alloc; "{line} {kind}")?.into_bytes())
}
