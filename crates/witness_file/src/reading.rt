// Reading a witness line by line.
ghost use Rattle.std.specs.Prelude.{◌≡◌, ◌+◌, ◌<◌, length, Some, IfOk, OnOk, Ok};
ghost use Rattle.std.specs.Str.Lines.{lines};
ghost use Rattle.jv_base.specs.Outcome.{Gives, IsDue};
ghost use Rattle.jv_base.specs.declared.outcome.Or.TheVariants.{Fault};
ghost use Rattle.text_lines.specs.Lines.{read_lines};
ghost use Rattle.text_lines.specs.bodies.Steps.{ChangesOr};
ghost use Rattle.witness_file.specs.bodies.MethodTable.{TellsMethods};
ghost use Rattle.witness_file.specs.WitnessReading.{IsFirstFault, with_line, added_behind, all_methods, awaits_more};
ghost use Rattle.witness_file.specs.WitnessReading.{awaits_step};
ghost use Rattle.witness_file.specs.WitnessReading.{is_too_early, method_begun, nothing, read_witness, step};
ghost use Rattle.witness_file.specs.WitnessReading.{with_method};
ghost use Rattle.witness_file.specs.Witnesses.{IsOneWitness, Reading};
ghost use Rattle.witness_file.specs.declared.line.WitnessLine.TheVariants as line;
ghost use Rattle.witness_file.specs.declared.witness.Witness.{Witness};

use crate::line::{WitnessLine, line_of};
use crate::methods::{MethodNames, is_before, put_method};
use crate::steps::{MethodRead, add_act, begin_step, close};
use crate::{MethodWitness, WitFault, WitKind, Witness};
use code_edit::{Act, PassEdits};
use jv_base::{Items, M, Name, Or, Text};
use std::alloc::Global;
use std::collections::BTreeSet;
use text_lines::{Known, is_passed_over, next_line};

/// What was read: whether the version was, methods, and the last one, to which steps and acts may be added.
#[derive(Drop)]
pub(crate) struct WitnessRead {
    pub(crate) begun: bool,
    pub(crate) before: Items<MethodWitness>,
    pub(crate) last: Option<MethodRead>,
}

/// The witness that a text stands for, or the first line that no witness has there, and why.
pub fn read_witness(alloc: Global, bytes: &[u8]) -> Result<Witness, Or<WitFault>>
    requires { length bytes.now < 4294967295 }
    ensures found { IfOk result (Reading bytes.now) }
    ensures only { (w : Witness) → Reading bytes.now w → IsDue result (Ok w) }
    ensures exact { IsDue result (read_witness bytes.now) }
{
    let (read, number) = read_methods(alloc, bytes)?;
    if !read.begun || awaits_more(&read.last) {
        return Err(fault(number, WitKind::BadLine));
    }
    Ok(witness_of(alloc, read)?)
}

/// A text stands for one witness at most.
pub fn one_witness()
    ensures { IsOneWitness }
{}

/// The line that is told is the first at fault: a witness can begin with those before it, and none with it behind them.
/// Where it is the line behind the last, a witness can begin with all lines, and none has them alone.
pub fn first_fault()
    ensures { IsFirstFault }
{}

fn witness_of(alloc: Global, read: WitnessRead) -> M<Witness>
    ensures { IfOk result (λ w. w.methods ≡ all_methods read) }
{
    let WitnessRead { before, last, .. } = read;
    let mut methods = before;
    if let Some(method) = last {
        methods.push(close(alloc, method)?)?;
    }
    Ok(Witness { methods })
}

// Whether a method is begun and has no step yet, or no act in its last one.
fn awaits_more(last: &Option<MethodRead>) -> bool
    ensures { result ≡ awaits_more last.now }
{
    match last {
        Some(method) => awaits_step(&method.step),
        None => false,
    }
}

fn awaits_step(step: &Option<PassEdits>) -> bool
    ensures { result ≡ awaits_step step.now }
{
    match step {
        Some(step) => step.acts.is_empty(),
        None => true,
    }
}

// What the lines say, and how many there are, and one.
fn read_methods(alloc: Global, bytes: &[u8]) -> Result<(WitnessRead, u32), Or<WitFault>>
    requires { length bytes.now < 4294967295 }
    ensures read { Gives (λ r. r.0) result (read_lines step 1 (lines bytes.now) nothing) }
    ensures count { IfOk result (λ r. r.1 ≡ length (lines bytes.now) + 1) }
{
    let mut known = Known::new(alloc, bytes.len())?;
    let mut read = WitnessRead {
        begun: false,
        before: Items::new(alloc),
        last: None,
    };
    let mut table = BTreeSet::new(alloc);
    let mut rest = bytes;
    let mut number = 1;
    while let Some(line) = next_line(rest) {
        read_line(alloc, &mut known, &mut table, &mut read, number, line.line)?;
        rest = line.rest;
        number += 1;
    }
    Ok((read, number))
}

// Adds what the line of this number says to what was read before it.
fn read_line<'a>(
    alloc: Global,
    known: &mut Known<'a>,
    table: &mut MethodNames,
    read: &mut WitnessRead,
    number: u32,
    line: &'a [u8],
) -> Result<(), Or<WitFault>>
    requires { TellsMethods table.old (all_methods read.old) }
    ensures read { ChangesOr result read.new (step number line.now read.old) }
    ensures table { OnOk result (TellsMethods table.new (all_methods read.new)) }
{
    let Ok(text) = std::str::from_utf8(line) else {
        return Err(fault(number, WitKind::NotUtf8));
    };
    if is_passed_over(line) {
        return Ok(());
    }
    let Some(said) = line_of(alloc, known, text)? else {
        return Err(fault(number, WitKind::BadLine));
    };
    match add(alloc, table, read, said) {
        Ok(()) => Ok(()),
        Err(Or::Fault(kind)) => Err(fault(number, kind)),
        Err(Or::OutOfMemory) => Err(Or::OutOfMemory),
    }
}

fn fault(line: u32, kind: WitKind) -> Or<WitFault>
    ensures { result ≡ Fault (record { line = line; kind = kind }) }
{
    Or::Fault(WitFault { line, kind })
}

fn add(
    alloc: Global,
    table: &mut MethodNames,
    read: &mut WitnessRead,
    line: WitnessLine,
) -> Result<(), Or<WitKind>>
    requires { TellsMethods table.old (all_methods read.old) }
    ensures read { ChangesOr result read.new (with_line line read.old) }
    ensures table { OnOk result (TellsMethods table.new (all_methods read.new)) }
{
    match line {
        WitnessLine::Head => begin(read),
        _ if !read.begun => Err(Or::Fault(WitKind::BadLine)),
        WitnessLine::Method { class, name, ty } => add_method(alloc, table, read, class, name, ty),
        WitnessLine::Step(number) => add_step(alloc, read, number),
        WitnessLine::Act(act) => add_act_line(read, act),
    }
}

fn begin(read: &mut WitnessRead) -> Result<(), Or<WitKind>>
    ensures { ChangesOr result read.new (with_line line.Head read.old) }
{
    if read.begun {
        return Err(Or::Fault(WitKind::BadLine));
    }
    read.begun = true;
    Ok(())
}

fn add_step(alloc: Global, read: &mut WitnessRead, number: u32) -> Result<(), Or<WitKind>>
    ensures { ChangesOr result read.new (added_behind (line.Step number) read.old) }
{
    match &mut read.last {
        Some(method) => begin_step(alloc, method, number as usize),
        None => Err(Or::Fault(WitKind::BadLine)),
    }
}

fn add_act_line(read: &mut WitnessRead, act: Act) -> Result<(), Or<WitKind>>
    ensures { ChangesOr result read.new (added_behind (line.Act act) read.old) }
{
    match &mut read.last {
        Some(method) => add_act(&mut method.step, act),
        None => Err(Or::Fault(WitKind::BadLine)),
    }
}

fn add_method(
    alloc: Global,
    table: &mut MethodNames,
    read: &mut WitnessRead,
    class: Name,
    name: Name,
    ty: Text,
) -> Result<(), Or<WitKind>>
    requires { TellsMethods table.old (all_methods read.old) }
    ensures read { ChangesOr result read.new (with_method class name ty read.old) }
    ensures table { OnOk result (TellsMethods table.new (all_methods read.new)) }
{
    if awaits_more(&read.last) {
        return Err(Or::Fault(WitKind::BadLine));
    }
    let is_new = put_method(table, &class, &name, &ty)?;
    if !is_new || is_too_early(alloc, &read.last, &class)? {
        return Err(Or::Fault(WitKind::BadOrder));
    }
    begin_method(alloc, read, class, name, ty)?;
    Ok(())
}

fn is_too_early(alloc: Global, last: &Option<MethodRead>, class: &Name) -> M<bool>
    ensures { IfOk result (λ early. early ≡ is_too_early last.now class.now) }
{
    match last {
        Some(method) => is_before(alloc, class, &method.class),
        None => Ok(false),
    }
}

// Begins a method without steps.
fn begin_method(alloc: Global, read: &mut WitnessRead, class: Name, name: Name, ty: Text) -> M<()>
    ensures { OnOk result (read.new ≡ record read.old {
      before = all_methods read.old;
      last = Some (method_begun class name ty);
    }) }
{
    let method = MethodRead {
        class,
        name,
        ty,
        steps: Items::new(alloc),
        step: None,
    };
    if let Some(last) = read.last.replace(method) {
        read.before.push(close(alloc, last)?)?;
    }
    Ok(())
}
