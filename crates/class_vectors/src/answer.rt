// What is said of the bytes of a class file.
ghost use Rattle.std.specs.Prelude.{◌≡◌, ◌<◌, IfOk, None, length};
ghost use Rattle.class_model.specs.ReadingClass.{class_read};
ghost use Rattle.class_model.specs.WellFormed.{CountsFit, IsWellFormed};
ghost use Rattle.class_model.specs.WriteLimits.{class_written};
ghost use Rattle.class_vectors.specs.Answers.{answer, fault_answer, left_answer, member_text, written_answer};

use crate::kinds::left_name;
use class_model::{Class, LeftOut};
use class_read::read_class;
use class_write::{spelled_classes_can_be_written, write_class};
use format_reading::FormatFault;
use jv_base::{M, Or, OutOfMemory, Text};
use report_text::{format_name, limit_name};
use std::alloc::Global;

/// What reading the bytes gives, in words: of a class its canonical spelling in hex.
pub fn answer(alloc: Global, bytes: &[u8]) -> M<Text>
    requires { length bytes.now < 4294967295 }
    ensures { IfOk result (λ text. text ≡ answer (class_read bytes.now)) }
{
    spelled_classes_can_be_written();
    match read_class(alloc, bytes) {
        Ok(class) => match class.left_out {
            Some(left_out) => left_answer(alloc, left_out),
            None => written_answer(alloc, &class),
        },
        Err(Or::Fault(fault)) => fault_answer(alloc, fault),
        Err(Or::OutOfMemory) => Err(OutOfMemory),
    }
}

fn written_answer(alloc: Global, class: &Class) -> M<Text>
    requires well_formed { IsWellFormed class.now }
    requires words { CountsFit class.now }
    ensures { IfOk result (λ text. text ≡ written_answer (class_written class.now)) }
{
    match write_class(alloc, class) {
        Ok(bytes) => {
            let digits = hex::encode(alloc, bytes.as_slice())?;
            let digits = digits.as_str();
            Ok(Text::from_string(alloc, format!(in alloc; "ok {digits}")?)?)
        }
        Err(Or::Fault(limit)) => {
            let name = limit_name(limit);
            Ok(Text::from_string(alloc, format!(in alloc; "limit {name}")?)?)
        }
        Err(Or::OutOfMemory) => Err(OutOfMemory),
    }
}

fn left_answer(alloc: Global, left_out: LeftOut) -> M<Text>
    ensures { IfOk result (λ text. text ≡ left_answer left_out) }
{
    let member = member_text(alloc, left_out.member)?;
    let member = member.as_str();
    let kind = left_name(left_out.kind);
    Ok(Text::from_string(alloc, format!(in alloc; "left-out {member} {kind}")?)?)
}

fn member_text(alloc: Global, member: Option<u32>) -> M<Text>
    ensures { IfOk result (λ text. text ≡ member_text member) }
{
    match member {
        Some(number) => Ok(Text::from_string(alloc, format!(in alloc; "{number}")?)?),
        None => Ok(Text::from_str(alloc, "-")?),
    }
}

fn fault_answer(alloc: Global, fault: FormatFault) -> M<Text>
    ensures { IfOk result (λ text. text ≡ fault_answer fault) }
{
    let kind = format_name(fault.kind);
    let offset = fault.offset;
    let text = format!(in alloc; "fault {offset} {kind}")?;
    Ok(Text::from_string(alloc, text)?)
}
