// What fields and methods want (JVMS 4.5, 4.6).
#![tactic(auto, using(item_numbers::proofs::Gathering::in_turn, item_numbers::proofs::Gathering::nothing))]

ghost use Rattle.std.specs.Prelude.{◌≡◌, ◌<◌, [], OnOk, length};
ghost use Rattle.std.specs.Option.{option_map_or};
ghost use Rattle.require_sys.specs.Requires.{code_wants, field_wants, method_wants, throws_wants};
ghost use Rattle.item_numbers.specs.bodies.Wanting.{HasSame, wanting};

use crate::code::{want_handlers, want_instructions};
use crate::frames::want_frames;
use crate::named::{want_method_type, want_names, want_type};
use crate::wants::Wants;
use class_model::{Code, Field, Method};
use class_pool::ClassId;
use jv_base::M;
use require_sys::KeptByRules;
use std::alloc::Global;

/// What a field of the class with a number wants.
pub(crate) fn want_of_field(wants: &mut Wants<'_>, number: u32, field: &Field) -> M<()>
    requires { number < length wants.old.classes }
    ensures { OnOk result (wants.new ≡ wanting wants.old (field_wants wants.old.classes number field.now)) }
{
    wants.want_class(ClassId::Prog(number))?;
    want_type(wants, &field.ty)
}

/// What a method of the class with a number wants.
pub(crate) fn want_of_method(
    alloc: Global,
    wants: &mut Wants<'_>,
    kept: &KeptByRules,
    number: u32,
    method: &Method,
) -> M<()>
    requires { number < length wants.old.classes }
    ensures { OnOk result (HasSame wants.new
        (wanting wants.old (method_wants wants.old.classes number kept.now method.now))) }
{
    wants.want_class(ClassId::Prog(number))?;
    want_method_type(wants, &method.ty)?;
    want_throws(wants, kept, method)?;
    want_code(alloc, wants, number, &method.code)
}

/// The classes that Exceptions names, where that attribute is kept.
fn want_throws(wants: &mut Wants<'_>, kept: &KeptByRules, method: &Method) -> M<()>
    ensures { OnOk result (wants.new ≡ wanting wants.old (throws_wants wants.old.classes kept.now method.now)) }
{
    if kept.exceptions {
        want_names(wants, method.throws.as_slice())
    } else {
        Ok(())
    }
}

fn want_code(alloc: Global, wants: &mut Wants<'_>, number: u32, code: &Option<Code>) -> M<()>
    requires { number < length wants.old.classes }
    ensures { OnOk result (HasSame wants.new
        (wanting wants.old (option_map_or (code_wants wants.old.classes number) code.now []))) }
{
    match code {
        Some(code) => want_of_code(alloc, wants, number, code),
        None => Ok(()),
    }
}

fn want_of_code(alloc: Global, wants: &mut Wants<'_>, number: u32, code: &Code) -> M<()>
    requires { number < length wants.old.classes }
    ensures { OnOk result (HasSame wants.new (wanting wants.old (code_wants wants.old.classes number code.now))) }
{
    want_instructions(alloc, wants, number, code.ins.as_slice())?;
    want_handlers(wants, code.handlers.as_slice())?;
    want_frames(alloc, wants, &code.frames)
}
