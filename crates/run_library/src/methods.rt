// What a method of the library does (Java SE 8 API).
ghost use Rattle.run_library.specs.Acts.{ActsAs};
ghost use Rattle.run_library.specs.Rows.{method_of};

use crate::{Act, Row, Seen, builders, objects, streams, strings};
use jv_base::M;
use std::alloc::Global;

/// What a method does with its operands, the receiver first, which is never null.
pub fn act(alloc: Global, row: Row, operands: &[Seen<'_>]) -> M<Act>
    ensures { ActsAs result (method_of row) operands.now }
{
    match row {
        Row::ObjectInit => Ok(objects::object_init(operands)),
        Row::ObjectEquals => objects::object_equals(operands),
        Row::StringLength => Ok(strings::length(operands)),
        Row::StringCharAt => Ok(strings::char_at(operands)),
        Row::StringEquals => Ok(strings::equals(operands)),
        Row::StringHashCode => Ok(strings::hash_code(operands)),
        Row::StringIsEmpty => Ok(strings::is_empty(operands)),
        Row::StringFrom => strings::substring_from(alloc, operands),
        Row::StringBetween => strings::substring(alloc, operands),
        Row::StringCompareTo => Ok(strings::compare_to(operands)),
        Row::StringToString => strings::to_string(operands),
        Row::StringValueOf(ty) => strings::value_of(alloc, ty, operands),
        Row::BuilderInit => Ok(builders::init(alloc, operands)),
        Row::BuilderInitWith => builders::init_with(alloc, operands),
        Row::BuilderAppend(ty) => builders::append(alloc, ty, operands),
        Row::BuilderLength => Ok(builders::length(operands)),
        Row::BuilderToString => builders::to_string(alloc, operands),
        Row::Print(ty) => streams::print(alloc, ty, operands),
        Row::PrintLine(ty) => streams::print_line(alloc, ty, operands),
        Row::EndLine => streams::end_line(alloc, operands),
        Row::ThrowableInit => Ok(objects::throwable_init(operands)),
        Row::ThrowableInitWith => objects::throwable_init_with(operands),
        Row::ThrowableInitFrom => objects::throwable_init_from(operands),
        Row::GetMessage => objects::get_message(operands),
        Row::GetCause => objects::get_cause(operands),
    }
}
