// Whether an output has shown what its input has.
ghost use Rattle.std.specs.Prelude.{◌≡◌, ◌↔◌, IsTrue, nat_eq};
ghost use Rattle.std.specs.List.{starts_with};
ghost use Rattle.class_run.specs.declared.ended.Back.TheVariants as back;
ghost use Rattle.class_run.specs.declared.ended.End.TheVariants as end;
ghost use Rattle.new_names.specs.NewNames.{names_of};
ghost use Rattle.compare_command.specs.Alike.{EndsSo, IsAlike, new_end};

use class_run::{Back, End, Ended};
use jv_base::{Name, Units};
use new_names::{NewNames, is_mapped_class};

/// Whether the run of an output has come to the end to which that of its input has come, and has printed the same; of
/// an input that hasn't ended, whether it has printed at least as much.
pub(crate) fn is_alike(names: &NewNames<'_>, input: &Ended, output: &Ended) -> bool
    ensures { IsTrue result ↔ IsAlike names.now input.now output.now }
{
    match &input.how {
        End::Running => is_front(&input.printed, &output.printed),
        End::Returned(_) | End::Threw { .. } | End::Wrong => has_ended_so(names, input, output),
    }
}

/// Whether the run of an output has printed the same and has come to the same end.
fn has_ended_so(names: &NewNames<'_>, input: &Ended, output: &Ended) -> bool
    ensures { IsTrue result ↔ EndsSo names.now input.now output.now }
{
    input.printed == output.printed && is_new_end(names, &input.how, &output.how)
}

/// Whether what was printed begins so.
fn is_front(front: &Units, printed: &Units) -> bool
    ensures { result ≡ starts_with nat_eq printed.now front.now }
{
    printed.as_slice().starts_with(front.as_slice())
}

// ---- ends

/// Whether an end is another one, with the new name of what was thrown.
fn is_new_end(names: &NewNames<'_>, old: &End, new: &End) -> bool
    ensures { IsTrue result ↔ (new_end names.now old.now ≡ new.now) }
{
    match old {
        End::Running => is_running(new),
        End::Returned(value) => is_return_of(value, new),
        End::Threw { class, number } => is_throw_of(names, class, *number, new),
        End::Wrong => is_wrong(new),
    }
}

fn is_running(other: &End) -> bool
    ensures { IsTrue result ↔ (end.Running ≡ other.now) }
{
    matches!(other, End::Running)
}

fn is_wrong(other: &End) -> bool
    ensures { IsTrue result ↔ (end.Wrong ≡ other.now) }
{
    matches!(other, End::Wrong)
}

fn is_return_of(value: &Back, other: &End) -> bool
    ensures { IsTrue result ↔ (end.Returned value.now ≡ other.now) }
{
    match other {
        End::Returned(new) => is_same_back(value, new),
        _ => false,
    }
}

fn is_throw_of(names: &NewNames<'_>, class: &Name, number: u64, other: &End) -> bool
    ensures { IsTrue result ↔ (end.Threw ((names_of names.now).class class.now) number ≡ other.now) }
{
    match other {
        End::Threw {
            class: new,
            number: at,
        } => number == *at && is_mapped_class(names, class, new),
        _ => false,
    }
}

// ---- what was returned

fn is_same_back(one: &Back, other: &Back) -> bool
    ensures { IsTrue result ↔ (one.now ≡ other.now) }
{
    match one {
        Back::Nothing => is_nothing(other),
        Back::Int(number) => is_int(*number, other),
        Back::Long(number) => is_long(*number, other),
        Back::Null => is_null(other),
        Back::Ref(number) => is_reference(*number, other),
        Back::Lit(units) => is_literal(units, other),
    }
}

fn is_nothing(value: &Back) -> bool
    ensures { IsTrue result ↔ (back.Nothing ≡ value.now) }
{
    matches!(value, Back::Nothing)
}

fn is_int(number: i32, value: &Back) -> bool
    ensures { IsTrue result ↔ (back.Int number ≡ value.now) }
{
    match value {
        Back::Int(other) => number == *other,
        _ => false,
    }
}

fn is_long(number: i64, value: &Back) -> bool
    ensures { IsTrue result ↔ (back.Long number ≡ value.now) }
{
    match value {
        Back::Long(other) => number == *other,
        _ => false,
    }
}

fn is_null(value: &Back) -> bool
    ensures { IsTrue result ↔ (back.Null ≡ value.now) }
{
    matches!(value, Back::Null)
}

fn is_reference(number: u64, value: &Back) -> bool
    ensures { IsTrue result ↔ (back.Ref number ≡ value.now) }
{
    match value {
        Back::Ref(other) => number == *other,
        _ => false,
    }
}

fn is_literal(units: &Units, value: &Back) -> bool
    ensures { IsTrue result ↔ (back.Lit units.now ≡ value.now) }
{
    match value {
        Back::Lit(other) => units == other,
        _ => false,
    }
}
