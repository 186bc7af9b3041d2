// Instructions on the words at the top of the stack (JVMS 4.10.1.9.dup to 4.10.1.9.dup2_x2, 4.10.1.9.pop,
// 4.10.1.9.pop2, 4.10.1.9.swap).
ghost use Rattle.std.specs.Prelude.{◌≡◌, ◌++◌, IfOk, OnOk};
ghost use Rattle.std.specs.List.{cons_option};
ghost use Rattle.type_verifier.specs.bodies.Changes.{AfterOr};
ghost use Rattle.type_verifier.specs.Effects.{doubled, dropped, one_word, put_below, ruled, second_word, split_words};
ghost use Rattle.type_verifier.specs.Effects.{swapped, two_words};
ghost use Rattle.type_verifier.specs.bodies.Halves.{Leaves, Splits, count_of, values as values_of};
ghost use Rattle.type_verifier.specs.Rules.{Doubles, Drops, Swaps};
ghost use Rattle.type_verifier.specs.bodies.Seen.{environment_of};

use crate::TypeKind;
use crate::environment::Env;
use crate::frame::TypeFrame;
use crate::room::check_room;
use crate::stack::Stack;
use crate::types::{is_category_1, words_of};
use class_model::VType;
use jv_base::{M, Or};

/// Two values at most, the upper one first.
#[derive(Drop)]
struct Values {
    upper: Option<VType>,
    lower: Option<VType>,
}

/// How many words are meant: none, one or two.
#[derive(Clone, Copy)]
pub(crate) enum Words {
    Zero,
    One,
    Two,
}

fn count_of(words: Words) -> usize
    ensures { result ≡ count_of words }
{
    match words {
        Words::Zero => 0,
        Words::One => 1,
        Words::Two => 2,
    }
}

// ---- instructions

/// pop and pop2.
pub(crate) fn drop_words(env: &Env, frame: &mut TypeFrame, words: Words) -> Result<(), Or<TypeKind>>
    ensures { AfterOr result frame.new (ruled (environment_of env.now) 0 (Drops (count_of words)) frame.old) }
{
    check_room(env.code, frame, count_of(words), 0)?;
    take_words(&mut frame.stack, words)?;
    Ok(())
}

/// dup and those like it: a copy of some words below some others.
pub(crate) fn double_words(
    env: &Env,
    frame: &mut TypeFrame,
    copied: Words,
    under: Words,
) -> Result<(), Or<TypeKind>>
    ensures { AfterOr result frame.new
        (ruled (environment_of env.now) 0 (Doubles (count_of copied) (count_of under)) frame.old) }
{
    let taken = count_of(copied) + count_of(under);
    check_room(env.code, frame, taken, taken + count_of(copied))?;
    double(&mut frame.stack, copied, under)
}

/// swap.
pub(crate) fn swap_words(env: &Env, frame: &mut TypeFrame) -> Result<(), Or<TypeKind>>
    ensures { AfterOr result frame.new (ruled (environment_of env.now) 0 Swaps frame.old) }
{
    check_room(env.code, frame, 2, 2)?;
    swap(&mut frame.stack)
}

// ---- the stack

fn double(stack: &mut Stack, copied: Words, under: Words) -> Result<(), Or<TypeKind>>
    ensures { Leaves result stack.new (doubled (count_of copied) (count_of under) stack.old) }
{
    let top = take_words(stack, copied)?;
    put_below(stack, &top, under)?;
    put_values(stack, top)?;
    Ok(())
}

fn swap(stack: &mut Stack) -> Result<(), Or<TypeKind>>
    ensures { Leaves result stack.new (swapped stack.old) }
{
    let top = take_words(stack, Words::One)?;
    put_below(stack, &top, Words::One)
}

/// Copies of these values below some words.
fn put_below(stack: &mut Stack, top: &Values, under: Words) -> Result<(), Or<TypeKind>>
    ensures { Leaves result stack.new (put_below (values_of top.now) (count_of under) stack.old) }
{
    let next = take_words(stack, under)?;
    put_copies(stack, top)?;
    put_values(stack, next)?;
    Ok(())
}

fn put_copies(stack: &mut Stack, values: &Values) -> M<()>
    ensures { OnOk result (stack.new ≡ values_of values.now ++ stack.old) }
{
    let copies = copies(values)?;
    put_values(stack, copies)
}

/// The values that so many words are, which cut none.
fn take_words(stack: &mut Stack, words: Words) -> Result<Values, TypeKind>
    ensures { Splits result stack.new (split_words (count_of words) stack.old) }
{
    match words {
        Words::Zero => Ok(Values {
            upper: None,
            lower: None,
        }),
        Words::One => take_one_word(stack),
        Words::Two => take_two_words(stack),
    }
}

fn take_one_word(stack: &mut Stack) -> Result<Values, TypeKind>
    ensures { Splits result stack.new (one_word stack.old) }
{
    match stack.pop() {
        Some(ty) if is_category_1(&ty) => Ok(Values {
            upper: Some(ty),
            lower: None,
        }),
        _ => Err(TypeKind::Operand),
    }
}

fn take_two_words(stack: &mut Stack) -> Result<Values, TypeKind>
    ensures { Splits result stack.new (two_words stack.old) }
{
    match stack.pop() {
        Some(ty) if words_of(&ty) == 2 => Ok(Values {
            upper: Some(ty),
            lower: None,
        }),
        Some(ty) if is_category_1(&ty) => take_second_word(stack, ty),
        _ => Err(TypeKind::Operand),
    }
}

fn take_second_word(stack: &mut Stack, upper: VType) -> Result<Values, TypeKind>
    ensures { Splits result stack.new (second_word upper stack.old) }
{
    match stack.pop() {
        Some(ty) if is_category_1(&ty) => Ok(Values {
            upper: Some(upper),
            lower: Some(ty),
        }),
        _ => Err(TypeKind::Operand),
    }
}

fn put_values(stack: &mut Stack, values: Values) -> M<()>
    ensures { OnOk result (stack.new ≡ values_of values ++ stack.old) }
{
    let Values { upper, lower } = values;
    put(stack, lower)?;
    put(stack, upper)
}

fn put(stack: &mut Stack, value: Option<VType>) -> M<()>
    ensures { OnOk result (stack.new ≡ cons_option value stack.old) }
{
    match value {
        Some(ty) => stack.push(ty),
        None => Ok(()),
    }
}

fn copies(of: &Values) -> M<Values>
    ensures { IfOk result (λ copies. copies ≡ of.now) }
{
    Ok(Values {
        upper: copy(&of.upper)?,
        lower: copy(&of.lower)?,
    })
}

fn copy(of: &Option<VType>) -> M<Option<VType>>
    ensures { IfOk result (λ copy. copy ≡ of.now) }
{
    match of {
        Some(ty) => Ok(Some(ty.clone()?)),
        None => Ok(None),
    }
}
