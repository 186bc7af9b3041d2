// What is known of a slot before an instruction, while ways to it are found.
ghost use Rattle.std.specs.Prelude.{◌≡◌, ◌↔◌, IsTrue, IfOk, map};
ghost use Rattle.const_facts.specs.Order.{int_of, meet, through};

use code_edit::Change;
use jv_base::M;
use std::alloc::Global;

/// What is known of a slot before an instruction.
#[derive(Clone, Copy, PartialEq, Eq)]
pub(crate) enum Held {
    /// No way there was found yet.
    Unreached,
    /// On each way that was found it holds this int.
    Always(i32),
    /// It may hold something else.
    Varies,
}

/// What is known where two ways meet.
pub(crate) fn meet(one: Held, other: Held) -> Held
    ensures { result ≡ meet one other }
{
    match (one, other) {
        (Held::Unreached, _) => other,
        (_, Held::Unreached) => one,
        (Held::Always(a), Held::Always(b)) if a == b => one,
        _ => Held::Varies,
    }
}

/// What is known after an instruction that does this to the slot.
pub(crate) fn through(change: Change, held: Held) -> Held
    ensures { result ≡ through change held }
{
    match (change, held) {
        (Change::Keeps, _) => held,
        (Change::Becomes(value), _) => Held::Always(value),
        (Change::Adds(by), Held::Always(value)) => Held::Always(value.wrapping_add(i32::from(by))),
        (Change::Adds(_), _) => held,
        (Change::Clobbers, _) => Held::Varies,
    }
}

pub(crate) fn is_same(one: Held, other: Held) -> bool
    ensures { IsTrue result ↔ (one ≡ other) }
{
    one == other
}

fn int_of(held: Held) -> Option<i32>
    ensures { result ≡ int_of held }
{
    match held {
        Held::Always(value) => Some(value),
        _ => None,
    }
}

/// The ints that are known.
pub(crate) fn ints(alloc: Global, held: &[Held]) -> M<Vec<Option<i32>>>
    ensures { IfOk result (λ ints. ints.items ≡ map int_of held.now) }
{
    let mut ints = Vec::with_capacity(alloc, held.len())?;
    for held in held {
        ints.push(int_of(*held))?;
    }
    Ok(ints)
}
