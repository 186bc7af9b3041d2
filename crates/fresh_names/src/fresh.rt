// New names in their order (ProGuard manual, "Usage": short names).
ghost use Rattle.std.specs.Prelude.{◌≡◌, ◌++◌, ◌+◌, ◌<◌, ◌∷◌, [], IfOk, OnOk, string_bytes};
ghost use Rattle.fresh_names.specs.Fresh.{fresh, is_taken, letter, name_at, next_free};
ghost use Rattle.fresh_names.specs.Given.{of_type};
ghost use Rattle.fresh_names.specs.bodies.Giving.{front_in, stays_in};

use crate::stays::Stays;
use jv_base::{M, Name, OutOfMemory, Text};
use key_table::KeySet;
use std::alloc::Global;

/// Appends the name with a number: a to z, aa, ab and so on.
#[tactic(auto, using(crate::proofs::Spelling::name_long, crate::proofs::Spelling::name_short))]
fn push_name(text: &mut String, number: u32) -> M<()>
    ensures { OnOk result (string_bytes text.new ≡ string_bytes text.old ++ name_at number) }
{
    if number < 26 {
        return push_letter(text, number);
    }
    push_name(text, number / 26 - 1)?;
    push_letter(text, number % 26)
}

fn push_letter(text: &mut String, number: u32) -> M<()>
    requires { number < 26 }
    ensures { OnOk result (string_bytes text.new ≡ string_bytes text.old ++ letter number ∷ []) }
{
    text.push(char::from(b'a' + number as u8))?;
    Ok(())
}

/// The name with a number, behind what it begins with.
pub(crate) fn fresh_name(alloc: Global, front: &Text, number: u32) -> M<Name>
    ensures { IfOk result (λ name. name ≡ fresh front.now number) }
{
    let mut text = String::from_str(alloc, front.as_str())?;
    push_name(&mut text, number)?;
    Ok(Text::from_string(alloc, text)?)
}

/// The next number. Past the last one there is no memory for so many names.
pub(crate) fn number_after(number: u32) -> M<u32>
    ensures { IfOk result (λ next. next ≡ number + 1) }
{
    if number == u32::MAX {
        return Err(OutOfMemory);
    }
    Ok(number + 1)
}

/// Whether the name with a number stays in a group, or was given there.
#[tactic(auto, using(crate::proofs::Groups::skipped_parts))]
fn is_skipped(
    alloc: Global,
    stays: &Stays,
    news: &KeySet<(Name, Text)>,
    group: &Text,
    number: u32,
) -> M<bool>
    ensures { IfOk result (λ is. is ≡ is_taken (stays_in stays.now group.now ++ of_type group.now news.now)
        (fresh (front_in stays.now group.now) number)) }
{
    let front = stays.front(alloc, group)?;
    let member = (fresh_name(alloc, &front, number)?, group.clone()?);
    let stands = stays.has(&member);
    let is_given = news.has(&member);
    Ok(stands || is_given)
}

/// The first number from one on whose name neither stays in a group nor was given there.
#[tactic(auto, using(crate::proofs::Free::first_free, crate::proofs::Free::more_taken))]
pub(crate) fn next_free(
    alloc: Global,
    stays: &Stays,
    news: &KeySet<(Name, Text)>,
    group: &Text,
    from: u32,
) -> M<u32>
    ensures { IfOk result (λ number. number ≡ next_free (front_in stays.now group.now)
        (stays_in stays.now group.now ++ of_type group.now news.now) from) }
{
    let mut number = from;
    for _ in 0..u32::MAX {
        if !is_skipped(alloc, stays, news, group, number)? {
            return Ok(number);
        }
        number = number_after(number)?;
    }
    Err(OutOfMemory)
}
