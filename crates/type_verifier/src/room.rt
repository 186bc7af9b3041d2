// The words that instructions take and give (JVMS 4.10.1.4).
ghost use Rattle.std.specs.Prelude.{◌≡◌, ◌+◌, ◌-◌, ◌&&◌, IfOk, map, nat_le};
ghost use Rattle.type_verifier.specs.Effects.{all_words_wanted, has_room, words_given, words_of_kind, words_wanted};
ghost use Rattle.type_verifier.specs.Rules.{wanted_number};

use crate::TypeKind;
use crate::frame::TypeFrame;
use crate::types::words_of;
use class_model::{Code, Kind, Num, VType};
use jv_base::{M, OutOfMemory};

/// As many words are on the stack as are taken, and with those that are given no more than `max_stack`; the locals are
/// no more than `max_locals`.
pub(crate) fn check_room(
    code: &Code,
    frame: &TypeFrame,
    taken: usize,
    given: usize,
) -> Result<(), TypeKind>
    ensures { result ≡ has_room code.now.max_stack code.now.max_locals taken given frame.now }
{
    let words = frame.stack.words();
    if !is_depth(words, taken, given, usize::from(code.max_stack)) {
        return Err(TypeKind::Depth);
    }
    if usize::from(code.max_locals) < frame.locals.len() {
        return Err(TypeKind::Local);
    }
    Ok(())
}

fn is_depth(words: usize, taken: usize, given: usize, max_stack: usize) -> bool
    ensures { result ≡ (nat_le taken words && nat_le (words - taken + given) max_stack) }
{
    if words < taken {
        return false;
    }
    let left = words - taken;
    left <= max_stack && given <= max_stack - left
}

/// How many words a value takes, if there is one.
pub(crate) fn words_given(given: &Option<VType>) -> usize
    ensures { result ≡ words_given given.now }
{
    match given {
        Some(ty) => words_of(ty),
        None => 0,
    }
}

pub(crate) fn words_of_kind(kind: Kind) -> usize
    ensures { result ≡ words_of_kind kind }
{
    match kind {
        Kind::Long => 2,
        _ => 1,
    }
}

fn words_of_number(num: Num) -> usize
    ensures { result ≡ words_wanted (wanted_number num) }
{
    match num {
        Num::Int => 1,
        Num::Long => 2,
    }
}

/// How many words some numbers take. So many that they can't be counted never stand in memory.
pub(crate) fn words_of_numbers(nums: &[Num]) -> M<usize>
    ensures { IfOk result (λ words. words ≡ all_words_wanted (map wanted_number nums.now)) }
{
    let mut words = 0usize;
    for num in nums {
        words = plus(words, words_of_number(*num))?;
    }
    Ok(words)
}

/// A sum, or want of memory where it is no number of words.
pub(crate) fn plus(words: usize, more: usize) -> M<usize>
    ensures { IfOk result (λ sum. sum ≡ words + more) }
{
    match words.checked_add(more) {
        Some(sum) => Ok(sum),
        None => Err(OutOfMemory),
    }
}
