// What the classes of a set have from the classes above them, found once for each class (`known` of `class_pool`).
ghost use Rattle.std.specs.Prelude.{◌≡◌, ◌<◌, IfOk, IfSome, IsTrue, None, Some, false, length, slice_index_or};
ghost use Rattle.class_pool.specs.declared.id.ClassId.TheVariants.{Prog};
ghost use Rattle.std.specs.List.{All};
ghost use Rattle.std.specs.Option.{option_map_or};
ghost use Rattle.link_check.specs.bodies.Inherited.{AreKnown, Fits, IsKnown, IsStart, has_final_method, start_at};

use crate::overriding::implemented::running_kind;
use bitflags::Flags;
use class_model::Class;
use class_pool::{ClassId, ClassSet, known_at, unknown_from};
use jv_base::{Access, M};
use std::alloc::Global;

/// What is known of a class.
#[derive(Clone, Copy)]
pub(crate) struct Known {
    /// Of its superclasses the nearest one that may have a method that none may override: it has a final method, or is
    /// of the library.
    pub start: Option<ClassId>,
    /// None of its methods is final.
    pub plain: bool,
    /// Whatever runs where the methods of its superinterfaces are called may be called.
    pub fits: bool,
}

/// What is known of each class of a set.
pub(crate) fn known_of_all(alloc: Global, set: &ClassSet) -> M<Vec<Option<Known>>>
    ensures { IfOk result (λ known. AreKnown set.now known.items) }
{
    let mut known = vec![in alloc; None; set.len() as usize]?;
    for number in 0..set.len() {
        let unknown = unknown_from(alloc, set, known.as_slice(), number)?;
        know(set, &mut known, unknown.as_slice());
    }
    Ok(known)
}

/// Looks at these classes, the last one first.
fn know(set: &ClassSet, known: &mut Vec<Option<Known>>, numbers: &[u32])
    requires there { All (λ n. n < length set.now) numbers.now }
    requires known { AreKnown set.now known.old.items }
    ensures { AreKnown set.now known.new.items }
{
    let count = numbers.len();
    for at in 0..count {
        let number = numbers[count - 1 - at];
        let one = known_of(set, known.as_slice(), number);
        known[number as usize] = Some(one);
    }
}

fn known_of(set: &ClassSet, known: &[Option<Known>], number: u32) -> Known
    requires there { number < length set.now }
    requires known { AreKnown set.now known.now }
    ensures { IsKnown set.now number result }
{
    Known {
        start: start_of(set, known, number),
        plain: !has_final_method(set.class(number)),
        fits: fits(set, known, number),
    }
}

/// The superclass, or where that is plain the one at which its methods begin to look.
fn start_of(set: &ClassSet, known: &[Option<Known>], number: u32) -> Option<ClassId>
    requires there { number < length set.now }
    requires known { AreKnown set.now known.now }
    ensures { IsStart set.now number result }
{
    set.has_ranks();
    let _count = set.len();
    let above = set.super_of(ClassId::Prog(number));
    match program_number(&above) {
        Some(superclass) if is_plain_in(known, superclass) => start_in(known, superclass),
        _ => above,
    }
}

/// The number of a class of the set; one of the library has none.
pub(crate) fn program_number(class: &Option<ClassId>) -> Option<u32>
    ensures { IfSome result (λ number. class.now ≡ Some (Prog number)) }
{
    match class {
        Some(ClassId::Prog(number)) => Some(*number),
        _ => None,
    }
}

fn has_final_method(class: &Class) -> bool
    ensures { result ≡ has_final_method class.now }
{
    class
        .methods
        .iter()
        .any(|method| method.flags.contains(Access::FINAL))
}

/// No object is of an interface, so nobody asks it of one.
fn fits(set: &ClassSet, known: &[Option<Known>], number: u32) -> bool
    requires there { number < length set.now }
    requires known { AreKnown set.now known.now }
    ensures { IsTrue result → Fits set.now number }
{
    !set.class(number).flags.contains(Access::INTERFACE)
        && running_kind(set, known, number).is_none()
}

/// Where the methods of a class begin to look for those that they override.
pub(crate) fn start_in(known: &[Option<Known>], number: u32) -> Option<ClassId>
    ensures { result ≡ start_at known.now number }
{
    match known_at(known, number) {
        Some(one) => one.start,
        None => Some(ClassId::Prog(number)),
    }
}

fn is_plain_in(known: &[Option<Known>], number: u32) -> bool
    ensures { result ≡ option_map_or (λ one. one.plain) (slice_index_or known.now number None) false }
{
    match known_at(known, number) {
        Some(one) => one.plain,
        None => false,
    }
}

pub(crate) fn fits_in(known: &[Option<Known>], number: u32) -> bool
    ensures { result ≡ option_map_or (λ one. one.fits) (slice_index_or known.now number None) false }
{
    match known_at(known, number) {
        Some(one) => one.fits,
        None => false,
    }
}
