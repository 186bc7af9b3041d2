// The classes above a class, and which classes have objects.
ghost use Rattle.std.specs.Prelude.{◌≡◌, ◌&&◌, ◌<◌, [], ◌∷◌, ◌++◌, IfOk, OnOk, length, map, not};
ghost use Rattle.std.specs.List.{All, cons_option, filter, filter_map, flat_map, list_any};
ghost use Rattle.class_model.specs.Flags.{is_interface};
ghost use Rattle.class_pool.specs.Found.{same_member};
ghost use Rattle.class_pool.specs.Hierarchy.{IsClass, superclass};
ghost use Rattle.class_pool.specs.Walk.{each_once, same_class, superclasses_from};
ghost use Rattle.class_pool.specs.declared.id.ClassId.TheVariants.{Prog};
ghost use Rattle.require_sys.specs.Requires.{library_supers, program_supers};
ghost use Rattle.item_numbers.specs.bodies.Supers.{is_library, is_new, other_number, own_once, program_number};

use bitflags::Flags;
use class_model::Class;
use class_pool::{ClassId, ClassSet, MemberAt};
use jv_base::{Access, M};
use std::alloc::Global;

/// More than any set has classes, those of the library with them.
pub(crate) const HIGHEST: u64 = 1 << 33;

/// Few classes have more superclasses; a longer list grows.
const USUAL: usize = 64;

/// The numbers of the classes of the program above the class with a number, ascending. With it its superclasses are
/// given.
pub fn program_supers(alloc: Global, set: &ClassSet, number: u32, chain: &[ClassId]) -> M<Vec<u32>>
    requires there { number < length set.now }
    requires chain { chain.now ≡ superclasses_from set.now (Prog number) }
    ensures are { IfOk result (λ numbers. map Prog numbers.items ≡ program_supers set.now (Prog number)) }
    ensures there { IfOk result (λ numbers. All (λ k. k < length set.now) numbers.items) }
{
    let mut numbers = others_met(alloc, set, number, chain)?;
    numbers.sort_unstable();
    numbers.dedup();
    Ok(numbers)
}

/// The classes of the library above the class with a number, each once.
pub fn library_supers(alloc: Global, set: &ClassSet, number: u32) -> M<Vec<ClassId>>
    requires { number < length set.now }
    ensures { IfOk result (λ ids. ids.items ≡ library_supers set.now (Prog number)) }
{
    let chain = superclasses_of(alloc, set, number)?;
    libraries_met(alloc, set, chain.as_slice())
}

/// The number of the superclass of a class, if that is of the program.
pub(crate) fn superclass_number(set: &ClassSet, number: u32) -> Option<u32>
    requires { number < length set.now }
    ensures { result ≡ program_number (superclass set.now (Prog number)) }
{
    match set.super_of(ClassId::Prog(number)) {
        Some(ClassId::Prog(above)) => Some(above),
        _ => None,
    }
}

/// A class and its superclasses, the nearest first.
pub fn superclasses_of(alloc: Global, set: &ClassSet, number: u32) -> M<Vec<ClassId>>
    requires { number < length set.now }
    ensures { IfOk result (λ ids. ids.items ≡ superclasses_from set.now (Prog number)) }
{
    let mut ids = Vec::with_capacity(alloc, USUAL)?;
    let mut next = Some(ClassId::Prog(number));
    for _ in 0..HIGHEST {
        let Some(class) = &next else {
            return Ok(ids);
        };
        ids.push(*class)?;
        next = set.super_of(*class);
    }
    Ok(ids)
}

/// The numbers of the classes of the program among these classes and the superinterfaces that each of them has itself,
/// but for one number, as often as they are met.
fn others_met(alloc: Global, set: &ClassSet, own: u32, chain: &[ClassId]) -> M<Vec<u32>>
    requires { All (IsClass set.now) chain.now }
    ensures { IfOk result (λ numbers. numbers.items
        ≡ filter_map (other_number own) (chain.now ++ flat_map (own_once set.now) chain.now)) }
{
    let mut numbers = Vec::with_capacity(alloc, chain.len())?;
    push_others(&mut numbers, own, chain)?;
    push_interfaces(&mut numbers, own, set, chain)?;
    Ok(numbers)
}

fn push_interfaces(numbers: &mut Vec<u32>, own: u32, set: &ClassSet, chain: &[ClassId]) -> M<()>
    requires { All (IsClass set.now) chain.now }
    ensures { OnOk result (numbers.new.items
        ≡ numbers.old.items ++ filter_map (other_number own) (flat_map (own_once set.now) chain.now)) }
{
    for class in chain {
        push_others(numbers, own, set.own_superinterfaces(*class))?;
    }
    Ok(())
}

fn push_others(numbers: &mut Vec<u32>, own: u32, ids: &[ClassId]) -> M<()>
    ensures { OnOk result (numbers.new.items ≡ numbers.old.items ++ filter_map (other_number own) ids.now) }
{
    for id in ids {
        push_other(numbers, own, id)?;
    }
    Ok(())
}

fn push_other(numbers: &mut Vec<u32>, own: u32, id: &ClassId) -> M<()>
    ensures { OnOk result (numbers.new.items ≡ numbers.old.items ++ cons_option (other_number own id.now) []) }
{
    if let ClassId::Prog(number) = id {
        if *number != own {
            numbers.push(*number)?;
        }
    }
    Ok(())
}

/// Those of the library among these classes and the superinterfaces that each of them has itself, each once.
fn libraries_met(alloc: Global, set: &ClassSet, chain: &[ClassId]) -> M<Vec<ClassId>>
    requires { All (IsClass set.now) chain.now }
    ensures { IfOk result (λ ids. ids.items
        ≡ each_once [] (filter is_library (chain.now ++ flat_map (own_once set.now) chain.now))) }
{
    let mut ids = Vec::new(alloc);
    add_libraries(&mut ids, chain)?;
    for class in chain {
        add_libraries(&mut ids, set.own_superinterfaces(*class))?;
    }
    Ok(ids)
}

fn add_libraries(found: &mut Vec<ClassId>, ids: &[ClassId]) -> M<()>
    ensures { OnOk result (found.new.items
        ≡ found.old.items ++ each_once found.old.items (filter is_library ids.now)) }
{
    for id in ids {
        add_library(found, id)?;
    }
    Ok(())
}

#[tactic(auto, using(crate::proofs::Meeting::library_left, crate::proofs::Meeting::library_put))]
fn add_library(found: &mut Vec<ClassId>, id: &ClassId) -> M<()>
    ensures { OnOk result (found.new.items
        ≡ found.old.items ++ each_once found.old.items (filter is_library (id.now ∷ []))) }
{
    if is_new(found.as_slice(), id) {
        found.push(*id)?;
    }
    Ok(())
}

/// Whether a class of the library isn't among these.
fn is_new(found: &[ClassId], id: &ClassId) -> bool
    ensures { result ≡ is_new found.now id.now }
{
    is_library(id) && !has_class(found, id)
}

fn is_library(id: &ClassId) -> bool
    ensures { result ≡ is_library id.now }
{
    matches!(id, ClassId::Lib(_))
}

fn has_class(ids: &[ClassId], class: &ClassId) -> bool
    ensures { result ≡ list_any (same_class class.now) ids.now }
{
    ids.iter().any(|id| is_same_class(class, id))
}

pub(crate) fn is_same_class(one: &ClassId, other: &ClassId) -> bool
    ensures { result ≡ same_class one.now other.now }
{
    one == other
}

pub fn is_same_member(one: &MemberAt, other: &MemberAt) -> bool
    ensures { result ≡ same_member one.now other.now }
{
    one.class == other.class && one.index == other.index
}

/// Whether a class is an interface, of which there is no object.
pub fn is_interface(class: &Class) -> bool
    ensures { result ≡ is_interface class.now.flags.0 }
{
    class.flags.contains(Access::INTERFACE)
}
