// For each class those that stand for it: the class itself, or one above it.
//
// In a class without instance methods and without superinterfaces of its own the same methods run as in its superclass.
// Above a class without superinterfaces of its own the same classes of the library are as above its superclass. In
// which order classes are looked at is not proved; only speed rests on it.
ghost use Rattle.std.specs.Prelude.{◌≡◌, ◌<◌, IfOk, IsTrue, false, length};
ghost use Rattle.std.specs.List.{All};
ghost use Rattle.item_numbers.specs.bodies.Tops.{AreGiven, AreLibraryTops, AreTops, HasNoMethod, IsBlank};
ghost use Rattle.item_numbers.specs.bodies.Tops.{IsLibraryTop, IsTop};

use crate::supers::{HIGHEST, superclass_number};
use class_pool::{ClassId, ClassSet, MemberAt};
use jv_base::M;
use std::alloc::Global;

/// For each class the topmost that are found to stand for it.
#[derive(Drop)]
pub(crate) struct Tops {
    /// One in which the same methods run.
    pub methods: Vec<u32>,
    /// One above which the same classes of the library are.
    pub libraries: Vec<u32>,
}

pub(crate) fn tops_of(alloc: Global, set: &ClassSet) -> M<Tops>
    ensures methods { IfOk result (λ tops. AreTops set.now tops.methods.items) }
    ensures libraries { IfOk result (λ tops. AreLibraryTops set.now tops.libraries.items) }
{
    let methods = own_numbers(alloc, set)?;
    let libraries = own_numbers(alloc, set)?;
    let mut tops = Tops { methods, libraries };
    let mut looked = vec![in alloc; false; set.len() as usize]?;
    for number in 0..set.len() {
        let numbers = others_from(alloc, set, &mut looked, number)?;
        raise(set, &mut tops.methods, numbers.as_slice());
        raise_libraries(set, &mut tops.libraries, numbers.as_slice());
    }
    Ok(tops)
}

/// The number of each class.
pub fn own_numbers(alloc: Global, set: &ClassSet) -> M<Vec<u32>>
    ensures { IfOk result (λ numbers. AreGiven (λ n k. k ≡ n) (length set.now) numbers.items) }
{
    let mut numbers = Vec::with_capacity(alloc, set.len() as usize)?;
    for number in 0..set.len() {
        numbers.push(number)?;
    }
    Ok(numbers)
}

/// The class and its superclasses in the set up to the first one that was looked at; they are from then on.
fn others_from(alloc: Global, set: &ClassSet, looked: &mut Vec<bool>, number: u32) -> M<Vec<u32>>
    requires { number < length set.now }
    ensures { IfOk result (λ numbers. All (λ n. n < length set.now) numbers.items) }
{
    let mut numbers = Vec::new(alloc);
    let mut next = number;
    for _ in 0..HIGHEST {
        if !look(looked, next) {
            return Ok(numbers);
        }
        numbers.push(next)?;
        match set.super_of(ClassId::Prog(next)) {
            Some(ClassId::Prog(above)) => next = above,
            _ => return Ok(numbers),
        }
    }
    Ok(numbers)
}

/// Notes that a class is looked at. False where it was before.
fn look(looked: &mut Vec<bool>, number: u32) -> bool {
    let at = number as usize;
    if at >= looked.len() || looked[at] {
        return false;
    }
    looked[at] = true;
    true
}

/// Looks at these classes, the last one first.
fn raise(set: &ClassSet, tops: &mut Vec<u32>, numbers: &[u32])
    requires there { All (λ n. n < length set.now) numbers.now }
    requires tops { AreTops set.now tops.old.items }
    ensures { AreTops set.now tops.new.items }
{
    let count = numbers.len();
    for at in 0..count {
        let number = numbers[count - 1 - at];
        let top = top_of(set, tops.as_slice(), number);
        tops[number as usize] = top;
    }
}

/// The same for the classes of the library.
fn raise_libraries(set: &ClassSet, tops: &mut Vec<u32>, numbers: &[u32])
    requires there { All (λ n. n < length set.now) numbers.now }
    requires tops { AreLibraryTops set.now tops.old.items }
    ensures { AreLibraryTops set.now tops.new.items }
{
    let count = numbers.len();
    for at in 0..count {
        let number = numbers[count - 1 - at];
        let top = library_top_of(set, tops.as_slice(), number);
        tops[number as usize] = top;
    }
}

/// The one of its superclass, where a class has no superinterfaces of its own.
fn library_top_of(set: &ClassSet, tops: &[u32], number: u32) -> u32
    requires there { number < length set.now }
    requires tops { AreLibraryTops set.now tops.now }
    ensures { IsLibraryTop set.now number result }
{
    set.has_ranks();
    let _count = set.len();
    let Some(above) = superclass_number(set, number) else {
        return number;
    };
    if set.own_superinterfaces(ClassId::Prog(number)).is_empty() {
        return tops[above as usize];
    }
    number
}

/// The one of its superclass, where a class is blank.
fn top_of(set: &ClassSet, tops: &[u32], number: u32) -> u32
    requires there { number < length set.now }
    requires tops { AreTops set.now tops.now }
    ensures { IsTop set.now number result }
{
    set.has_ranks();
    let _count = set.len();
    let Some(above) = superclass_number(set, number) else {
        return number;
    };
    if !is_blank(set, number, above) {
        return number;
    }
    tops[above as usize]
}

fn is_blank(set: &ClassSet, number: u32, above: u32) -> bool
    requires there { number < length set.now }
    requires above { above < length set.now }
    ensures { IsTrue result → IsBlank set.now number above }
{
    if set.is_interface(ClassId::Prog(above)) {
        return false;
    }
    if has_instance_method(set, number) {
        return false;
    }
    set.own_superinterfaces(ClassId::Prog(number)).is_empty()
}

fn has_instance_method(set: &ClassSet, number: u32) -> bool
    requires { number < length set.now }
    ensures { result ≡ false → HasNoMethod set.now number }
{
    let class = set.class(number);
    let count = class.fields.len() + class.methods.len();
    for index in 0..count as u32 {
        let m = MemberAt {
            class: ClassId::Prog(number),
            index,
        };
        if set.is_instance_method(m) {
            return true;
        }
    }
    false
}
