// What becomes of the codes of a set.
ghost use Rattle.std.specs.Prelude.{◌≡◌, ◌<◌, ℕ, ◌+◌, ◌++◌, IfOk, Some, length, slice_get};
ghost use Rattle.std.specs.List.{AllByRecursion};
ghost use Rattle.jv_base.specs.Types.{method_text};
ghost use Rattle.class_model.specs.WellFormed.{IsWellFormed};
ghost use Rattle.class_model.specs.declared.class.Class.{Class};
ghost use Rattle.class_pool.specs.Count.{item_count};
ghost use Rattle.pass_driver.specs.Optimised.{IsOptimised, IsOptimisedIf, as_it_is, code_for};
ghost use Rattle.pass_driver.specs.Optimised.{entry_for, fallback_for, with_codes};
ghost use Rattle.pass_driver.specs.bodies.Parts.{ArePartsDone, CanBeDone, IsPartDone};
ghost use Rattle.pass_driver.specs.bodies.Spotted.{IsSpot, IsSpotDone};
ghost use Rattle.type_verifier.specs.Verified.{AreTyped};
ghost use Rattle.type_verifier.specs.WithCode.{changed_at, class_with_code, method_with_code};
ghost use Rattle.type_verifier.specs.WithCode.{set_with_code};

use crate::judging::{Outcome, outcome_of};
use crate::spots::{Spot, spots_of};
use class_model::{Class, Code, Method};
use class_pool::ClassSet;
use code_edit::MethodEdits;
use flow_laws::laws::typed_codes_are_sound;
use jv_base::{Items, M, OutOfMemory, method_text};
use mark_words::Marked;
use rayon::prelude::*;
use std::alloc::Global;
use std::mem;
use std::thread::Threads;
use type_verifier::CodeChecker;
use witness_file::{MethodWitness, Witness};

/// How many methods are worth a thread of their own.
const LEAST_PART: usize = 64;

/// A code that a method of a set gets in place of its own, by the numbers of its class and of the method there.
#[derive(Drop)]
pub struct NewCode {
    pub class: u32,
    pub method: u32,
    pub code: Code,
}

/// What becomes of the codes of the kept methods of a set.
#[derive(Drop)]
pub struct Optimised {
    /// Those that change, in the order of the set. A code that doesn't change isn't copied.
    pub codes: Items<NewCode>,
    /// How these methods were edited.
    pub witness: Witness,
    /// How many methods keep their own code because the edited one isn't typed.
    pub fallback: usize,
}

impl Optimised {
    /// Nothing yet.
    fn new(alloc: Global) -> Optimised
        ensures { result ≡ as_it_is }
    {
        Optimised {
            codes: Items::new(alloc),
            witness: Witness {
                methods: Items::new(alloc),
            },
            fallback: 0,
        }
    }
}

/// The entry of the witness for a method of a class.
fn entry_of(alloc: Global, class: &Class, method: &Method, edits: MethodEdits) -> M<MethodWitness>
    ensures { IfOk result (λ entry. entry ≡ record {
      class = class.now.name;
      name = method.now.name;
      ty = method_text method.now.ty;
      edits = edits;
    }) }
{
    Ok(MethodWitness {
        class: class.name.clone()?,
        name: method.name.clone()?,
        ty: method_text(alloc, &method.ty)?,
        edits,
    })
}

/// Appends what is told of a method with this outcome.
fn put_outcome(
    alloc: Global,
    optimised: Optimised,
    spot: Spot,
    class: &Class,
    method: &Method,
    outcome: Outcome,
) -> M<Optimised>
    requires { optimised.fallback < 18446744073709551615 }
    ensures codes { IfOk result (λ more. more.codes ≡ optimised.codes ++ code_for spot outcome) }
    ensures entries { IfOk result (λ more. more.witness.methods
        ≡ optimised.witness.methods ++ entry_for class.now method.now outcome) }
    ensures fallback { IfOk result (λ more. more.fallback ≡ optimised.fallback + fallback_for outcome) }
{
    let mut optimised = optimised;
    match outcome {
        Outcome::Own => {}
        Outcome::Edited { code, edits } => {
            optimised
                .witness
                .methods
                .push(entry_of(alloc, class, method, edits)?)?;
            optimised.codes.push(NewCode {
                class: spot.class,
                method: spot.method,
                code,
            })?;
        }
        Outcome::Fallback => optimised.fallback += 1,
    }
    Ok(optimised)
}

/// What becomes of the method of a spot, appended.
fn put_spot(
    alloc: Global,
    checker: &CodeChecker,
    set: &ClassSet,
    spot: Spot,
    optimised: Optimised,
) -> M<Optimised>
    requires same { checker.now ≡ set.now }
    requires there { IsSpot set.now spot }
    requires formed { (n : ℕ) (c : Class) → slice_get set.now n ≡ Some c → IsWellFormed c }
    requires typed { AreTyped set.now }
    requires few { optimised.fallback < 18446744073709551615 }
    ensures { IfOk result (IsSpotDone set.now spot optimised) }
{
    typed_codes_are_sound();
    let class = set.class(spot.class);
    let method = &class.methods[spot.method as usize];
    match &method.code {
        Some(code) => {
            let outcome = outcome_of(alloc, checker, spot.class, spot.method, code)?;
            put_outcome(alloc, optimised, spot, class, method, outcome)
        }
        None => Ok(optimised),
    }
}

/// What becomes of the methods of some spots, one after another.
fn optimise_spots(
    alloc: Global,
    checker: &CodeChecker,
    set: &ClassSet,
    spots: &[Spot],
) -> M<Optimised>
    requires same { checker.now ≡ set.now }
    requires there { AllByRecursion (IsSpot set.now) spots.now }
    requires formed { (n : ℕ) (c : Class) → slice_get set.now n ≡ Some c → IsWellFormed c }
    requires typed { AreTyped set.now }
    ensures { IfOk result (IsPartDone set.now spots.now) }
{
    let mut optimised = Optimised::new(alloc);
    for spot in spots {
        optimised = put_spot(alloc, checker, set, *spot, optimised)?;
    }
    Ok(optimised)
}

/// The same in parts of this size, by as many threads as there are parts, and two for each processor at most.
fn optimise_parts<Rt: Threads + Sync>(
    rt: &Rt,
    alloc: Global,
    checker: &CodeChecker,
    set: &ClassSet,
    spots: &[Spot],
    size: usize,
) -> M<Vec<Optimised>>
    requires size { 0 < size }
    requires same { checker.now ≡ set.now }
    requires there { AllByRecursion (IsSpot set.now) spots.now }
    requires formed { (n : ℕ) (c : Class) → slice_get set.now n ≡ Some c → IsWellFormed c }
    requires typed { AreTyped set.now }
    ensures { IfOk result (λ parts. ArePartsDone set.now spots.now parts.items) }
{
    let parts: Result<Vec<Optimised>, OutOfMemory> = spots
        .par_chunks(size)
        .with_min_len(1)
        .map(
            |part: &[Spot]| -> M<Optimised>
                requires { CanBeDone checker.now set.now part.now }
                ensures { IfOk result (IsPartDone set.entry.now part.now) }
            { optimise_spots(alloc, checker, set, part) },
        )
        .collect(rt, alloc)?;
    parts
}

/// Appends what becomes of further methods.
fn put_part(optimised: Optimised, part: Optimised) -> M<Optimised>
    requires { optimised.fallback + part.fallback < 18446744073709551616 }
    ensures codes { IfOk result (λ more. more.codes ≡ optimised.codes ++ part.codes) }
    ensures entries { IfOk result (λ more. more.witness.methods ≡ optimised.witness.methods ++ part.witness.methods) }
    ensures fallback { IfOk result (λ more. more.fallback ≡ optimised.fallback + part.fallback) }
{
    let mut codes = optimised.codes.into_vec();
    codes.append(&mut part.codes.into_vec())?;
    let mut methods = optimised.witness.methods.into_vec();
    methods.append(&mut part.witness.methods.into_vec())?;
    Ok(Optimised {
        codes: Items::from_vec(codes),
        witness: Witness {
            methods: Items::from_vec(methods),
        },
        fallback: optimised.fallback + part.fallback,
    })
}

/// How many of so many methods a part has, where there are no more parts than workers. Fewer of them aren't worth a
/// thread.
fn part_size(count: usize, workers: usize) -> usize
    ensures { 0 < result }
{
    count.div_ceil(workers.max(1)).max(LEAST_PART)
}

/// What becomes of the kept methods of a set: each code goes through the six steps, and stays as it is where it then
/// isn't typed. Codes are typed in the set as it stands, since no code names after the steps what it didn't name. The
/// methods are shared out among so many workers, each in a thread of its own; the answer is that of one.
pub fn optimise<Rt: Threads + Sync>(
    rt: &Rt,
    workers: usize,
    alloc: Global,
    set: &ClassSet,
    marked: &Marked,
) -> M<Optimised>
    requires marks { length marked.now ≡ item_count set.now }
    requires formed { (n : ℕ) (c : Class) → slice_get set.now n ≡ Some c → IsWellFormed c }
    requires typed { AreTyped set.now }
    ensures { IfOk result (IsOptimised marked.now set.now) }
{
    let checker = CodeChecker::new(alloc, set)?;
    let spots = spots_of(alloc, set, marked.marks().as_slice())?;
    let size = part_size(spots.len(), workers);
    let parts = optimise_parts(rt, alloc, &checker, set, spots.as_slice(), size)?;
    let mut optimised = Optimised::new(alloc);
    for part in parts {
        optimised = put_part(optimised, part)?;
    }
    Ok(optimised)
}

/// The same where the rules want it (ProGuard manual, "-dontoptimize"); else nothing becomes of the set.
pub fn optimise_if<Rt: Threads + Sync>(
    rt: &Rt,
    workers: usize,
    alloc: Global,
    wanted: bool,
    set: &ClassSet,
    marked: &Marked,
) -> M<Optimised>
    requires marks { length marked.now ≡ item_count set.now }
    requires formed { (n : ℕ) (c : Class) → slice_get set.now n ≡ Some c → IsWellFormed c }
    requires typed { AreTyped set.now }
    ensures { IfOk result (IsOptimisedIf wanted marked.now set.now) }
{
    if wanted {
        optimise(rt, workers, alloc, set, marked)
    } else {
        Ok(Optimised::new(alloc))
    }
}

/// Gives a method a code.
fn put_in_method(method: &mut Method, code: Code)
    ensures { method.new ≡ method_with_code code method.old }
{
    method.code = Some(code);
}

/// Gives the method of this number, which is there, a code.
fn put_in_method_at(methods: &mut [Method], at: usize, code: Code)
    requires { at < length methods.old }
    ensures { methods.new ≡ changed_at at (method_with_code code) methods.old }
{
    put_in_method(&mut methods[at], code);
}

/// Gives the method of this number a code, where there is one.
fn put_in_methods(methods: &mut [Method], number: u32, code: Code)
    ensures { methods.new ≡ changed_at number (method_with_code code) methods.old }
{
    let at = number as usize;
    if at < methods.len() {
        put_in_method_at(methods, at, code);
    }
}

/// The same in a class.
fn put_in_class(alloc: Global, class: &mut Class, number: u32, code: Code)
    ensures { class.new ≡ class_with_code number code class.old }
{
    let mut methods = mem::replace(&mut class.methods, Items::new(alloc)).into_vec();
    put_in_methods(&mut methods, number, code);
    class.methods = Items::from_vec(methods);
}

/// The same in the class of this number, which is there.
fn put_in_class_at(alloc: Global, classes: &mut [Class], at: usize, number: u32, code: Code)
    requires { at < length classes.old }
    ensures { classes.new ≡ changed_at at (class_with_code number code) classes.old }
{
    put_in_class(alloc, &mut classes[at], number, code);
}

/// The same in a set.
fn put_in_set(alloc: Global, classes: &mut [Class], new: NewCode)
    ensures { classes.new ≡ set_with_code classes.old new.class new.method new.code }
{
    let NewCode {
        class,
        method,
        code,
    } = new;
    let at = class as usize;
    if at < classes.len() {
        put_in_class_at(alloc, classes, at, method, code);
    }
}

/// The set with new codes in place of those of its methods. Nothing is copied.
pub fn with_codes(alloc: Global, classes: Items<Class>, codes: Items<NewCode>) -> Items<Class>
    ensures { result ≡ with_codes codes classes }
{
    let mut classes = classes.into_vec();
    for new in codes.into_vec() {
        put_in_set(alloc, &mut classes, new);
    }
    Items::from_vec(classes)
}
