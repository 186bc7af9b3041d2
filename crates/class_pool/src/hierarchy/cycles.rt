// The third round: no class is its own proper supertype.
ghost use Rattle.std.specs.Prelude.{◌≡◌, ◌++◌, ◌<◌, ◌↔◌, [], ◌∷◌, ℕ, List, IfOk, IfSome, IsTrue, OnOk, length};
ghost use Rattle.mark_core.specs.Ranks.{IsRanked};
ghost use Rattle.class_pool.specs.bodies.Cycles.{FindsRanks, HasTest};
ghost use Rattle.class_pool.specs.bodies.Faults.{FindsCycle};
ghost use Rattle.class_pool.specs.Ranks.{HasRanks};
ghost use Rattle.class_pool.specs.bodies.Numbers.{IsHierarchy, above, numbers_named};
ghost use Rattle.class_pool.specs.Supertypes.{IsCyclic};

use crate::hierarchy::rounds::fault_at;
use crate::set::lookup::ClassesByName;
use crate::{PoolFault, PoolKind};
use class_model::Class;
use jv_base::{Items, M, Name, Or};
use mark_core::{
    System, are_ranked, component_ranks, first_unranked, none_rises, plain_marks, ranks_of,
};
use std::alloc::Global;

/// The fault names the first class that is its own proper supertype. Where there is none, each class has a rank.
pub(crate) fn check_cycles(alloc: Global, set: &ClassesByName) -> Result<(), Or<PoolFault>>
    ensures finds { FindsCycle set.now result }
    ensures ranks { OnOk result (HasRanks set.now) }
{
    match first_cyclic(alloc, set)? {
        Some(number) => Err(Or::Fault(fault_at(set.class(number), PoolKind::Cycle)?)),
        None => Ok(()),
    }
}

fn first_cyclic(alloc: Global, set: &ClassesByName) -> M<Option<u32>>
    ensures { IfOk result (FindsRanks set.now) }
{
    let mut hierarchy = hierarchy_of(alloc, set)?;
    if is_ranked(alloc, hierarchy.needs.as_slice())? {
        return Ok(None);
    }
    first_on_cycle(alloc, set, &mut hierarchy)
}

/// Whether the items can be ranked so that each stands above what it needs: then there is no cycle.
fn is_ranked(alloc: Global, needs: &[Items<u32>]) -> M<bool>
    ensures { IfOk result (λ b. IsTrue b → (ranks : List ℕ) × IsRanked needs.now ranks) }
{
    let ranks = ranks_of(alloc, needs)?;
    Ok(are_ranked(needs, ranks.as_slice()))
}

/// By ranks of components: none rises towards the supertypes, and the first class that doesn't stand above them all is
/// the one, where it is on a cycle. So it always is, but that is not proved: else each class is looked at.
fn first_on_cycle(alloc: Global, set: &ClassesByName, hierarchy: &mut System) -> M<Option<u32>>
    requires { IsHierarchy set.now hierarchy.old }
    ensures { IfOk result (FindsRanks set.now) }
{
    let ranks = component_ranks(alloc, hierarchy.needs.as_slice())?;
    if let Some(number) = first_level(set, hierarchy, ranks.as_slice()) {
        if is_cyclic(alloc, set, hierarchy, number)? {
            return Ok(Some(number));
        }
    }
    first_of_each(alloc, set, hierarchy)
}

/// The first class that doesn't stand above all its supertypes, where no rank rises towards them.
fn first_level(set: &ClassesByName, hierarchy: &System, ranks: &[usize]) -> Option<u32>
    requires { IsHierarchy set.now hierarchy.now }
    ensures there { IfSome result (λ n. n < length set.now) }
    ensures before { IfSome result (λ n. (m : ℕ) → m < n → IsCyclic set.now m → ⊥) }
{
    if !none_rises(hierarchy.needs.as_slice(), ranks) {
        return None;
    }
    first_unranked(hierarchy, ranks)
}

/// Looks at each class: whether it is among the classes that its direct supertypes lead to.
fn first_of_each(alloc: Global, set: &ClassesByName, hierarchy: &mut System) -> M<Option<u32>>
    requires { IsHierarchy set.now hierarchy.old }
    ensures { IfOk result (FindsRanks set.now) }
{
    for number in 0..set.len() {
        if is_cyclic(alloc, set, hierarchy, number)? {
            return Ok(Some(number));
        }
    }
    Ok(None)
}

fn is_cyclic(alloc: Global, set: &ClassesByName, hierarchy: &mut System, number: u32) -> M<bool>
    requires there { number < length set.now }
    requires hierarchy { IsHierarchy set.now hierarchy.old }
    ensures is { IfOk result (λ b. IsTrue b ↔ IsCyclic set.now number) }
    ensures test { IfOk result (λ b. HasTest set.now number) }
    ensures hierarchy { OnOk result (IsHierarchy set.now hierarchy.new) }
{
    hierarchy.seeds = above(alloc, set, set.class(number))?;
    let marks = plain_marks(alloc, hierarchy)?;
    Ok(marks[number as usize])
}

fn hierarchy_of(alloc: Global, set: &ClassesByName) -> M<System>
    ensures { IfOk result (IsHierarchy set.now) }
{
    let mut needs = Items::new(alloc);
    for class in set.classes.as_slice() {
        needs.push(above(alloc, set, class)?)?;
    }
    Ok(System {
        n: set.len(),
        seeds: Items::new(alloc),
        needs,
        pairs: Items::new(alloc),
    })
}

/// The direct supertypes that are in the set.
fn above(alloc: Global, set: &ClassesByName, class: &Class) -> M<Items<u32>>
    ensures { IfOk result (λ numbers. numbers ≡ above set.now class.now) }
{
    let mut numbers = Items::new(alloc);
    push_number(set, &mut numbers, &class.super_name)?;
    for name in class.interfaces.as_slice() {
        push_number(set, &mut numbers, name)?;
    }
    Ok(numbers)
}

fn push_number(set: &ClassesByName, numbers: &mut Items<u32>, name: &Name) -> M<()>
    ensures { OnOk result (numbers.new ≡ numbers.old ++ numbers_named set.now (name.now ∷ [])) }
{
    if let Some(number) = set.number_of(name) {
        numbers.push(number)?;
    }
    Ok(())
}
