// Which act is the first that names a local variable at an index.
ghost use Rattle.std.specs.Prelude.{◌≡◌, ◌<◌, ◌+◌, [], ◌∷◌, None, IfOk, length, slice_get};
ghost use Rattle.const_tables.specs.FirstFacts.{AreFirst, int_at, value_of};
ghost use Rattle.const_tables.specs.Stretches.{IsJoined, IsOrdered, IsSplit, first_before};
ghost use Rattle.const_tables.specs.Stretches.{first_in, is_up_to, next_of};

use code_edit::Act;
use jv_base::M;
use std::alloc::Global;
use std::marker::Model;

/// The places from one on, up to where the next stretch begins, by local variable and then index:
/// the first act that names each of them, if one does.
#[derive(Clone, Copy)]
pub struct Stretch {
    slot: u32,
    at: u64,
    first: Option<usize>,
}

/// For each local variable and index the first act that names both.
#[derive(Drop)]
pub struct FirstFacts {
    stretches: Vec<Stretch>,
}

impl Model for FirstFacts {
    ghost use Rattle.std.specs.Prelude.{List};
    ghost use Rattle.const_tables.specs.declared.facts.Stretch.{Stretch};
    ghost use Rattle.const_tables.specs.Stretches.{IsOrdered};

    ghost Value = { List Stretch };

    ghost view = { λ facts. facts.stretches.items };

    ghost invariant = { λ facts. IsOrdered facts.stretches.items };
}

/// Whether a stretch begins at a place or before it.
fn is_up_to(stretch: &Stretch, slot: u32, at: u64) -> bool
    ensures { result ≡ is_up_to stretch.now slot at }
{
    stretch.slot < slot || stretch.slot == slot && stretch.at <= at
}

// ---- made

/// The stretches of one act that has a number.
fn named_by(alloc: Global, act: &Act, number: usize) -> M<Vec<Stretch>>
    ensures { IfOk result (λ all. AreFirst number (act.now ∷ []) all.items) }
{
    let mut stretches = Vec::new(alloc);
    if let Act::Fact { from, to, slot, .. } = act {
        if from <= to {
            stretches.push(Stretch {
                slot: *slot,
                at: u64::from(*from),
                first: Some(number),
            })?;
            stretches.push(Stretch {
                slot: *slot,
                at: u64::from(*to) + 1,
                first: None,
            })?;
        }
    }
    Ok(stretches)
}

/// The next stretch of two lists.
#[derive(Clone, Copy)]
enum Next {
    Former(Stretch),
    Latter(Stretch),
}

fn stretch_at(stretches: &[Stretch], at: usize) -> Option<Stretch>
    ensures { result ≡ slice_get stretches.now at }
{
    match stretches.get(at) {
        Some(stretch) => Some(*stretch),
        None => None,
    }
}

/// Of the next stretches of two lists the one that begins first.
fn next_of(former: Option<Stretch>, latter: Option<Stretch>) -> Option<Next>
    ensures { result ≡ next_of former latter }
{
    match (former, latter) {
        (Some(former), Some(latter)) => {
            if is_up_to(&former, latter.slot, latter.at) {
                Some(Next::Former(former))
            } else {
                Some(Next::Latter(latter))
            }
        }
        (Some(former), None) => Some(Next::Former(former)),
        (None, Some(latter)) => Some(Next::Latter(latter)),
        (None, None) => None,
    }
}

/// The stretches of two lists together; where both name a place, the former one counts.
fn joined(alloc: Global, former: &[Stretch], latter: &[Stretch]) -> M<Vec<Stretch>>
    requires former { IsOrdered former.now }
    requires latter { IsOrdered latter.now }
    ensures { IfOk result (λ all. IsJoined former.now latter.now all.items) }
{
    let mut all = Vec::new(alloc);
    let mut one = 0;
    let mut other = 0;
    let mut first = None;
    let mut second = None;
    while let Some(next) = next_of(stretch_at(former, one), stretch_at(latter, other)) {
        match next {
            Next::Former(stretch) => {
                one += 1;
                first = stretch.first;
                all.push(Stretch {
                    first: first.or(second),
                    ..stretch
                })?;
            }
            Next::Latter(stretch) => {
                other += 1;
                second = stretch.first;
                all.push(Stretch {
                    first: first.or(second),
                    ..stretch
                })?;
            }
        }
    }
    Ok(all)
}

/// The stretches of acts, of which the first has a number.
fn named_by_all(alloc: Global, acts: &[Act], number: usize) -> M<Vec<Stretch>>
    requires { number + length acts.now < 18446744073709551616 }
    ensures { IfOk result (λ all. AreFirst number acts.now all.items) }
{
    if acts.len() < 2 {
        return match acts.first() {
            Some(act) => named_by(alloc, act, number),
            None => Ok(Vec::new(alloc)),
        };
    }
    let (front, back) = acts.split_at(acts.len() / 2);
    let former = named_by_all(alloc, front, number)?;
    let latter = named_by_all(alloc, back, number + front.len())?;
    joined(alloc, &former, &latter)
}

/// For each local variable and index the first of some acts that names both.
pub fn first_facts(alloc: Global, acts: &[Act]) -> M<FirstFacts>
    ensures { IfOk result (λ facts. AreFirst 0 acts.now facts) }
{
    let stretches = named_by_all(alloc, acts, 0)?;
    Ok(FirstFacts { stretches })
}

// ---- read

/// How many stretches begin at a place or before it.
fn count_up_to(stretches: &[Stretch], slot: u32, at: u64) -> usize
    ensures { IsSplit stretches.now slot at result }
{
    let mut low = 0;
    let mut high = stretches.len();
    while low < high {
        let middle = low + (high - low) / 2;
        if is_up_to(&stretches[middle], slot, at) {
            low = middle + 1;
        } else {
            high = middle;
        }
    }
    low
}

fn first_before(stretches: &[Stretch], count: usize) -> Option<usize>
    ensures { result ≡ first_before stretches.now count }
{
    if count == 0 {
        return None;
    }
    match stretches.get(count - 1) {
        Some(stretch) => stretch.first,
        None => None,
    }
}

fn first_in(stretches: &[Stretch], slot: u32, at: u64) -> Option<usize>
    requires { IsOrdered stretches.now }
    ensures { result ≡ first_in None stretches.now slot at }
{
    let count = count_up_to(stretches, slot, at);
    first_before(stretches, count)
}

/// The number of the first act that names a local variable at an index.
pub fn first_at(facts: &FirstFacts, slot: u32, at: u32) -> Option<usize>
    ensures { result ≡ first_in None facts.now slot at }
{
    first_in(&facts.stretches, slot, u64::from(at))
}

/// The int of an act of this number, where there is one and it is a fact.
fn value_of(acts: &[Act], number: Option<usize>) -> Option<i32>
    ensures { result ≡ value_of acts.now number }
{
    match number {
        Some(number) => match acts.get(number) {
            Some(Act::Fact { value, .. }) => Some(*value),
            _ => None,
        },
        None => None,
    }
}

/// The int that a local variable holds at an index, by the first of the acts that names both.
pub fn int_at(facts: &FirstFacts, acts: &[Act], slot: u32, at: u32) -> Option<i32>
    ensures { result ≡ int_at facts.now acts.now slot at }
{
    value_of(acts, first_at(facts, slot, at))
}
