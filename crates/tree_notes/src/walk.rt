// The walk over the nodes of trees, which notes for each key the nearest node upwards that has it.
ghost use Rattle.std.specs.Prelude.{◌≡◌, ◌++◌, ◌+◌, ◌<◌, ◌∷◌, ℕ, [], IfOk, IfSome, IsTrue, List, OnOk, Option, Some};
ghost use Rattle.std.specs.Prelude.{set, slice_get, slice_index_or, None};
ghost use Rattle.std.specs.List.{All};
ghost use Rattle.tree_notes.specs.Notes.{IsNearest};
ghost use Rattle.tree_notes.specs.bodies.Times.{changes_at, told_at};
ghost use Rattle.tree_notes.specs.bodies.Walking.{AreOrdered, ArePut, AreUpTo, IsBelow, IsWalk};
ghost use Rattle.tree_notes.specs.declared.nearest.Change.{Change as ChangeValue};
ghost use Rattle.tree_notes.specs.declared.nearest.Up.TheVariants.{At};
ghost use Rattle.tree_notes.specs.declared.nearest.Visit.{Visit as VisitValue};

use crate::children::{Children, Place};
use crate::nearest::{Change, Nearest, Up, Visit, up_at};
use jv_base::{Items, M};
use std::alloc::Global;

/// The node at which the walk is.
#[derive(Clone, Copy)]
pub(crate) struct Here {
    pub node: u32,
    /// As if it were met now.
    pub visit: Visit,
}

#[derive(Drop)]
pub(crate) struct Walk {
    pub nearest: Nearest,
    /// The time of the last step.
    pub time: u32,
    pub here: Option<Here>,
}

/// For each of some keys, numbered from 0, the nearest nodes that have it. Nodes are told by their numbers; each has a
/// parent or none, and a list of keys. Takes time and memory for each node and each of its keys twice.
pub fn nearest_of(
    alloc: Global,
    parents: &[Option<u32>],
    keys: &[Items<u32>],
    count: usize,
) -> M<Nearest>
    ensures { IfOk result (IsNearest parents.now keys.now) }
{
    let children = Children::of(alloc, parents)?;
    let mut walk = begun(alloc, parents.len(), count)?;
    let mut place = children.begin();
    for _ in 0..parents.len().saturating_mul(2) {
        let Some(at) = place else {
            break;
        };
        go(&mut walk, parents, keys, at)?;
        place = children.behind(parents, at);
    }
    let Walk { nearest, .. } = walk;
    Ok(nearest)
}

/// Nothing is noted.
fn begun(alloc: Global, nodes: usize, count: usize) -> M<Walk>
    ensures { IfOk result (λ walk. (parents : List (Option ℕ)) (keys : List (List ℕ)) → IsWalk parents keys walk) }
{
    let visits = no_visits(alloc, nodes)?;
    let changes = no_changes(alloc, count)?;
    Ok(Walk {
        nearest: Nearest { visits, changes },
        time: 0,
        here: None,
    })
}

fn no_visits(alloc: Global, nodes: usize) -> M<Vec<Option<Visit>>>
    ensures { IfOk result (λ visits. All (λ (v : Option VisitValue). v ≡ None) visits.items) }
{
    let mut visits = Vec::with_capacity(alloc, nodes)?;
    for _ in 0..nodes {
        visits.push(None)?;
    }
    Ok(visits)
}

fn no_changes(alloc: Global, count: usize) -> M<Vec<Items<Change>>>
    ensures { IfOk result (λ changes. All (λ (cs : List ChangeValue). cs ≡ []) changes.items) }
{
    let mut changes = Vec::with_capacity(alloc, count)?;
    for _ in 0..count {
        changes.push(Items::new(alloc))?;
    }
    Ok(changes)
}

/// One step.
fn go(walk: &mut Walk, parents: &[Option<u32>], keys: &[Items<u32>], place: Place) -> M<()>
    requires { IsWalk parents.now keys.now walk.old }
    ensures { OnOk result (IsWalk parents.now keys.now walk.new) }
{
    match place {
        Place::Before(node) => enter(walk, parents, keys, node),
        Place::Behind(_) => leave(walk, parents, keys),
    }
}

/// To a node: each of its keys leads to it.
fn enter(walk: &mut Walk, parents: &[Option<u32>], keys: &[Items<u32>], node: u32) -> M<()>
    requires { IsWalk parents.now keys.now walk.old }
    ensures { OnOk result (IsWalk parents.now keys.now walk.new) }
{
    let Some(time) = next_time(walk.time) else {
        return Ok(());
    };
    let at = node as usize;
    if at >= keys.len() || at >= walk.nearest.visits.len() {
        return Ok(());
    }
    let visit = visit_below(parents, &walk.here, node, time);
    put_each(&mut walk.nearest.changes, keys[at].as_slice(), time, node)?;
    walk.nearest.visits[at] = Some(visit);
    walk.time = time;
    walk.here = Some(Here { node, visit });
    Ok(())
}

fn next_time(time: u32) -> Option<u32>
    ensures { IfSome result (λ next. next ≡ time + 1) }
{
    time.checked_add(1)
}

/// The visit of a node. One that isn't below the node at which the walk is stands at the top of another tree.
fn visit_below(parents: &[Option<u32>], here: &Option<Here>, node: u32, time: u32) -> Visit
    ensures { IsBelow parents.now here.now node time result }
{
    match here {
        Some(here) if is_child(parents, node, here.node) => Visit {
            time,
            start: here.visit.start,
            top: here.visit.top,
        },
        _ => Visit {
            time,
            start: time,
            top: node,
        },
    }
}

fn is_child(parents: &[Option<u32>], node: u32, parent: u32) -> bool
    ensures { IsTrue result → slice_get parents.now node ≡ Some (Some parent) }
{
    match parents.get(node as usize) {
        Some(Some(found)) => *found == parent,
        _ => false,
    }
}

/// At a time these keys lead to a node.
fn put_each(changes: &mut Vec<Items<Change>>, keys: &[u32], time: u32, node: u32) -> M<()>
    ensures { OnOk result (ArePut time (λ key. At node) keys.now changes.old.items changes.new.items) }
{
    for key in keys {
        let up = Up::At(node);
        put(changes, *key, Change { time, up })?;
    }
    Ok(())
}

fn put(changes: &mut Vec<Items<Change>>, key: u32, change: Change) -> M<()>
    ensures { OnOk result (changes.new.items
        ≡ set changes.old.items key (changes_at changes.old.items key ++ change ∷ [])) }
{
    let at = key as usize;
    if at < changes.len() {
        changes[at].push(change)?;
    }
    Ok(())
}

/// Back to the parent: each key of the node that is left leads to where it led at the parent.
fn leave(walk: &mut Walk, parents: &[Option<u32>], keys: &[Items<u32>]) -> M<()>
    requires { IsWalk parents.now keys.now walk.old }
    ensures { OnOk result (IsWalk parents.now keys.now walk.new) }
{
    let Some(here) = walk.here else {
        return Ok(());
    };
    let Some(node) = parent_of(parents, here.node) else {
        return Ok(());
    };
    let Some(visit) = visit_of(walk.nearest.visits.as_slice(), node, &here.visit) else {
        return Ok(());
    };
    let Some(time) = next_time(walk.time) else {
        return Ok(());
    };
    let at = here.node as usize;
    if at >= keys.len() {
        return Ok(());
    }
    put_back(&mut walk.nearest.changes, keys[at].as_slice(), time, &visit)?;
    walk.time = time;
    let visit = Visit {
        time,
        start: visit.start,
        top: visit.top,
    };
    walk.here = Some(Here { node, visit });
    Ok(())
}

fn parent_of(parents: &[Option<u32>], node: u32) -> Option<u32>
    ensures { IfSome result (λ parent. slice_get parents.now node ≡ Some (Some parent)) }
{
    match parents.get(node as usize) {
        Some(parent) => *parent,
        None => None,
    }
}

/// The visit of a node in the same tree as another one.
fn visit_of(visits: &[Option<Visit>], node: u32, other: &Visit) -> Option<Visit>
    ensures { IfSome result (λ v. (slice_index_or visits.now node None ≡ Some v) × (v.start ≡ other.now.start)
        × (v.top ≡ other.now.top)) }
{
    match visits.get(node as usize) {
        Some(Some(visit)) if visit.start == other.start && visit.top == other.top => Some(*visit),
        _ => None,
    }
}

/// At a time these keys lead to where they led at the time of a visit.
fn put_back(changes: &mut Vec<Items<Change>>, keys: &[u32], time: u32, visit: &Visit) -> M<()>
    requires order { AreOrdered changes.old.items }
    requires times { AreUpTo time changes.old.items }
    requires earlier { visit.now.time < time }
    ensures { OnOk result (ArePut time (λ key. told_at visit.now (changes_at changes.old.items key)) keys.now
        changes.old.items changes.new.items) }
{
    for key in keys {
        let up = up_at(changes.as_slice(), *key as usize, visit);
        put(changes, *key, Change { time, up })?;
    }
    Ok(())
}
