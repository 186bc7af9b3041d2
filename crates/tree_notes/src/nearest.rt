// Where the nearest node with a key is noted.
//
// A walk over the trees notes for each key when it leads to another place, so that for each node what was told when the
// walk met it is found by one search.
ghost use Rattle.std.specs.Prelude.{◌≡◌, ℕ, List, Option};
ghost use Rattle.std.specs.List.Sorted.{IsNonDecreasingBy};
ghost use Rattle.tree_notes.specs.Notes.{IsNearest, IsSame};
ghost use Rattle.tree_notes.specs.bodies.Times.{IsPlace, changes_at, told_at};
ghost use Rattle.tree_notes.specs.bodies.Walking.{AreOrdered};
ghost use Rattle.tree_notes.specs.declared.nearest.Change.{Change};
ghost use Rattle.tree_notes.specs.declared.nearest.Up.TheVariants.{At};

use jv_base::Items;
use std::alloc::Global;

/// A place on the way from a node upwards.
#[derive(Clone, Copy)]
pub enum Up {
    /// At a node.
    At(u32),
    /// Above it: at its parent, or outside of the tree.
    Above(u32),
}

/// From a time on a key leads to another place.
#[derive(Clone, Copy)]
pub struct Change {
    pub time: u32,
    pub up: Up,
}

/// When a node was met, and when the walk over its tree began, at its topmost node.
#[derive(Clone, Copy)]
pub struct Visit {
    pub time: u32,
    pub start: u32,
    pub top: u32,
}

/// For each node of a set of trees and each key the nearest node upwards that has the key.
#[derive(Drop)]
pub struct Nearest {
    /// For each node when it was met.
    pub(crate) visits: Vec<Option<Visit>>,
    /// For each key when it led to another place, in the order of time.
    pub(crate) changes: Vec<Items<Change>>,
}

impl Nearest {
    /// Nothing is noted, whatever the trees and the keys are. Takes no memory.
    pub fn none(alloc: Global) -> Nearest
        ensures { (parents : List (Option ℕ)) (keys : List (List ℕ)) → IsNearest parents keys result }
    {
        Nearest {
            visits: Vec::new(alloc),
            changes: Vec::new(alloc),
        }
    }

    /// The place from which on the way upwards from a node is to be looked through for a key: there is no node with the
    /// key before it. It is the nearest node that has the key, or lies above the topmost one of the tree; where nothing
    /// was noted it is the node itself. By one search, without memory.
    pub fn up_from(&self, node: u32, key: usize) -> Up
        requires { AreOrdered self.now.changes.items }
        ensures { (parents : List (Option ℕ)) (keys : List (List ℕ)) → IsNearest parents keys self.now
            → IsSame parents keys key (At node) result }
    {
        match self.visits.get(node as usize) {
            Some(Some(visit)) if key < self.changes.len() => {
                up_at(self.changes.as_slice(), key, visit)
            }
            _ => Up::At(node),
        }
    }
}

/// Where a key led when a node was met.
pub(crate) fn up_at(changes: &[Items<Change>], key: usize, visit: &Visit) -> Up
    requires { AreOrdered changes.now }
    ensures { result ≡ told_at visit.now (changes_at changes.now key) }
{
    if key < changes.len() {
        told_at(changes[key].as_slice(), visit)
    } else {
        Up::Above(visit.top)
    }
}

/// The same of a key with these changes.
fn told_at(changes: &[Change], visit: &Visit) -> Up
    requires { IsNonDecreasingBy (λ (c : Change). c.time) changes.now }
    ensures { result ≡ told_at visit.now changes.now }
{
    let place = place_of(changes, visit.time);
    if place == 0 {
        return Up::Above(visit.top);
    }
    let last = changes[place - 1];
    if visit.start <= last.time {
        last.up
    } else {
        Up::Above(visit.top)
    }
}

/// How many of the first changes come up to a time.
fn place_of(changes: &[Change], time: u32) -> usize
    requires { IsNonDecreasingBy (λ (c : Change). c.time) changes.now }
    ensures { IsPlace changes.now time result }
{
    let mut low = 0;
    let mut high = changes.len();
    while low < high {
        let middle = low + (high - low) / 2;
        if changes[middle].time <= time {
            low = middle + 1;
        } else {
            high = middle;
        }
    }
    low
}
