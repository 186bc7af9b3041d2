// Lists of classes, of which one may be the end of another.
ghost use Rattle.std.specs.Prelude.{◌≡◌, ◌+◌, ◌-◌, ◌∷◌, ◌<◌, ◌≤◌, [], drop, length, set, slice_get, slice_index_or};
ghost use Rattle.std.specs.Prelude.{IfOk, IsTrue, OnOk, Some};
ghost use Rattle.std.specs.List.{All};
ghost use Rattle.class_pool.specs.bodies.SharedLists.{IsIn, IsTaken, Keeps, StandsBefore, Stays, block_at, ids_at};

use crate::ClassId;
use crate::id::is_same_class;
use jv_base::{Items, M};
use std::alloc::Global;
use std::marker::Model;

/// Places for classes: from the first one on they are taken, and those before it are free.
#[derive(Drop)]
struct Block {
    ids: Vec<ClassId>,
    first: usize,
}

impl Model for Block {
    ghost use Rattle.class_pool.specs.bodies.SharedLists.{Places};

    ghost Value = { Places };

    ghost view = { λ s. record { first = s.first; ids = s.ids.items } };
}

impl Block {
    /// One whose places are taken by these.
    fn of(ids: Vec<ClassId>) -> Block
        ensures { result ≡ record { first = 0; ids = ids.items } }
    {
        Block { ids, first: 0 }
    }

    /// One with a list from the place `room` on, a class before it, and free places before that.
    fn with_room(alloc: Global, room: usize, class: &ClassId, list: &[ClassId]) -> M<Block>
        requires { 0 < room }
        ensures place { IfOk result (λ block. IsIn block room) }
        ensures stands { IfOk result (λ block. StandsBefore block room class.now) }
        ensures ids { IfOk result (λ block. drop room block.ids ≡ list.now) }
    {
        let mut ids = vec![in alloc; *class; room]?;
        ids.extend_from_slice(list)?;
        Ok(Block {
            ids,
            first: room - 1,
        })
    }

    /// Those from a place to the end.
    fn list(&self, start: usize) -> &[ClassId]
        requires { start ≤ length self.now.ids }
        ensures { result.now ≡ drop start self.now.ids }
    {
        &self.ids[start..]
    }

    /// Whether a class stands before a place.
    fn has_before(&self, start: usize, class: &ClassId) -> bool
        requires { IsIn self.now start }
        ensures { IsTrue result → StandsBefore self.now start class.now }
    {
        start > self.first && is_same_class(&self.ids[start - 1], class)
    }

    /// Puts a class before a place, where that is free.
    fn take_before(&mut self, start: usize, class: &ClassId) -> bool
        requires { IsIn self.old start }
        ensures stays { Stays self.old self.new }
        ensures stands { IsTrue result → StandsBefore self.new start class.now }
    {
        if start == 0 || start > self.first {
            return false;
        }
        self.ids[start - 1] = *class;
        self.first = start - 1;
        true
    }
}

/// Where a list stands: from a place in a block to the end of the block.
#[derive(Clone, Copy)]
pub(crate) struct Place {
    block: usize,
    start: usize,
}

/// Lists of classes. A list that is another one with a class before it shares a block with it.
#[derive(Drop)]
pub(crate) struct SharedLists {
    places: Vec<Place>,
    blocks: Vec<Block>,
}

impl Model for SharedLists {
    ghost use Rattle.std.specs.Prelude.{List, map};
    ghost use Rattle.std.specs.List.{All};
    ghost use Rattle.class_pool.specs.declared.id.ClassId.{ClassId};
    ghost use Rattle.class_pool.specs.bodies.SharedLists.{IsTaken, ids_at};

    ghost Value = { List (List ClassId) };

    ghost view = { λ s. map (ids_at s.blocks.items) s.places.items };

    ghost invariant = { λ s. All (IsTaken s.blocks.items) s.places.items };
}

impl SharedLists {
    /// So many lists, all of them empty.
    pub(crate) fn new(alloc: Global, count: usize) -> M<SharedLists>
        ensures count { IfOk result (λ lists. length lists ≡ count) }
        ensures none { IfOk result (λ lists. All (λ ids. ids ≡ []) lists) }
    {
        let mut blocks = Vec::new(alloc);
        blocks.push(Block::of(Vec::new(alloc)))?;
        let none = Place { block: 0, start: 0 };
        let places = vec![in alloc; none; count]?;
        Ok(SharedLists { places, blocks })
    }

    pub(crate) fn len(&self) -> usize
        ensures { result ≡ length self.now }
    {
        self.places.len()
    }

    pub(crate) fn at(&self, number: usize) -> &[ClassId]
        requires { number < length self.now }
        ensures { slice_get self.now number ≡ Some result.now }
    {
        list_at(self.blocks.as_slice(), &self.places[number])
    }

    /// Puts a list in the place of another one.
    pub(crate) fn put(&mut self, number: usize, ids: Items<ClassId>) -> M<()>
        requires { number < length self.old }
        ensures { OnOk result (self.new ≡ set self.old number ids) }
    {
        let block = self.blocks.len();
        self.blocks.push(Block::of(ids.into_vec()))?;
        self.places[number] = Place { block, start: 0 };
        Ok(())
    }

    /// Puts in the place of a list a class and behind it another list, with which it then shares a block.
    pub(crate) fn put_before(
        &mut self,
        alloc: Global,
        number: usize,
        class: &ClassId,
        behind: usize,
    ) -> M<()>
        requires number { number < length self.old }
        requires behind { behind < length self.old }
        ensures { OnOk result (self.new ≡ set self.old number (class.now ∷ slice_index_or self.old behind [])) }
    {
        let old = self.places[behind];
        let place = place_behind(alloc, &mut self.blocks, class, &old)?;
        self.places[behind] = place;
        self.places[number] = before(&place);
        Ok(())
    }
}

fn list_at<'a>(blocks: &'a [Block], place: &Place) -> &'a [ClassId]
    requires { IsTaken blocks.now place.now }
    ensures { result.now ≡ ids_at blocks.now place.now }
{
    blocks[place.block].list(place.start)
}

/// A place of the same list, before which the class stands.
fn place_behind(alloc: Global, blocks: &mut Vec<Block>, class: &ClassId, old: &Place) -> M<Place>
    requires { IsTaken blocks.old.items old.now }
    ensures keeps { Keeps blocks.old.items blocks.new.items }
    ensures taken { IfOk result (IsTaken blocks.new.items) }
    ensures ids { IfOk result (λ p. ids_at blocks.new.items p ≡ ids_at blocks.old.items old.now) }
    ensures stands { IfOk result (λ p. StandsBefore (block_at blocks.new.items p) p.start class.now) }
{
    if is_before(blocks, old, class) {
        return Ok(*old);
    }
    let list = list_at(blocks.as_slice(), old);
    let start = room_for(list);
    let block = Block::with_room(alloc, start, class, list)?;
    let number = blocks.len();
    blocks.push(block)?;
    Ok(Place {
        block: number,
        start,
    })
}

/// How much room a list gets before it: it grows with the list, so that a chain is copied seldom.
fn room_for(list: &[ClassId]) -> usize
    ensures { 0 < result }
{
    if list.is_empty() { 1 } else { list.len() }
}

/// Whether a class stands before a place, or now does, since it was free.
fn is_before(blocks: &mut Vec<Block>, place: &Place, class: &ClassId) -> bool
    requires { IsTaken blocks.old.items place.now }
    ensures keeps { Keeps blocks.old.items blocks.new.items }
    ensures stands { IsTrue result → StandsBefore (block_at blocks.new.items place.now) place.now.start class.now }
{
    let block = &mut blocks[place.block];
    block.has_before(place.start, class) || block.take_before(place.start, class)
}

fn before(place: &Place) -> Place
    requires { 0 < place.now.start }
    ensures { result ≡ record { block = place.now.block; start = place.now.start - 1 } }
{
    Place {
        block: place.block,
        start: place.start - 1,
    }
}
