// What an item wants, gathered as the numbers of those items that have one.
ghost use Rattle.std.specs.Prelude.{◌≡◌, ◌==◌, ◌≤◌, ◌<◌, [], ◌∷◌, IfOk, IsTrue, OnOk, drop, false, length, not};
ghost use Rattle.std.specs.List.{filter};
ghost use Rattle.class_pool.specs.Found.{IsMember};
ghost use Rattle.class_pool.specs.Hierarchy.{IsClass};
ghost use Rattle.require_sys.specs.Requires.Item.{OfClass, OfMember};
ghost use Rattle.item_numbers.specs.bodies.Alone.{IsAlone};
ghost use Rattle.require_sys.specs.Requires.{numbers};
ghost use Rattle.item_needs.specs.bodies.Known.{IsBehind, ref_wants, text_wants};
ghost use Rattle.item_numbers.specs.bodies.Tops.{IsLibraryTop, IsTop};
ghost use Rattle.item_numbers.specs.bodies.Wanting.{HasSame, needs_from, wanting, wanting_nothing};

use crate::known::{
    RefKind, Row, TextKind, TextRow, is_stamped, no_rows, no_stamps, no_texts, put_stamp, row_of,
    text_row,
};
use class_model::MemberRef;
use class_pool::{ClassId, ClassSet, MemberAt};
use item_numbers::Numbered;
use jv_base::{Items, M, OutOfMemory, Text};
use link_check::{ref_place, text_place};
use std::alloc::Global;
use std::marker::Model;

/// The numbers of what was wanted so far, in the order in which it was.
#[derive(Drop)]
pub(crate) struct Wants<'a> {
    numbered: &'a Numbered<'a>,
    numbers: Vec<u32>,
    alloc: Global,
    /// What some names and descriptors want.
    texts: Vec<Option<TextRow>>,
    /// What some references want.
    rows: Vec<Option<Row>>,
    /// For each of these the stamp of the item that wanted it last.
    stamps: Vec<u64>,
    /// The stamp of the item whose wants are gathered, another one for each.
    stamp: u64,
}

impl<'a> Model for Wants<'a> {
    ghost use Rattle.item_needs.specs.bodies.Known.{Remembers};
    ghost use Rattle.item_numbers.specs.bodies.Wanting.{Wanted};

    ghost Value = { Wanted };

    ghost view = { λ w. record { classes = w.numbered.now.set.now; numbers = w.numbers.items } };

    ghost invariant = { λ w. Remembers w.numbered.now.set.now w.texts.items w.rows.items w.stamps.items w.stamp
        w.numbers.items };
}

impl<'a> Wants<'a> {
    /// Nothing yet.
    pub fn new(alloc: Global, numbered: &'a Numbered<'a>) -> M<Self>
        ensures { IfOk result (λ wants. wants ≡ wanting_nothing numbered.now.set.now) }
    {
        let texts = no_texts(alloc)?;
        let rows = no_rows(alloc)?;
        let stamps = no_stamps(alloc)?;
        Ok(Wants {
            numbered,
            numbers: Vec::new(alloc),
            alloc,
            texts,
            rows,
            stamps,
            stamp: 0,
        })
    }

    /// The set whose items they are.
    pub fn set(&self) -> &'a ClassSet
        ensures { result.now ≡ self.now.classes }
    {
        self.numbered.set
    }

    /// Whether it is known that no class of the set has a member with the name and the descriptor of a member.
    pub fn is_alone(&self, member: &MemberAt) -> bool
        ensures { IsTrue result → IsAlone self.now.classes member.now }
    {
        self.numbered.is_alone(member)
    }

    /// A class above which the same classes of the library are as above another one: that class, or one above it.
    pub fn library_top(&self, number: u32) -> u32
        requires { number < length self.now.classes }
        ensures { IsLibraryTop self.now.classes number result }
    {
        self.numbered.library_top(number)
    }

    /// A class in which the same methods run as in another one: that class, or one above it.
    pub fn top(&self, number: u32) -> u32
        requires { number < length self.now.classes }
        ensures { IsTop self.now.classes number result }
    {
        self.numbered.top(number)
    }

    pub fn want_class(&mut self, class: ClassId) -> M<()>
        requires { IsClass self.old.classes class }
        ensures { OnOk result (self.new ≡ wanting self.old (OfClass class ∷ [])) }
    {
        if let ClassId::Prog(number) = class {
            self.numbers.push(self.numbered.class_item(number))?;
        }
        Ok(())
    }

    pub fn want_member(&mut self, member: MemberAt) -> M<()>
        requires { IsMember self.old.classes member }
        ensures { OnOk result (self.new ≡ wanting self.old (OfMember member ∷ [])) }
    {
        if let Some(number) = self.numbered.item_of(member) {
            self.numbers.push(number)?;
        }
        Ok(())
    }

    /// How many numbers there are.
    pub fn count(&self) -> usize
        ensures { result ≡ length self.now.numbers }
    {
        self.numbers.len()
    }

    /// What a name or a descriptor wants, if that is remembered.
    pub fn want_known_text(&mut self, kind: TextKind, text: &Text) -> M<bool>
        ensures known { IfOk result (λ known. IsTrue known
            → self.new ≡ wanting self.old (text_wants self.old.classes kind text.now)) }
        ensures other { IfOk result (λ known. known ≡ false → self.new ≡ self.old) }
    {
        match text_row(self.texts.as_slice(), kind, text) {
            Some(row) => {
                self.numbers.extend_from_slice(row.numbers.as_slice())?;
                Ok(true)
            }
            None => Ok(false),
        }
    }

    /// Remembers what a name or a descriptor wants: the numbers from a place on.
    pub fn keep_text(&mut self, start: usize, kind: TextKind, text: &Text) -> M<()>
        requires { IsBehind start self.old.numbers (numbers self.old.classes
            (text_wants self.old.classes kind text.now)) }
        ensures { OnOk result (self.new ≡ self.old) }
    {
        let numbers = copied_from(self.alloc, self.numbers.as_slice(), start)?;
        let text = text.clone()?;
        let place = text_place(&text);
        if place < self.texts.len() {
            self.texts[place] = Some(TextRow {
                kind,
                text,
                numbers,
            });
        }
        Ok(())
    }

    /// What a reference wants, if that is remembered. Where the item wanted it before, its numbers are there already.
    pub fn want_known(&mut self, from: u32, kind: RefKind, r: &MemberRef) -> M<bool>
        ensures known { IfOk result (λ known. IsTrue known
            → HasSame self.new (wanting self.old (ref_wants self.old.classes from kind r.now))) }
        ensures other { IfOk result (λ known. known ≡ false → self.new ≡ self.old) }
    {
        let place = ref_place(r);
        match row_of(self.rows.as_slice(), place, from, kind, r) {
            Some(row) => {
                if is_stamped(self.stamps.as_slice(), place, self.stamp) {
                    return Ok(true);
                }
                self.numbers.extend_from_slice(row.numbers.as_slice())?;
                put_stamp(&mut self.stamps, place, self.stamp);
                Ok(true)
            }
            None => Ok(false),
        }
    }

    /// Remembers what a reference wants: the numbers from a place on.
    pub fn keep(&mut self, start: usize, from: u32, kind: RefKind, r: &MemberRef) -> M<()>
        requires { IsBehind start self.old.numbers (numbers self.old.classes
            (ref_wants self.old.classes from kind r.now)) }
        ensures { OnOk result (self.new ≡ self.old) }
    {
        let numbers = copied_from(self.alloc, self.numbers.as_slice(), start)?;
        let reference = r.clone()?;
        let place = ref_place(&reference);
        if place < self.rows.len() {
            self.rows[place] = Some(Row {
                from,
                kind,
                reference,
                numbers,
            });
        }
        Ok(())
    }

    /// What an item needs that wants these: each but itself, ascending and each once. Nothing is wanted from then on.
    pub fn take_needs(&mut self, alloc: Global, own: u32) -> M<Items<u32>>
        ensures needs { IfOk result (λ needs. needs ≡ needs_from own self.old.numbers) }
        ensures after { OnOk result (self.new ≡ wanting_nothing self.old.classes) }
    {
        self.stamp = self.stamp.checked_add(1).ok_or(OutOfMemory)?;
        self.numbers.sort_unstable();
        self.numbers.dedup();
        let needs = all_but(alloc, own, self.numbers.as_slice())?;
        self.numbers.clear();
        Ok(needs)
    }
}

/// These numbers but one.
fn all_but(alloc: Global, own: u32, numbers: &[u32]) -> M<Items<u32>>
    ensures { IfOk result (λ others. others ≡ filter (λ x. not (x == own)) numbers.now) }
{
    let mut others = Items::with_capacity(alloc, numbers.len())?;
    for number in numbers {
        if *number != own {
            others.push(*number)?;
        }
    }
    Ok(others)
}

/// These numbers from a place on.
fn copied_from(alloc: Global, numbers: &[u32], start: usize) -> M<Items<u32>>
    requires { start ≤ length numbers.now }
    ensures { IfOk result (λ copies. copies ≡ drop start numbers.now) }
{
    Ok(Items::from_vec(numbers[start..].to_vec(alloc)?))
}
