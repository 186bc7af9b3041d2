// Methods in groups by the marks of their names and descriptors.
//
// Methods of one name and descriptor have one mark. Where other methods have that mark too, or two methods of one
// class, their group is mixed, and nothing is known of them.
ghost use Rattle.std.specs.Prelude.{◌≡◌, ◌+◌, ◌<◌, IfOk, IfSome, IsTrue, Some, false, length, map, slice_get};
ghost use Rattle.std.specs.Prelude.{slice_index_or};
ghost use Rattle.std.specs.List.Sorted.{IsSorted};
ghost use Rattle.std.specs.Ordering.{nat_cmp};
ghost use Rattle.jv_base.specs.Types.{method_text};
ghost use Rattle.class_pool.specs.Found.{IsMember, IsMethod, named_at};
ghost use Rattle.class_pool.specs.declared.id.ClassId.TheVariants.{Lib, Prog};
ghost use Rattle.class_pool.specs.declared.id.MemberAt.{MemberAt};
ghost use Rattle.method_places.specs.bodies.Alike.{AreAlike, AreClassGrouped, AreGrouped, ArePlaced, HasNone, Knows};
ghost use Rattle.method_places.specs.bodies.Alike.{KnowsEarlier, StillKnow, class_marks, marked_number, place_of};
ghost use Rattle.item_numbers.specs.bodies.Alone.{AreNone};
ghost use Rattle.method_places.specs.declared.alike.Group.TheVariants.{Mixed, Of};

use crate::marks::method_mark;
use class_model::{Class, Method};
use class_pool::ClassSet;
use jv_base::{FieldType, Items, M};
use lib_table::{LibId, lib_is};
use std::alloc::Global;

/// What is known of the methods that have one mark.
#[derive(Clone, Copy)]
pub(crate) enum Group<'a> {
    /// There is none.
    None,
    /// All have the name and the descriptor of this one, and each is the first such one of its class; no class of them
    /// has a higher number.
    Of(&'a Method, u32),
    /// Nothing.
    Mixed,
}

/// The methods of a set in groups.
#[derive(Drop)]
pub(crate) struct Alike<'a> {
    pub set: &'a ClassSet,
    /// For each class the marks of its methods.
    pub marks: Items<Items<u64>>,
    /// The marks of all methods, ascending, each once, and behind them the highest one.
    keys: Vec<u64>,
    /// At the place of each mark what is known of its methods.
    groups: Vec<Group<'a>>,
}

impl<'a> Alike<'a> {
    pub fn of(alloc: Global, set: &'a ClassSet) -> M<Self>
        ensures set { IfOk result (λ alike. alike.set.now ≡ set.now) }
        ensures are { IfOk result (λ alike. AreAlike set.now alike.marks alike.keys.items alike.groups.items) }
    {
        let marks = marks_of(alloc, set)?;
        let keys = keys_of(alloc, marks.as_slice())?;
        let groups = groups_of(alloc, set, marks.as_slice(), keys.as_slice())?;
        Ok(Alike {
            set,
            marks,
            keys,
            groups,
        })
    }

    /// No number is greater.
    pub fn highest(&self) -> usize {
        self.groups.len()
    }

    /// The number of the methods with a mark, 0 where it isn't known that they have one name and descriptor.
    pub fn number_of(&self, mark: u64) -> usize
        requires { IsSorted nat_cmp self.now.keys.items }
        ensures { result ≡ marked_number self.now.keys.items self.now.groups.items mark }
    {
        let place = place_of(self.keys.as_slice(), mark);
        match self.groups.get(place) {
            Some(Group::Of(_, _)) => place + 1,
            _ => 0,
        }
    }

    /// Whether a class of the set may have a method with the name and the descriptor of one of the library. Each group
    /// is asked once.
    pub fn may_have(&self, id: LibId, at: u32) -> bool
        requires alike { AreAlike self.now.set.now self.now.marks self.now.keys.items self.now.groups.items }
        requires there { IsMember self.now.set.now (record { class = Lib id; index = at }) }
        requires method { IsMethod self.now.set.now (record { class = Lib id; index = at }) }
        ensures { result ≡ false → AreNone self.now.set.now
            (named_at self.now.set.now (record { class = Lib id; index = at })) (length self.now.set.now) }
    {
        if !self.has_places() {
            return true;
        }
        for group in self.groups.as_slice() {
            if may_be_in(self.set, group, id, at) {
                return true;
            }
        }
        false
    }

    /// Whether it is known that each mark has a group: the highest one does.
    fn has_places(&self) -> bool
        ensures { IsTrue result → ArePlaced self.now.keys.items self.now.groups.items }
    {
        let count = self.groups.len();
        if count == 0 {
            return false;
        }
        if count > self.keys.len() {
            return false;
        }
        self.keys[count - 1] == u64::MAX
    }
}

/// Whether a group may have a method with the name and the descriptor of one of the library.
fn may_be_in(set: &ClassSet, group: &Group, id: LibId, at: u32) -> bool
    requires method { IsMethod set.now (record { class = Lib id; index = at }) }
    ensures { result ≡ false
        → HasNone set.now (named_at set.now (record { class = Lib id; index = at })) group.now }
{
    let _ = set;
    match group {
        Group::None => false,
        Group::Of(one, _) => lib_is(id, at, &one.name, &one.ty),
        Group::Mixed => true,
    }
}

/// For each class the marks of its methods.
fn marks_of(alloc: Global, set: &ClassSet) -> M<Items<Items<u64>>>
    ensures { IfOk result (λ marks. marks ≡ map class_marks set.now) }
{
    let mut marks = Items::new(alloc);
    for number in 0..set.len() {
        let class = set.class(number);
        marks.push(class_marks(alloc, class)?)?;
    }
    Ok(marks)
}

fn class_marks(alloc: Global, class: &Class) -> M<Items<u64>>
    ensures { IfOk result (λ marks. marks ≡ class_marks class.now) }
{
    let mut marks = Items::with_capacity(alloc, class.methods.len())?;
    for method in class.methods.as_slice() {
        marks.push(method_mark(method))?;
    }
    Ok(marks)
}

/// All marks and the highest one, ascending, each once.
fn keys_of(alloc: Global, marks: &[Items<u64>]) -> M<Vec<u64>>
    ensures { IfOk result (λ keys. IsSorted nat_cmp keys.items) }
{
    let mut keys = Vec::new(alloc);
    for list in marks {
        keys.extend_from_slice(list.as_slice())?;
    }
    keys.push(u64::MAX)?;
    keys.sort_unstable();
    keys.dedup();
    Ok(keys)
}

/// How many of the first keys are less than a mark.
pub(crate) fn place_of(keys: &[u64], mark: u64) -> usize
    requires { IsSorted nat_cmp keys.now }
    ensures { result ≡ place_of keys.now mark }
{
    let mut low = 0;
    let mut high = keys.len();
    while low < high {
        let middle = low + (high - low) / 2;
        if keys[middle] < mark {
            low = middle + 1;
        } else {
            high = middle;
        }
    }
    low
}

fn groups_of<'a>(
    alloc: Global,
    set: &'a ClassSet,
    marks: &[Items<u64>],
    keys: &[u64],
) -> M<Vec<Group<'a>>>
    requires marks { marks.now ≡ map class_marks set.now }
    requires sorted { IsSorted nat_cmp keys.now }
    ensures { IfOk result (λ groups. AreGrouped set.now keys.now groups.items (length set.now)) }
{
    let mut groups = vec![in alloc; Group::None; keys.len()]?;
    for number in 0..set.len() {
        let class = set.class(number);
        let marks = marks[number as usize].as_slice();
        add_class(set, keys, &mut groups, number, class, marks);
    }
    Ok(groups)
}

/// Puts the methods of a class into their groups.
fn add_class<'a>(
    set: &'a ClassSet,
    keys: &[u64],
    groups: &mut Vec<Group<'a>>,
    number: u32,
    class: &'a Class,
    marks: &[u64],
)
    requires marks { marks.now ≡ class_marks class.now }
    requires sorted { IsSorted nat_cmp keys.now }
    requires there { slice_get set.now number ≡ Some class.now }
    requires few { length class.now.fields + length class.now.methods < 4294967295 }
    ensures before { StillKnow set.now groups.old.items groups.new.items }
    ensures added { AreClassGrouped set.now keys.now groups.new.items number (length class.now.fields)
        (length class.now.methods) }
{
    let fields = class.fields.len();
    for at in 0..class.methods.len() {
        let method = &class.methods[at];
        let place = place_of(keys, marks[at]);
        add_method(set, groups, place, number, (fields + at) as u32, method);
    }
}

/// Puts a method into the group at a place.
fn add_method<'a>(
    set: &'a ClassSet,
    groups: &mut Vec<Group<'a>>,
    place: usize,
    number: u32,
    index: u32,
    method: &'a Method,
)
    requires method { IsMethod set.now (record { class = Prog number; index = index }) }
    requires named { named_at set.now (record { class = Prog number; index = index })
        ≡ (method.now.name, method_text method.now.ty) }
    requires earlier { KnowsEarlier set.now (slice_index_or groups.old.items place Mixed) number index }
    ensures before { StillKnow set.now groups.old.items groups.new.items }
    ensures added { Knows set.now (slice_index_or groups.new.items place Mixed)
        (record { class = Prog number; index = index }) }
{
    if place < groups.len() {
        groups[place] = with_method(set, &groups[place], number, index, method);
    }
}

/// A group with one more method, that of a class with a number. Where it knows one of this class already, it is mixed.
fn with_method<'a>(
    set: &'a ClassSet,
    group: &Group<'a>,
    number: u32,
    index: u32,
    method: &'a Method,
) -> Group<'a>
    requires method { IsMethod set.now (record { class = Prog number; index = index }) }
    requires named { named_at set.now (record { class = Prog number; index = index })
        ≡ (method.now.name, method_text method.now.ty) }
    requires earlier { KnowsEarlier set.now group.now number index }
    ensures before { (x : MemberAt) → Knows set.now group.now x → Knows set.now result x }
    ensures added { Knows set.now result (record { class = Prog number; index = index }) }
{
    match group {
        Group::None => Group::Of(method, number),
        Group::Of(one, last) if *last < number && is_alike(one, method) => Group::Of(*one, number),
        _ => Group::Mixed,
    }
}

/// Whether two methods have one name and one type.
fn is_alike(one: &Method, other: &Method) -> bool
    ensures { IsTrue result → (one.now.name ≡ other.now.name) × (one.now.ty ≡ other.now.ty) }
{
    one.name == other.name
        && is_same_result(&one.ty.ret, &other.ty.ret)
        && are_same_types(one.ty.args.as_slice(), other.ty.args.as_slice())
}

fn is_same_result(one: &Option<FieldType>, other: &Option<FieldType>) -> bool
    ensures { IsTrue result → one.now ≡ other.now }
{
    match (one, other) {
        (Some(one), Some(other)) => is_same_type(one, other),
        (None, None) => true,
        _ => false,
    }
}

fn are_same_types(one: &[FieldType], other: &[FieldType]) -> bool
    ensures { IsTrue result → one.now ≡ other.now }
{
    if one.len() != other.len() {
        return false;
    }
    for index in 0..one.len() {
        if !is_same_type(&one[index], &other[index]) {
            return false;
        }
    }
    true
}

fn is_same_type(one: &FieldType, other: &FieldType) -> bool
    ensures { IsTrue result → one.now ≡ other.now }
{
    one == other
}
