// What a class and a method above it need together.
ghost use Rattle.std.specs.Prelude.{◌≡◌, ◌+◌, ◌<◌, [], IfOk, OnOk, Some, if◌then◌else◌, length, map, slice_get};
ghost use Rattle.std.specs.Prelude.{slice_index_or, true};
ghost use Rattle.std.specs.List.{All, cons_option, filter, filter_map, flat_map};
ghost use Rattle.class_pool.specs.Found.{IsMember, same_member};
ghost use Rattle.class_pool.specs.Hierarchy.{IsClass};
ghost use Rattle.class_pool.specs.Walk.{superclasses_from};
ghost use Rattle.class_pool.specs.declared.id.ClassId.TheVariants.{Prog};
ghost use Rattle.require_sys.specs.Requires.{class_pairs, is_inheritable, pair_of};
ghost use Rattle.override_pairs.specs.bodies.Above.{AreSteps, IsAbove, IsClassAbove, IsReceiver};
ghost use Rattle.method_places.specs.bodies.Alike.{AreRows, HasItem, member_at};
ghost use Rattle.override_pairs.specs.bodies.Counting.{AddsPairs, HasPairs};
ghost use Rattle.override_pairs.specs.bodies.Free.{HasFree};
ghost use Rattle.method_places.specs.bodies.Nearest.{IsListed, is_hidden};
ghost use Rattle.method_places.specs.bodies.Places.{HavePlaces};
ghost use Rattle.item_numbers.specs.bodies.Selecting.{all_pairs, pair_with, pairs_in};
ghost use Rattle.item_numbers.specs.bodies.Tops.{AreAbove};

use crate::free::Free;
use crate::receiver::{Receiver, member_of};
use class_model::Class;
use class_pool::{ClassId, ClassSet, MemberAt};
use item_numbers::{
    Numbered, is_interface, is_same_member, own_numbers, program_supers, superclasses_of,
};
use jv_base::{Items, M};
use mark_core::Pair;
use method_places::{InstanceMethod, Methods, Note, Openness, Places, no_notes, note_chain};
use require_sys::Counted;
use std::alloc::Global;

/// Pairs, counted. They are no longer made where they are too many.
#[derive(Drop)]
pub struct Pairs {
    pub pairs: Items<Pair>,
    pub count: u64,
}

impl Pairs {
    /// One more pair, if there is one.
    fn add(&mut self, pair: Option<Pair>) -> M<()>
        ensures { OnOk result (AddsPairs self.old (cons_option pair []) self.new) }
    {
        let Some(pair) = pair else {
            return Ok(());
        };
        if self.count >= Counted::Pairs.limit() {
            self.count = self.count.saturating_add(1);
            return Ok(());
        }
        self.count += 1;
        self.pairs.push(pair)?;
        Ok(())
    }
}

/// What is known of the classes above another one.
#[derive(Drop)]
struct Above {
    /// For each class one that it is or is a superclass of.
    below: Vec<u32>,
    /// How many steps it is above that.
    steps: Vec<usize>,
    /// The nearest methods from a class upwards.
    notes: Vec<Note>,
    /// Those of each place, and of these the ones that methods of all packages may override.
    placed: Vec<Note>,
    opening: Vec<Note>,
    /// Those that may override others, where a private method has their number.
    freed: Vec<Note>,
}

/// A class above the one whose pairs are found.
#[derive(Drop)]
struct ClassAbove {
    number: u32,
    /// Whether it is known to be a superclass.
    is_known: bool,
    /// The number and the item of the class whose pairs are found.
    own: u32,
    item: u32,
}

/// The pairs of all classes, in the order of the set.
pub fn pairs_of(alloc: Global, numbered: &Numbered, methods: &Methods) -> M<Pairs>
    requires { AreRows numbered.now.set.now methods.now.of_classes }
    ensures { IfOk result (HasPairs (all_pairs numbered.now.set.now)) }
{
    let set = numbered.set;
    let mut pairs = Pairs {
        pairs: Items::new(alloc),
        count: 0,
    };
    let places = Places::of(alloc, set, methods.of_classes.as_slice())?;
    let free = Free::of(alloc, methods)?;
    let mut above = nothing_above(alloc, set, methods.highest, places.highest())?;
    for number in 0..set.len() {
        let class = set.class(number);
        add_class(
            alloc, numbered, methods, &places, &free, &mut above, number, class, &mut pairs,
        )?;
    }
    Ok(pairs)
}

fn nothing_above(alloc: Global, set: &ClassSet, highest: usize, highest_place: usize) -> M<Above>
    ensures { IfOk result (IsAbove set.now 0) }
{
    let below = own_numbers(alloc, set)?;
    let steps = vec![in alloc; 0usize; set.len() as usize]?;
    let notes = no_notes(alloc, highest)?;
    let placed = no_notes(alloc, highest_place)?;
    let opening = no_notes(alloc, highest_place)?;
    let freed = no_notes(alloc, highest)?;
    Ok(Above {
        below,
        steps,
        notes,
        placed,
        opening,
        freed,
    })
}

/// The pairs of a class; no object is of an interface.
fn add_class(
    alloc: Global,
    numbered: &Numbered,
    methods: &Methods,
    places: &Places,
    free: &Free,
    above: &mut Above,
    number: u32,
    class: &Class,
    pairs: &mut Pairs,
) -> M<()>
    requires methods { AreRows numbered.now.set.now methods.now.of_classes }
    requires places { HavePlaces numbered.now.set.now methods.now.of_classes places.now }
    requires free { HasFree methods.now.of_classes free.now }
    requires above { IsAbove numbered.now.set.now number above.old }
    requires there { slice_get numbered.now.set.now number ≡ Some class.now }
    ensures pairs { OnOk result (AddsPairs pairs.old (class_pairs numbered.now.set.now (number, class.now)) pairs.new) }
    ensures above { OnOk result (IsAbove numbered.now.set.now (number + 1) above.new) }
{
    if is_interface(class) {
        return Ok(());
    }
    let top = numbered.top(number);
    let chain = superclasses_of(alloc, numbered.set, top)?;
    let chain = chain.as_slice();
    let supers = program_supers(alloc, numbered.set, top, chain)?;
    add_above(
        numbered,
        methods,
        places,
        free,
        above,
        number,
        top,
        chain,
        supers.as_slice(),
        pairs,
    )
}

/// Those of a class with the methods of these classes above it. The same methods run in another one, its top, which is
/// given with its superclasses.
fn add_above(
    numbered: &Numbered,
    methods: &Methods,
    places: &Places,
    free: &Free,
    above: &mut Above,
    number: u32,
    top: u32,
    chain: &[ClassId],
    supers: &[u32],
    pairs: &mut Pairs,
) -> M<()>
    requires methods { AreRows numbered.now.set.now methods.now.of_classes }
    requires places { HavePlaces numbered.now.set.now methods.now.of_classes places.now }
    requires free { HasFree methods.now.of_classes free.now }
    requires above { IsAbove numbered.now.set.now number above.old }
    requires there { number < length numbered.now.set.now }
    requires top { top < length numbered.now.set.now }
    requires chain { chain.now ≡ superclasses_from numbered.now.set.now (Prog top) }
    requires supers { All (λ k. k < length numbered.now.set.now) supers.now }
    ensures pairs { OnOk result (AddsPairs pairs.old (flat_map (pairs_in numbered.now.set.now number top)
        (map Prog supers.now)) pairs.new) }
    ensures above { OnOk result (IsAbove numbered.now.set.now (number + 1) above.new) }
{
    if supers.is_empty() {
        return Ok(());
    }
    let _count = numbered.set.len();
    let stamp = number + 1;
    mark_above(numbered.set, &mut above.below, &mut above.steps, top, chain);
    note_chain(&methods.of_classes, &mut above.notes, stamp, chain);
    note_chain(&places.each, &mut above.placed, stamp, chain);
    note_chain(&places.opening, &mut above.opening, stamp, chain);
    note_chain(&free.rows, &mut above.freed, stamp, chain);
    let receiver = Receiver {
        numbered,
        class: top,
        table: &methods.of_classes,
        below: above.below.as_slice(),
        stamp,
        notes: above.notes.as_slice(),
        places,
        placed: above.placed.as_slice(),
        opening: above.opening.as_slice(),
        steps: above.steps.as_slice(),
        free,
        freed: above.freed.as_slice(),
    };
    add_each(&receiver, number, supers, pairs)
}

/// Notes of a class and its superclasses that they are above it, and how many steps.
fn mark_above(
    set: &ClassSet,
    below: &mut Vec<u32>,
    steps: &mut Vec<usize>,
    number: u32,
    chain: &[ClassId],
)
    requires below { AreAbove set.now below.old.items }
    requires steps { AreSteps set.now below.old.items steps.old.items }
    requires there { number < length set.now }
    requires chain { chain.now ≡ superclasses_from set.now (Prog number) }
    requires classes { All (IsClass set.now) chain.now }
    ensures below { AreAbove set.now below.new.items }
    ensures steps { AreSteps set.now below.new.items steps.new.items }
{
    for step in 0..chain.len() {
        mark_class(set, below, steps, number, &chain[step], step);
    }
}

fn mark_class(
    set: &ClassSet,
    below: &mut Vec<u32>,
    steps: &mut Vec<usize>,
    number: u32,
    class: &ClassId,
    step: usize,
)
    requires below { AreAbove set.now below.old.items }
    requires steps { AreSteps set.now below.old.items steps.old.items }
    requires there { IsClass set.now class.now }
    requires above { slice_get (superclasses_from set.now (Prog number)) step ≡ Some class.now }
    ensures below { AreAbove set.now below.new.items }
    ensures steps { AreSteps set.now below.new.items steps.new.items }
{
    let _count = set.len();
    if let ClassId::Prog(above) = class {
        below[*above as usize] = number;
        steps[*above as usize] = step;
    }
}

fn add_each(receiver: &Receiver, number: u32, supers: &[u32], pairs: &mut Pairs) -> M<()>
    requires receiver { IsReceiver receiver.now }
    requires there { number < length receiver.now.numbered.now.set.now }
    requires supers { All (λ k. k < length receiver.now.numbered.now.set.now) supers.now }
    ensures { OnOk result (AddsPairs pairs.old
        (flat_map (pairs_in receiver.now.numbered.now.set.now number receiver.now.class)
        (map Prog supers.now)) pairs.new) }
{
    for above in supers {
        add_of(receiver, number, above, pairs)?;
    }
    Ok(())
}

fn add_of(receiver: &Receiver, number: u32, above: &u32, pairs: &mut Pairs) -> M<()>
    requires receiver { IsReceiver receiver.now }
    requires there { number < length receiver.now.numbered.now.set.now }
    requires above { above.now < length receiver.now.numbered.now.set.now }
    ensures { OnOk result (AddsPairs pairs.old
        (pairs_in receiver.now.numbered.now.set.now number receiver.now.class (Prog above.now)) pairs.new) }
{
    let rows = &receiver.table[*above as usize];
    let class = ClassAbove {
        number: *above,
        is_known: receiver.is_above(*above),
        own: number,
        item: receiver.numbered.class_item(number),
    };
    add_rows(receiver, &class, rows.as_slice(), pairs)
}

/// Those of a class with the methods of one class above it.
fn add_rows(
    receiver: &Receiver,
    class: &ClassAbove,
    rows: &[InstanceMethod],
    pairs: &mut Pairs,
) -> M<()>
    requires receiver { IsReceiver receiver.now }
    requires above { IsClassAbove receiver.now class.now }
    requires rows { rows.now ≡ slice_index_or receiver.now.table.now class.now.number [] }
    ensures { OnOk result (AddsPairs pairs.old
        (filter_map (pair_with receiver.now.numbered.now.set.now class.now.own receiver.now.class)
        (filter (is_inheritable receiver.now.numbered.now.set.now) (map member_at rows.now))) pairs.new) }
{
    for row in rows {
        add_row(receiver, class, row, pairs)?;
    }
    Ok(())
}

/// That of a class with a method above it, if this may be inherited.
fn add_row(
    receiver: &Receiver,
    class: &ClassAbove,
    row: &InstanceMethod,
    pairs: &mut Pairs,
) -> M<()>
    requires receiver { IsReceiver receiver.now }
    requires above { IsClassAbove receiver.now class.now }
    requires row { IsListed receiver.now.table.now class.now.number row.now }
    ensures { OnOk result (AddsPairs pairs.old
        (if is_inheritable receiver.now.numbered.now.set.now (member_at row.now)
        then cons_option (pair_with receiver.now.numbered.now.set.now class.now.own receiver.now.class
        (member_at row.now)) [] else []) pairs.new) }
{
    if is_hidden(row) {
        return Ok(());
    }
    pairs.add(pair_with(receiver, class, row))
}

/// Whether no other class has a method.
fn is_hidden(row: &InstanceMethod) -> bool
    ensures { result ≡ is_hidden row.now.openness }
{
    matches!(row.openness, Openness::Private)
}

/// What a class and a method above it need together: the method that runs where that one is called on an object of
/// the class, where it is another one of the program.
fn pair_with(receiver: &Receiver, class: &ClassAbove, row: &InstanceMethod) -> Option<Pair>
    requires receiver { IsReceiver receiver.now }
    requires above { IsClassAbove receiver.now class.now }
    requires row { IsListed receiver.now.table.now class.now.number row.now }
    ensures { result
        ≡ pair_with receiver.now.numbered.now.set.now class.now.own receiver.now.class (member_at row.now) }
{
    match receiver.known(class.number, class.is_known, row) {
        Some(found) => pair_of_rows(receiver, class, row, &found),
        None => pair_selected(receiver, class, row),
    }
}

/// The same with the method of another row.
fn pair_of_rows(
    receiver: &Receiver,
    class: &ClassAbove,
    row: &InstanceMethod,
    found: &InstanceMethod,
) -> Option<Pair>
    requires above { IsClassAbove receiver.now class.now }
    requires row { HasItem receiver.now.numbered.now.set.now row.now }
    requires found { HasItem receiver.now.numbered.now.set.now found.now }
    ensures { result
        ≡ pair_of receiver.now.numbered.now.set.now (Prog class.now.own) (member_at row.now) (member_at found.now) }
{
    let _ = receiver;
    if is_same_row(found, row) {
        return None;
    }
    Some(Pair {
        one: class.item,
        two: row.item,
        derived: found.item,
    })
}

fn is_same_row(one: &InstanceMethod, other: &InstanceMethod) -> bool
    ensures { result ≡ same_member (member_at one.now) (member_at other.now) }
{
    one.class == other.class && one.index == other.index
}

/// The same with the method that is found by its name and descriptor.
fn pair_selected(receiver: &Receiver, class: &ClassAbove, row: &InstanceMethod) -> Option<Pair>
    requires receiver { IsReceiver receiver.now }
    requires above { IsClassAbove receiver.now class.now }
    requires row { IsListed receiver.now.table.now class.now.number row.now }
    ensures { result
        ≡ pair_with receiver.now.numbered.now.set.now class.now.own receiver.now.class (member_at row.now) }
{
    match &receiver.selected(class.number, row) {
        Some(selected) => pair_of(receiver.numbered, class.own, &member_of(row), selected),
        None => None,
    }
}

fn pair_of(numbered: &Numbered, number: u32, m: &MemberAt, selected: &MemberAt) -> Option<Pair>
    requires there { number < length numbered.now.set.now }
    requires member { IsMember numbered.now.set.now m.now }
    requires selected { IsMember numbered.now.set.now selected.now }
    ensures { result ≡ pair_of numbered.now.set.now (Prog number) m.now selected.now }
{
    if is_same_member(selected, m) {
        return None;
    }
    let two = numbered.item_of(*m)?;
    let derived = numbered.item_of(*selected)?;
    let one = numbered.class_item(number);
    Some(Pair { one, two, derived })
}
