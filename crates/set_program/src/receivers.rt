// What calls run that select by the receiver, for the classes below those that the references name.
ghost use Rattle.std.specs.Prelude.{◌≡◌, IfOk, OnOk};
ghost use Rattle.class_pool.specs.Hierarchy.{IsClass};
ghost use Rattle.set_program.specs.bodies.Links.{AreLinks, IsSelectedRow};

use crate::links::{CallRow, Links, call_row};
use crate::marks::call_mark;
use crate::rows::{place_of, put_row};
use class_model::{Code, MemberRef, Op};
use class_pool::{ClassId, ClassSet};
use indexmap::IndexMap;
use jv_base::{Base, Items, M, Name, Shared};
use set_meanings::class_name;
use std::alloc::Global;

/// For so many classes of receivers, on average, it is kept what a call runs; for others it is found at each call, so
/// that the table stays linear in the size of the set.
pub(crate) const RECEIVERS: usize = 8;

/// The references of invokevirtual and invokeinterface, by the classes that they name.
#[derive(Drop)]
struct Callers {
    /// For the name of a class the number of its list.
    numbers: IndexMap<Name, usize>,
    lists: Vec<Items<Shared<MemberRef>>>,
}

/// What those of a set run on objects of classes, as long as no more than the limit were found.
pub(crate) fn link_receivers(
    alloc: Global,
    links: &mut Links,
    set: &ClassSet,
    names: &[Name],
    limit: usize,
) -> M<()>
    requires { AreLinks set.now links.old }
    ensures { OnOk result (AreLinks set.now links.new) }
{
    let callers = callers_of(alloc, set)?;
    let mut left = limit;
    for name in names {
        left = link_class(alloc, links, set, &callers, name, left)?;
    }
    Ok(())
}

fn callers_of(alloc: Global, set: &ClassSet) -> M<Callers> {
    let mut callers = Callers {
        numbers: IndexMap::new(alloc),
        lists: Vec::new(alloc),
    };
    for number in 0..set.len() {
        for method in set.class(number).methods.as_slice() {
            if let Some(code) = &method.code {
                note_code(alloc, &mut callers, code)?;
            }
        }
    }
    Ok(callers)
}

fn note_code(alloc: Global, callers: &mut Callers, code: &Code) -> M<()> {
    for ins in code.ins.as_slice() {
        match &ins.op {
            Op::InvokeVirtual(r) => note(alloc, callers, r)?,
            Op::InvokeInterface(r) => note(alloc, callers, r)?,
            _ => {}
        }
    }
    Ok(())
}

fn note(alloc: Global, callers: &mut Callers, r: &Shared<MemberRef>) -> M<()> {
    let Base::Class(name) = &r.class.base else {
        return Ok(());
    };
    let number = list_of(alloc, callers, name)?;
    if number < callers.lists.len() {
        callers.lists[number].push(r.clone()?)?;
    }
    Ok(())
}

/// The number of the list of a class, which is made where there is none.
fn list_of(alloc: Global, callers: &mut Callers, name: &Name) -> M<usize> {
    if let Some(number) = callers.numbers.get(name) {
        return Ok(*number);
    }
    let number = callers.lists.len();
    callers.numbers.insert(name.clone()?, number)?;
    callers.lists.push(Items::new(alloc))?;
    Ok(number)
}

/// The references that name a class.
fn callers_for<'a>(callers: &'a Callers, name: &Name) -> &'a [Shared<MemberRef>] {
    match callers.numbers.get(name) {
        Some(number) => match callers.lists.get(*number) {
            Some(list) => list.as_slice(),
            None => &[],
        },
        None => &[],
    }
}

/// What the references run that name the class or one above it; objects are of no interface.
fn link_class(
    alloc: Global,
    links: &mut Links,
    set: &ClassSet,
    callers: &Callers,
    name: &Name,
    left: usize,
) -> M<usize>
    requires { AreLinks set.now links.old }
    ensures { OnOk result (AreLinks set.now links.new) }
{
    let Some(id) = &set.find(name) else {
        return Ok(left);
    };
    if set.is_interface(*id) {
        return Ok(left);
    }
    let left = link_named(alloc, links, set, name, callers_for(callers, name), left)?;
    link_supers(alloc, links, set, callers, name, *id, left)
}

fn link_supers(
    alloc: Global,
    links: &mut Links,
    set: &ClassSet,
    callers: &Callers,
    name: &Name,
    id: ClassId,
    left: usize,
) -> M<usize>
    requires id { IsClass set.now id }
    requires links { AreLinks set.now links.old }
    ensures { OnOk result (AreLinks set.now links.new) }
{
    let mut left = left;
    let supers = set.supers(alloc, id)?;
    for above in supers.as_slice() {
        let above = class_name(alloc, set, *above)?;
        left = link_named(alloc, links, set, name, callers_for(callers, &above), left)?;
    }
    Ok(left)
}

fn link_named(
    alloc: Global,
    links: &mut Links,
    set: &ClassSet,
    class: &Name,
    references: &[Shared<MemberRef>],
    left: usize,
) -> M<usize>
    requires { AreLinks set.now links.old }
    ensures { OnOk result (AreLinks set.now links.new) }
{
    let mut left = left;
    for r in references {
        if left == 0 {
            return Ok(0);
        }
        left -= 1;
        link_selection(alloc, links, set, class, r)?;
    }
    Ok(left)
}

fn link_selection(
    alloc: Global,
    links: &mut Links,
    set: &ClassSet,
    class: &Name,
    r: &Shared<MemberRef>,
) -> M<()>
    requires { AreLinks set.now links.old }
    ensures { OnOk result (AreLinks set.now links.new) }
{
    if call_row(links.selections.as_slice(), class, r).is_some() {
        return Ok(());
    }
    let row = selected_row_of(alloc, set, class, r)?;
    keep_selection(links, set, row);
    Ok(())
}

fn selected_row_of(alloc: Global, set: &ClassSet, of: &Name, r: &Shared<MemberRef>) -> M<CallRow>
    ensures { IfOk result (IsSelectedRow set.now) }
{
    let target = set_meanings::selected_target(alloc, set, of, r)?;
    let reference = r.clone()?;
    let class = of.clone()?;
    Ok(CallRow {
        class,
        reference,
        target,
    })
}

fn keep_selection(links: &mut Links, set: &ClassSet, row: CallRow)
    requires row { IsSelectedRow set.now row }
    requires links { AreLinks set.now links.old }
    ensures { AreLinks set.now links.new }
{
    let place = place_of(
        call_mark(&row.class, &row.reference),
        links.selections.len(),
    );
    put_row(&mut links.selections, place, row);
}
