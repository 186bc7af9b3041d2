// What a mapping tells of the names in a trace.
ghost use Rattle.std.specs.Prelude.{◌≡◌, ℕ, List, [], ◌∷◌, ◌++◌, Some, if◌then◌else◌, IfOk, OnOk};
ghost use Rattle.jv_base.specs.Names.{is_text};
ghost use Rattle.std.specs.Option.{option_copied, option_map};
ghost use Rattle.jv_base.specs.External.{dotted};
ghost use Rattle.mapping_file.specs.declared.mapping.MapClass.{MapClass};
ghost use Rattle.retrace_core.specs.OldNames.{class_named, outer_length, outermost, simple_name, source_of};
ghost use Rattle.retrace_core.specs.bodies.Linked.{kept_in};
ghost use Rattle.retrace_core.specs.bodies.Tables.{TellsClass, TellsClasses};

use crate::cutting::{last_place_of, place_of};
use crate::tables::OldMethods;
use jv_base::{M, Name};
use mapping_file::{MapClass, Mapping};
use std::alloc::Global;
use std::collections::BTreeMap;
use text_lines::push_class;

/// A class by its old name.
#[derive(Drop)]
pub(crate) struct OldClass<'a> {
    /// Its name, with dots.
    pub(crate) old: Vec<u8>,
    /// The file that its source stands in.
    pub(crate) source: Vec<u8>,
    pub(crate) methods: OldMethods<'a>,
}

/// Classes by their new names, with dots.
pub(crate) type OldClasses<'a> = BTreeMap<Vec<u8>, OldClass<'a>>;

/// The classes of a mapping.
pub(crate) fn old_classes<'a>(alloc: Global, map: &'a Mapping) -> M<OldClasses<'a>>
    ensures { IfOk result (λ table. TellsClasses table map.now.classes) }
{
    let mut table = BTreeMap::new(alloc);
    for class in map.classes.as_slice() {
        put_class(alloc, &mut table, class)?;
    }
    Ok(table)
}

fn put_class<'a>(alloc: Global, table: &mut OldClasses<'a>, class: &'a MapClass) -> M<()>
    ensures { (before : List MapClass) → TellsClasses table.old before
        → OnOk result (TellsClasses table.new (before ++ class.now ∷ [])) }
{
    let new = dotted(alloc, &class.new)?;
    if class_named(table, &new).is_some() {
        return Ok(());
    }
    let kept = old_class(alloc, class)?;
    keep(table, new, kept)
}

fn keep<'a>(table: &mut OldClasses<'a>, new: Vec<u8>, kept: OldClass<'a>) -> M<()>
    ensures { OnOk result ((name : List ℕ) → kept_in (λ k. k.items) table.new.entries name
        ≡ (if is_text new.items name then Some kept.entry else kept_in (λ k. k.items) table.old.entries name)) }
{
    table.insert(new, kept)?;
    Ok(())
}

/// What is kept of the class with this new name, if there is one.
pub(crate) fn class_named<'t, 'a>(
    table: &'t OldClasses<'a>,
    name: &[u8],
) -> Option<&'t OldClass<'a>>
    ensures { option_copied result ≡ kept_in (λ k. k.items) table.now.entries name.now }
{
    table.get(name)
}

fn old_class<'a>(alloc: Global, class: &'a MapClass) -> M<OldClass<'a>>
    ensures { IfOk result (λ kept. TellsClass kept class.now) }
{
    let old = dotted(alloc, &class.old)?;
    let source = source_of(alloc, class.old.as_bytes())?;
    let methods = OldMethods::of(alloc, class.methods.as_slice())?;
    Ok(OldClass {
        old,
        source,
        methods,
    })
}

// A class's name with dots.
fn dotted(alloc: Global, name: &Name) -> M<Vec<u8>>
    ensures { IfOk result (λ text. text.items ≡ dotted name.now) }
{
    let mut text = Vec::new(alloc);
    push_class(&mut text, name)?;
    Ok(text)
}

// The source file of a class: as the outermost class is called.
#[tactic(auto, unfolding(crate::specs::OldNames::source_of))]
fn source_of(alloc: Global, name: &[u8]) -> M<Vec<u8>>
    ensures { IfOk result (λ source. source.items ≡ source_of name.now) }
{
    let mut source = outermost(simple_name(name)).to_vec(alloc)?;
    source.extend_from_slice(b".java")?;
    Ok(source)
}

fn simple_name(name: &[u8]) -> &[u8]
    ensures { result.now ≡ simple_name name.now }
{
    match last_place_of(b'/', name) {
        Some(slash) => &name[slash + 1..],
        None => name,
    }
}

// Up to the first `$`, which isn't the first character.
fn outermost(simple: &[u8]) -> &[u8]
    ensures { result.now ≡ outermost simple.now }
{
    let [_, rest @ ..] = simple else {
        return simple;
    };
    match place_of(b'$', rest) {
        Some(dollar) => &simple[..dollar + 1],
        None => simple,
    }
}
