// Acts that aren't legal.
ghost use Rattle.std.specs.Prelude.{◌≡◌, ◌↔◌, IfOk, IfSome, IsTrue};
ghost use Rattle.code_edit.specs.SoundCode.{IsSound};
ghost use Rattle.pair_clauses.specs.Finding.{FirstOf};
ghost use Rattle.pair_edits.specs.Edits.{AreLegalOn, ClassEditIllegal};
ghost use Rattle.pair_edits.specs.Entries.{steps_of};
ghost use Rattle.pair_edits.specs.Sound.{AreSound, HasSoundCodes};

use crate::Entries;
use crate::after::{Edited, after_steps};
use class_model::{Class, Method};
use class_pool::ClassSet;
use jv_base::M;
use pair_clauses::{Place, method_place};
use std::alloc::Global;

/// The first place of EditIllegal. A method without an entry costs a look-up.
pub fn illegal_edit(alloc: Global, entries: &Entries<'_>, input: &ClassSet) -> M<Option<Place>>
    requires sound { AreSound input.now }
    ensures { IfOk result (FirstOf (ClassEditIllegal entries.now) input.now) }
{
    for number in 0..input.len() {
        let found = illegal_in(alloc, entries, input.class(number))?;
        if found.is_some() {
            return Ok(found);
        }
    }
    Ok(None)
}

/// The first method of a class whose entry has an act that isn't legal.
fn illegal_in(alloc: Global, entries: &Entries<'_>, class: &Class) -> M<Option<Place>>
    requires sound { HasSoundCodes class.now }
    ensures { IfOk result (ClassEditIllegal entries.now class.now) }
{
    for method in class.methods.as_slice() {
        if !is_legal(alloc, entries, class, method)? {
            let place = method_place(alloc, &class.name, &method.ty, &method.name)?;
            return Ok(Some(place));
        }
    }
    Ok(None)
}

/// All acts of the entry of a method are legal, if it has one and a code.
fn is_legal(alloc: Global, entries: &Entries<'_>, class: &Class, method: &Method) -> M<bool>
    requires sound { IfSome method.now.code IsSound }
    ensures { IfOk result (λ legal. IsTrue legal
        ↔ AreLegalOn (steps_of entries.now class.now method.now) method.now.code) }
{
    let Some(code) = &method.code else {
        return Ok(true);
    };
    match entries.entry(alloc, class, method)? {
        Some(entry) => {
            let left = after_steps(alloc, code, entry.edits.steps.as_slice())?;
            Ok(!matches!(left, Edited::Illegal))
        }
        None => Ok(true),
    }
}
