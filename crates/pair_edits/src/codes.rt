// Codes of the output, compared with those of the input after their edits.
ghost use Rattle.std.specs.Prelude.{◌≡◌, ◌↔◌, IfOk, IfSome, IsTrue, Some, map};
ghost use Rattle.std.specs.List.{filter_map, zip};
ghost use Rattle.std.specs.Option.{option_copied};
ghost use Rattle.class_model.specs.declared.class.Method.{Method};
ghost use Rattle.attribute_filter.specs.Filtered.{code_kept};
ghost use Rattle.code_edit.specs.SoundCode.{IsSound};
ghost use Rattle.pair_clauses.specs.Codes.{AreSameCodes, ClassCodeDiffers, CodeDiffers, IsSameBody};
ghost use Rattle.pair_clauses.specs.Finding.{FirstUnlike};
ghost use Rattle.pair_clauses.specs.Members.{expected_methods, new_one, with_name};
ghost use Rattle.pair_clauses.specs.Places.{place_of_method};
ghost use Rattle.pair_edits.specs.Entries.{edited_class, edited_method};
ghost use Rattle.pair_edits.specs.Sound.{AreSound, HasSoundCodes};

use crate::Entries;
use crate::after::{Edited, after_steps};
use attribute_filter::AttributeFilter;
use class_model::{Class, Method};
use class_pool::ClassSet;
use jv_base::{Items, M, Name, OutOfMemory};
use new_names::{ClassNames, NewNames};
use pair_clauses::{Place, has_same_code, method_place, new_one};
use std::alloc::Global;

/// The first place of CodeDiffers, behind `illegal_edit`, which has told acts that aren't legal. Each method is compared
/// by itself: of the codes after edits one stands at a time.
pub fn code_differs(
    alloc: Global,
    names: &NewNames<'_>,
    filter: &AttributeFilter,
    entries: &Entries<'_>,
    input: &ClassSet,
    given: &[ClassNames],
    output: &ClassSet,
) -> M<Option<Place>>
    requires sound { AreSound input.now }
    ensures { IfOk result (CodeDiffers names.now filter.now (map (edited_class entries.now) input.now) given.now
        output.now) }
{
    for number in 0..input.len() {
        let Some(new) = given.get(number as usize) else {
            return Ok(None);
        };
        let class = input.class(number);
        let found = class_code_differs(alloc, names, filter, entries, class, new, output)?;
        if found.is_some() {
            return Ok(found);
        }
    }
    Ok(None)
}

/// A class with its line, if it has one, and what it has become.
fn class_code_differs(
    alloc: Global,
    names: &NewNames<'_>,
    filter: &AttributeFilter,
    entries: &Entries<'_>,
    class: &Class,
    given: &ClassNames,
    output: &ClassSet,
) -> M<Option<Place>>
    requires sound { HasSoundCodes class.now }
    ensures { IfOk result (ClassCodeDiffers names.now filter.now (edited_class entries.now class.now)
        (expected_methods (edited_class entries.now class.now) given.now) (new_one output.now given.now)) }
{
    let Some(out) = new_one(output, given) else {
        return Ok(None);
    };
    body_differs(
        alloc,
        names,
        filter,
        entries,
        class,
        &given.methods,
        &out.methods,
    )
}

/// Methods with their new names, where they have one, and the methods of the output.
fn body_differs(
    alloc: Global,
    names: &NewNames<'_>,
    filter: &AttributeFilter,
    entries: &Entries<'_>,
    class: &Class,
    new: &Items<Option<Name>>,
    outs: &Items<Method>,
) -> M<Option<Place>>
    requires sound { HasSoundCodes class.now }
    ensures { IfOk result (FirstUnlike (IsSameBody names.now filter.now) (λ e. place_of_method class.now e.0)
        (filter_map with_name (zip (map (edited_method entries.now class.now) class.now.methods) new.now)) outs.now) }
{
    let mut count = 0;
    for index in 0..class.methods.len() {
        let Some(given) = new.get(index) else {
            return Ok(None);
        };
        let method = &class.methods[index];
        if given.is_some() {
            let same = is_same_body(
                alloc,
                names,
                filter,
                entries,
                class,
                method,
                outs.get(count),
            )?;
            if !same {
                let place = method_place(alloc, &class.name, &method.ty, &method.name)?;
                return Ok(Some(place));
            }
            count += 1;
        }
    }
    Ok(None)
}

/// A method of the output, if there is one, has the code of a method of the input after its edits. Where an act isn't
/// legal there is no such code to be made; that isn't asked here.
fn is_same_body(
    alloc: Global,
    names: &NewNames<'_>,
    filter: &AttributeFilter,
    entries: &Entries<'_>,
    class: &Class,
    method: &Method,
    out: Option<&Method>,
) -> M<bool>
    requires sound { IfSome method.now.code IsSound }
    ensures { IfOk result (λ same. IsTrue same ↔ ((o : Method) × (option_copied out.entry ≡ Some o)
        × AreSameCodes names.now
        (code_kept filter.now (edited_method entries.now class.now method.now).code) o.code)) }
{
    let Some(code) = &method.code else {
        return has_same_code(alloc, names, filter, &method.code, out);
    };
    let Some(entry) = entries.entry(alloc, class, method)? else {
        return has_same_code(alloc, names, filter, &method.code, out);
    };
    match after_steps(alloc, code, entry.edits.steps.as_slice())? {
        Edited::After(after) => has_same_code(alloc, names, filter, &Some(after), out),
        Edited::Own => has_same_code(alloc, names, filter, &method.code, out),
        Edited::Illegal => Err(OutOfMemory),
    }
}
