// Names that may not change, names that nothing else gets, and packages, which stay.
ghost use Rattle.std.specs.Prelude.{◌≡◌, IfOk, List, ℕ, Bool};
ghost use Rattle.std.specs.List.{zip};
ghost use Rattle.std.specs.Option.{option_copied};
ghost use Rattle.class_model.specs.declared.class.Class.{Class};
ghost use Rattle.keep_rules.specs.declared.rules.Rules.{Rules};
ghost use Rattle.class_pool.specs.Found.{package_of};
ghost use Rattle.fresh_names.specs.Fresh.{is_taken};
ghost use Rattle.rename_map.specs.Names.{AreFixed};
ghost use Rattle.pair_clauses.specs.Finding.{first_place};
ghost use Rattle.jv_base.specs.Types as descriptor;
ghost use Rattle.pair_clauses.specs.FixedNames.{field_fault, fixed_by, fixed_fault, fixed_in, is_among};
ghost use Rattle.pair_clauses.specs.FixedNames.{is_among_methods, is_moved};
ghost use Rattle.pair_clauses.specs.FixedNames.{is_misnamed, is_renamed, method_fault, moved_in, package_fault};
ghost use Rattle.pair_clauses.specs.bodies.FixedKinds.{fixed_among, fixed_kinds};

use crate::place::{Place, class_place, field_place, method_place};
use crate::seen::name_and_type;
use class_model::{Class, Method};
use class_pool::ClassSet;
use fresh_names::{TakenMethods, TakenNames, TakenSet};
use jv_base::{M, Name, method_text};
use new_names::ClassNames;
use std::alloc::Global;

/// The first place of FixedName, where these are the names that stay by the rules (`fixed_names` of `rename_map`): the
/// first item that has a line with another name though its own is fixed, or with a fixed name that isn't its own. Names
/// of methods are fixed for their descriptors.
pub fn fixed_fault(
    alloc: Global,
    fixed: &Option<TakenNames>,
    input: &ClassSet,
    given: &[ClassNames],
) -> M<Option<Place>>
    ensures { (rules : Rules) → AreFixed rules input.now fixed.now
        → IfOk result (λ found. found ≡ fixed_fault (fixed_by rules input.now) input.now given.now) }
{
    fixed_among(alloc, &kinds_of(fixed), input, given)
}

/// The names that stay, by their kind; none where each does.
#[derive(Clone, Copy)]
struct Kinds<'a> {
    classes: Option<&'a TakenSet>,
    fields: Option<&'a TakenSet>,
    methods: Option<&'a TakenMethods>,
}

fn kinds_of(fixed: &Option<TakenNames>) -> Kinds<'_>
    ensures { fixed_kinds result ≡ fixed_among fixed.now }
{
    match fixed {
        Some(taken) => Kinds {
            classes: Some(&taken.classes),
            fields: Some(&taken.fields),
            methods: Some(&taken.methods),
        },
        None => Kinds {
            classes: None,
            fields: None,
            methods: None,
        },
    }
}

fn fixed_among(
    alloc: Global,
    fixed: &Kinds<'_>,
    input: &ClassSet,
    given: &[ClassNames],
) -> M<Option<Place>>
    ensures { IfOk result (λ found. found ≡ fixed_fault (fixed_kinds fixed.now) input.now given.now) }
{
    for number in 0..input.len() {
        let Some(names) = given.get(number as usize) else {
            return Ok(None);
        };
        let found = fixed_in(alloc, fixed, input.class(number), names)?;
        if found.is_some() {
            return Ok(found);
        }
    }
    Ok(None)
}

fn fixed_in(alloc: Global, fixed: &Kinds<'_>, class: &Class, names: &ClassNames) -> M<Option<Place>>
    ensures { IfOk result (λ found. found ≡ fixed_in (fixed_kinds fixed.now) (class.now, names.now)) }
{
    if is_renamed(fixed.classes, &class.name, &names.class) {
        return Ok(Some(class_place(alloc, &class.name)?));
    }
    let found = fixed_field(alloc, fixed.fields, class, names.fields.as_slice())?;
    if found.is_some() {
        return Ok(found);
    }
    fixed_method(alloc, fixed.methods, class, names.methods.as_slice())
}

fn fixed_field(
    alloc: Global,
    fixed: Option<&TakenSet>,
    class: &Class,
    names: &[Option<Name>],
) -> M<Option<Place>>
    ensures { IfOk result (λ found. found
        ≡ first_place (field_fault (is_among (option_copied fixed.entry)) class.now) (zip class.now.fields names.now)) }
{
    for index in 0..class.fields.len() {
        let Some(new) = names.get(index) else {
            return Ok(None);
        };
        let field = &class.fields[index];
        if is_renamed(fixed, &field.name, new) {
            return Ok(Some(field_place(alloc, &class.name, &field.ty, &field.name)?));
        }
    }
    Ok(None)
}

fn fixed_method(
    alloc: Global,
    fixed: Option<&TakenMethods>,
    class: &Class,
    names: &[Option<Name>],
) -> M<Option<Place>>
    ensures { IfOk result (λ found. found
        ≡ first_place (method_fault (is_among_methods (option_copied fixed.entry)) class.now)
        (zip class.now.methods names.now)) }
{
    for index in 0..class.methods.len() {
        let Some(new) = names.get(index) else {
            return Ok(None);
        };
        let method = &class.methods[index];
        let is_wrong = is_method_renamed(alloc, fixed, method, new)?;
        if is_wrong {
            return Ok(Some(method_place(alloc, &class.name, &method.ty, &method.name)?));
        }
    }
    Ok(None)
}

/// The same of a method, by what is fixed for its descriptor.
fn is_method_renamed(
    alloc: Global,
    fixed: Option<&TakenMethods>,
    method: &Method,
    new: &Option<Name>,
) -> M<bool>
    ensures { IfOk result (λ is. is
        ≡ is_renamed (is_among_methods (option_copied fixed.entry) (descriptor.method_text method.now.ty))
        method.now.name new.now) }
{
    match new {
        Some(new) => is_method_misnamed(alloc, fixed, method, new),
        None => Ok(false),
    }
}

fn is_method_misnamed(
    alloc: Global,
    fixed: Option<&TakenMethods>,
    method: &Method,
    new: &Name,
) -> M<bool>
    ensures { IfOk result (λ is. is
        ≡ is_misnamed (is_among_methods (option_copied fixed.entry) (descriptor.method_text method.now.ty))
        method.now.name new.now) }
{
    let Some(fixed) = fixed else {
        return Ok(method.name != *new);
    };
    let ty = method_text(alloc, &method.ty)?;
    let old = name_and_type(&method.name, &ty)?;
    let named = name_and_type(new, &ty)?;
    if fixed.has(&old) {
        Ok(method.name != *new)
    } else {
        Ok(fixed.has(&named))
    }
}

/// A fixed name has another new one, or another name has one that is fixed.
fn is_renamed(fixed: Option<&TakenSet>, old: &Name, new: &Option<Name>) -> bool
    ensures { result ≡ is_renamed (is_among (option_copied fixed.entry)) old.now new.now }
{
    match new {
        Some(new) => is_misnamed(fixed, old, new),
        None => false,
    }
}

fn is_misnamed(fixed: Option<&TakenSet>, old: &Name, new: &Name) -> bool
    ensures { result ≡ is_misnamed (is_among (option_copied fixed.entry)) old.now new.now }
{
    if is_among(fixed, old) {
        *old != *new
    } else {
        is_among(fixed, new)
    }
}

/// A name is among those that stay; where none are given each one is.
fn is_among(fixed: Option<&TakenSet>, name: &Name) -> bool
    ensures { result ≡ is_among (option_copied fixed.entry) name.now }
{
    match fixed {
        Some(taken) => taken.has(name),
        None => true,
    }
}

/// The first place of Package: the first class that has a line to another package.
pub fn package_fault(alloc: Global, input: &ClassSet, given: &[ClassNames]) -> M<Option<Place>>
    ensures { IfOk result (λ found. found ≡ package_fault input.now given.now) }
{
    for number in 0..input.len() {
        let Some(names) = given.get(number as usize) else {
            return Ok(None);
        };
        let class = input.class(number);
        if is_moved(&class.name, &names.class) {
            return Ok(Some(class_place(alloc, &class.name)?));
        }
    }
    Ok(None)
}

fn is_moved(old: &Name, new: &Option<Name>) -> bool
    ensures { result ≡ is_moved old.now new.now }
{
    match new {
        Some(new) => package_of(old.as_bytes()) != package_of(new.as_bytes()),
        None => false,
    }
}

/// The name of a class without its last part: its package, of no bytes where that has no name.
fn package_of(name: &[u8]) -> &[u8]
    ensures { result.now ≡ package_of name.now }
{
    let mut end = name.len();
    while end > 0 && name[end - 1] != b'/' {
        end -= 1;
    }
    &name[..end.saturating_sub(1)]
}
