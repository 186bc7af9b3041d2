// Classes of the output, compared with those of the input.
ghost use Rattle.std.specs.Prelude.{◌≡◌, ◌↔◌, IfOk, IsTrue, None, Some, length, map, slice_get};
ghost use Rattle.std.specs.List.{filter_map, zip};
ghost use Rattle.std.specs.Option.{option_and_then, option_copied};
ghost use Rattle.class_model.specs.declared.class.Field.{Field};
ghost use Rattle.class_model.specs.declared.class.Method.{Method};
ghost use Rattle.attribute_filter.specs.Filtered.{throws_kept};
ghost use Rattle.new_names.specs.NewNames.{names_of};
ghost use Rattle.pair_clauses.specs.Finding.{FirstUnlike};
ghost use Rattle.pair_clauses.specs.Members.{ClassDiffers, IsSameClass, IsSameField, IsSameMethod, LinedDiffers};
ghost use Rattle.pair_clauses.specs.Members.{MemberDiffers, MethodsDiffer, expected_fields, expected_methods, new_one};
ghost use Rattle.pair_clauses.specs.Members.{with_name};
ghost use Rattle.pair_clauses.specs.Places.{place_of_field, place_of_method};
ghost use Rattle.pair_clauses.specs.Shape.{number_of};

use crate::place::{Place, class_place, field_place, method_place};
use attribute_filter::AttributeFilter;
use class_model::{Class, Constant, Field, Method};
use class_pool::{ClassId, ClassSet};
use jv_base::{Items, M, Name};
use new_names::{
    ClassNames, NewNames, are_mapped_classes, is_mapped_class, is_mapped_method_type,
    is_mapped_type,
};
use std::alloc::Global;

/// The first place of MemberDiffers.
pub fn member_differs(
    alloc: Global,
    names: &NewNames<'_>,
    filter: &AttributeFilter,
    input: &ClassSet,
    given: &[ClassNames],
    output: &ClassSet,
) -> M<Option<Place>>
    ensures { IfOk result (MemberDiffers names.now filter.now input.now given.now output.now) }
{
    for number in 0..input.len() {
        let Some(new) = given.get(number as usize) else {
            return Ok(None);
        };
        let found = lined_differs(alloc, names, filter, input.class(number), new, output)?;
        if found.is_some() {
            return Ok(found);
        }
    }
    Ok(None)
}

/// A class with its line, if it has one, and what it has become.
fn lined_differs(
    alloc: Global,
    names: &NewNames<'_>,
    filter: &AttributeFilter,
    class: &Class,
    given: &ClassNames,
    output: &ClassSet,
) -> M<Option<Place>>
    ensures { IfOk result (LinedDiffers names.now filter.now class.now given.now (new_one output.now given.now)) }
{
    match new_one(output, given) {
        Some(out) => class_differs(alloc, names, filter, class, given, out),
        None => Ok(None),
    }
}

/// What a class has become, if it has a line.
pub fn new_one<'a>(output: &'a ClassSet, given: &ClassNames) -> Option<&'a Class>
    ensures { option_copied result ≡ new_one output.now given.now }
{
    match &given.class {
        Some(name) => class_of(output, name),
        None => None,
    }
}

/// The class of a set with a name.
fn class_of<'a>(set: &'a ClassSet, name: &Name) -> Option<&'a Class>
    ensures { option_copied result ≡ option_and_then (slice_get set.now) (number_of set.now name.now) }
{
    match set.find(name) {
        Some(ClassId::Prog(number)) => Some(set.class(number)),
        _ => None,
    }
}

fn class_differs(
    alloc: Global,
    names: &NewNames<'_>,
    filter: &AttributeFilter,
    class: &Class,
    given: &ClassNames,
    out: &Class,
) -> M<Option<Place>>
    ensures { IfOk result (ClassDiffers names.now filter.now class.now
        (expected_fields class.now given.now) (expected_methods class.now given.now) out.now) }
{
    if !is_same_class(names, class, out) {
        return Ok(Some(class_place(alloc, &class.name)?));
    }
    let fields = compare_fields(alloc, names, class, &given.fields, &out.fields)?;
    if fields.found.is_some() {
        return Ok(fields.found);
    }
    methods_differ(alloc, names, filter, class, given, fields.count, out)
}

/// The methods of a class, and whether what it has become has further members, where so many fields are expected.
fn methods_differ(
    alloc: Global,
    names: &NewNames<'_>,
    filter: &AttributeFilter,
    class: &Class,
    given: &ClassNames,
    fields: usize,
    out: &Class,
) -> M<Option<Place>>
    requires { fields ≡ length (expected_fields class.now given.now) }
    ensures { IfOk result (MethodsDiffer names.now filter.now class.now
        (expected_fields class.now given.now) (expected_methods class.now given.now) out.now) }
{
    let methods = compare_methods(alloc, names, filter, class, &given.methods, &out.methods)?;
    if methods.found.is_some() {
        return Ok(methods.found);
    }
    if fields < out.fields.len() || methods.count < out.methods.len() {
        return Ok(Some(class_place(alloc, &class.name)?));
    }
    Ok(None)
}

/// The flags and the supertypes of a class are those of another one under new names.
fn is_same_class(names: &NewNames<'_>, class: &Class, out: &Class) -> bool
    ensures { IsTrue result ↔ IsSameClass names.now class.now out.now }
{
    class.flags == out.flags
        && is_mapped_class(names, &class.super_name, &out.super_name)
        && are_mapped_classes(
            names,
            class.interfaces.as_slice(),
            out.interfaces.as_slice(),
        )
}

/// The first place where members differ, or how many are alike.
#[derive(Drop)]
pub(crate) struct Compared {
    pub(crate) found: Option<Place>,
    pub(crate) count: usize,
}

/// Fields with their new names, where they have one, and the fields of the output.
fn compare_fields(
    alloc: Global,
    names: &NewNames<'_>,
    class: &Class,
    new: &Items<Option<Name>>,
    outs: &Items<Field>,
) -> M<Compared>
    ensures found { IfOk result (λ compared. FirstUnlike (IsSameField names.now)
        (λ e. place_of_field class.now e.0) (filter_map with_name (zip class.now.fields new.now)) outs.now
        compared.found) }
    ensures count { IfOk result (λ compared. compared.found ≡ None
        → compared.count ≡ length (filter_map with_name (zip class.now.fields new.now))) }
{
    let mut count = 0;
    for index in 0..class.fields.len() {
        let Some(given) = new.get(index) else {
            return Ok(Compared { found: None, count });
        };
        let field = &class.fields[index];
        if let Some(name) = given {
            if !is_same_field(names, field, name, outs.get(count)) {
                let found = Some(field_place(alloc, &class.name, &field.ty, &field.name)?);
                return Ok(Compared { found, count });
            }
            count += 1;
        }
    }
    Ok(Compared { found: None, count })
}

/// A field with its new name is one of the output, if there is one.
fn is_same_field(names: &NewNames<'_>, field: &Field, name: &Name, out: Option<&Field>) -> bool
    ensures { IsTrue result ↔ ((o : Field) × (option_copied out.entry ≡ Some o)
        × IsSameField names.now (field.now, name.now) o) }
{
    let Some(out) = out else {
        return false;
    };
    field.flags == out.flags
        && *name == out.name
        && is_mapped_type(names, &field.ty, &out.ty)
        && is_same_constant(&field.constant, &out.constant)
}

fn is_same_constant(constant: &Option<Constant>, other: &Option<Constant>) -> bool
    ensures { IsTrue result ↔ (constant.now ≡ other.now) }
{
    match (constant, other) {
        (Some(constant), Some(other)) => is_same_value(constant, other),
        (None, None) => true,
        _ => false,
    }
}

fn is_same_value(constant: &Constant, other: &Constant) -> bool
    ensures { IsTrue result ↔ (constant.now ≡ other.now) }
{
    match (constant, other) {
        (Constant::Int(one), Constant::Int(two)) => *one == *two,
        (Constant::Long(one), Constant::Long(two)) => *one == *two,
        (Constant::Text(one), Constant::Text(two)) => **one == **two,
        _ => false,
    }
}

/// Methods with their new names, where they have one, and the methods of the output.
fn compare_methods(
    alloc: Global,
    names: &NewNames<'_>,
    filter: &AttributeFilter,
    class: &Class,
    new: &Items<Option<Name>>,
    outs: &Items<Method>,
) -> M<Compared>
    ensures found { IfOk result (λ compared. FirstUnlike (IsSameMethod names.now filter.now)
        (λ e. place_of_method class.now e.0) (filter_map with_name (zip class.now.methods new.now)) outs.now
        compared.found) }
    ensures count { IfOk result (λ compared. compared.found ≡ None
        → compared.count ≡ length (filter_map with_name (zip class.now.methods new.now))) }
{
    let mut count = 0;
    for index in 0..class.methods.len() {
        let Some(given) = new.get(index) else {
            return Ok(Compared { found: None, count });
        };
        let method = &class.methods[index];
        if let Some(name) = given {
            if !is_same_method(names, filter, method, name, outs.get(count)) {
                let found = Some(method_place(alloc, &class.name, &method.ty, &method.name)?);
                return Ok(Compared { found, count });
            }
            count += 1;
        }
    }
    Ok(Compared { found: None, count })
}

/// A method with its new name is one of the output, if there is one, but for its code.
fn is_same_method(
    names: &NewNames<'_>,
    filter: &AttributeFilter,
    method: &Method,
    name: &Name,
    out: Option<&Method>,
) -> bool
    ensures { IsTrue result ↔ ((o : Method) × (option_copied out.entry ≡ Some o)
        × IsSameMethod names.now filter.now (method.now, name.now) o) }
{
    let Some(out) = out else {
        return false;
    };
    method.flags == out.flags
        && *name == out.name
        && is_mapped_method_type(names, &method.ty, &out.ty)
        && method.code.is_some() == out.code.is_some()
        && are_same_throws(
            names,
            filter,
            method.throws.as_slice(),
            out.throws.as_slice(),
        )
}

/// The classes that Exceptions names are those of the output, where it is kept; else that has none.
fn are_same_throws(
    names: &NewNames<'_>,
    filter: &AttributeFilter,
    throws: &[Name],
    out: &[Name],
) -> bool
    ensures { IsTrue result ↔ (map (names_of names.now).class (throws_kept filter.now throws.now) ≡ out.now) }
{
    if filter.exceptions {
        are_mapped_classes(names, throws, out)
    } else {
        out.is_empty()
    }
}
