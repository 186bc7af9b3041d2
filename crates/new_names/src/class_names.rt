// The new names of a class and of its members.
ghost use Rattle.std.specs.Prelude.{◌≡◌, IfOk, None, Some, map};
ghost use Rattle.std.specs.Map.{lookup};
ghost use Rattle.jv_base.specs.Types as descriptor;
ghost use Rattle.new_names.specs.NewNames.{field_in, is_same, method_in, names_given};

use crate::NewNames;
use crate::members::{MemberTable, fields_in, methods_in};
use class_model::{Class, Field, Method};
use jv_base::{Items, M, Name, Text, field_text, method_text};
use mapping_file::MapClass;
use std::alloc::Global;

/// The new names of a class and of its members, in their order; none of what has no line.
#[derive(Drop)]
pub struct ClassNames {
    pub class: Option<Name>,
    pub fields: Items<Option<Name>>,
    pub methods: Items<Option<Name>>,
}

/// The new names that a mapping gives to a class and to its members.
pub fn names_given(alloc: Global, names: &NewNames<'_>, class: &Class) -> M<ClassNames>
    ensures { IfOk result (λ given. given ≡ names_given names.now class.now) }
{
    match names.class_line(&class.name) {
        Some(line) => names_by(alloc, line, class),
        None => no_names(alloc, class),
    }
}

/// The new names by the line of the class.
fn names_by(alloc: Global, line: &MapClass, class: &Class) -> M<ClassNames>
    ensures { IfOk result (λ given. given ≡ record {
      class = Some line.now.new;
      fields = map (field_in line.now) class.now.fields;
      methods = map (method_in line.now) class.now.methods;
    }) }
{
    let fields = fields_by(alloc, line, class.fields.as_slice())?;
    let methods = methods_by(alloc, line, class.methods.as_slice())?;
    let new = line.new.clone()?;
    Ok(ClassNames {
        class: Some(new),
        fields,
        methods,
    })
}

fn fields_by(alloc: Global, line: &MapClass, fields: &[Field]) -> M<Items<Option<Name>>>
    ensures { IfOk result (λ names. names ≡ map (field_in line.now) fields.now) }
{
    let table = fields_in(alloc, line.fields.as_slice())?;
    let mut names = Items::new(alloc);
    for field in fields {
        names.push(field_name(alloc, &table, field)?)?;
    }
    Ok(names)
}

fn field_name(alloc: Global, table: &MemberTable, field: &Field) -> M<Option<Name>>
    ensures { IfOk result (λ name. name
        ≡ lookup (is_same (field.now.name, descriptor.field_text field.now.ty)) table.now) }
{
    member_name(table, &field.name, field_text(alloc, &field.ty)?)
}

fn methods_by(alloc: Global, line: &MapClass, methods: &[Method]) -> M<Items<Option<Name>>>
    ensures { IfOk result (λ names. names ≡ map (method_in line.now) methods.now) }
{
    let table = methods_in(alloc, line.methods.as_slice())?;
    let mut names = Items::new(alloc);
    for method in methods {
        names.push(method_name(alloc, &table, method)?)?;
    }
    Ok(names)
}

fn method_name(alloc: Global, table: &MemberTable, method: &Method) -> M<Option<Name>>
    ensures { IfOk result (λ name. name
        ≡ lookup (is_same (method.now.name, descriptor.method_text method.now.ty)) table.now) }
{
    member_name(table, &method.name, method_text(alloc, &method.ty)?)
}

fn member_name(table: &MemberTable, name: &Name, ty: Text) -> M<Option<Name>>
    ensures { IfOk result (λ found. found ≡ lookup (is_same (name.now, ty)) table.now) }
{
    let key = (name.clone()?, ty);
    match table.get(&key) {
        Some(new) => Ok(Some(new.clone()?)),
        None => Ok(None),
    }
}

/// No new names.
fn no_names(alloc: Global, class: &Class) -> M<ClassNames>
    ensures { IfOk result (λ given. given ≡ record {
      class = None;
      fields = map (λ f. None) class.now.fields;
      methods = map (λ m. None) class.now.methods;
    }) }
{
    let fields = no_fields(alloc, class.fields.as_slice())?;
    let methods = no_methods(alloc, class.methods.as_slice())?;
    Ok(ClassNames {
        class: None,
        fields,
        methods,
    })
}

fn no_fields(alloc: Global, fields: &[Field]) -> M<Items<Option<Name>>>
    ensures { IfOk result (λ names. names ≡ map (λ f. None) fields.now) }
{
    let mut names = Items::new(alloc);
    for field in fields {
        let _ = field;
        names.push(None)?;
    }
    Ok(names)
}

fn no_methods(alloc: Global, methods: &[Method]) -> M<Items<Option<Name>>>
    ensures { IfOk result (λ names. names ≡ map (λ m. None) methods.now) }
{
    let mut names = Items::new(alloc);
    for method in methods {
        let _ = method;
        names.push(None)?;
    }
    Ok(names)
}
