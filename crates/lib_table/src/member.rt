// The members of a class of the table.
ghost use Rattle.std.specs.Prelude.{◌≡◌, ◌<◌, ◌^◌, ◌&&◌, length, map, slice_get};
ghost use Rattle.std.specs.Bool.{beq};
ghost use Rattle.std.specs.List.{list_any};
ghost use Rattle.std.specs.Option.{option_and_then, option_map};
ghost use Rattle.jv_base.specs.Names.{is_text};
ghost use Rattle.jv_base.specs.Types.{method_text};
ghost use Rattle.lib_table.specs.Lookups.{are_same_methods, class_at, is_method, is_named, member_named, member_told};
ghost use Rattle.lib_table.specs.Lookups.{methods_told};
ghost use Rattle.lib_table.specs.bodies.Rows.{told_member};

use crate::LibId;
use crate::class::row;
use crate::descriptor::is_descriptor;
use crate::table::{ClassRow, MemberRow, classes};
use jv_base::{MethodType, Name, Text};

/// How a program may use a member of the library.
#[derive(Clone, Copy, PartialEq, Eq)]
pub enum Role {
    /// A program may name it.
    Callable,
    /// Nothing may name it; a program class may have a method that overrides it.
    KnownOnly,
    /// Nothing may name it, and no method of the program may override it.
    NoOverride,
}

/// What is told of a member of a class.
#[derive(Clone, Copy)]
pub struct LibMember {
    pub role: Role,
    /// Whether it is a method and not a field.
    pub is_method: bool,
    pub is_static: bool,
    /// Whether it is a constructor.
    pub is_init: bool,
    /// Its number among the members of its class, from 0.
    pub at: u32,
}

/// The member with a name and a descriptor (JVMS 4.3).
pub fn lib_member(id: LibId, name: &Name, ty: &Text) -> Option<LibMember>
    ensures { result ≡ member_named (class_at id).members name.now ty.now }
{
    row_of_member(row(id).members, name.as_str(), ty.as_str())
}

/// The member with a number.
pub fn lib_member_at(id: LibId, at: u32) -> Option<LibMember>
    ensures { result ≡ option_map (λ m. member_told (at, m)) (slice_get (class_at id).members at) }
{
    let member = row(id).members.get(at as usize)?;
    Some(told(at, member))
}

/// The member of a class with the name and the descriptor of another class's member, which is told
/// by its number.
pub fn lib_like(id: LibId, other: LibId, at: u32) -> Option<LibMember>
    ensures { result ≡ option_and_then (λ m. member_named (class_at id).members m.name m.descriptor)
        (slice_get (class_at other).members at) }
{
    let member = row(other).members.get(at as usize)?;
    row_of_member(row(id).members, member.name, member.descriptor)
}

/// The method with a number; only methods count, constructors among them, from 0.
pub fn lib_method(id: LibId, k: u32) -> Option<LibMember>
    ensures { result ≡ slice_get (methods_told (class_at id).members) k }
{
    row_of_method(row(id).members, k)
}

/// Whether the member with a number is a method of this name, with the descriptor of this type (JVMS 4.3.3).
pub fn lib_is(id: LibId, at: u32, name: &Name, ty: &MethodType) -> bool
    ensures { result ≡ is_method name.now (method_text ty.now) (slice_get (class_at id).members at) }
{
    match row(id).members.get(at as usize) {
        Some(member) => {
            member.is_method && member.name == name.as_str() && is_descriptor(member.descriptor, ty)
        }
        None => false,
    }
}

/// Whether the members with these numbers are methods of one name and one descriptor.
pub fn lib_same(a: LibId, at: u32, b: LibId, other: u32) -> bool
    ensures { result ≡ are_same_methods (slice_get (class_at a).members at) (slice_get (class_at b).members other) }
{
    match (
        row(a).members.get(at as usize),
        row(b).members.get(other as usize),
    ) {
        (Some(left), Some(right)) => {
            left.is_method
                && right.is_method
                && right.name == left.name
                && right.descriptor == left.descriptor
        }
        _ => false,
    }
}

/// Whether some class has a method of this name, or a field where `method` is false.
pub fn lib_named(name: &Name, method: bool) -> bool
    ensures { result ≡ is_named name.now method }
{
    some_has_named(classes(), name.as_str(), method)
}

fn some_has_named(rows: &[ClassRow], name: &str, method: bool) -> bool
    ensures { result ≡ list_any (λ row. list_any
        (λ m. beq m.is_method method && is_text m.name.now name.now) row.members.now) rows.now }
{
    rows.iter().any(|row| has_named(row.members, name, method))
}

fn has_named(members: &[MemberRow], name: &str, method: bool) -> bool
    ensures { result ≡ list_any (λ m. beq m.is_method method && is_text m.name.now name.now) members.now }
{
    members
        .iter()
        .any(|member| member.is_method == method && member.name == name)
}

fn row_of_member(members: &[MemberRow], name: &str, descriptor: &str) -> Option<LibMember>
    requires { length members.now < 2 ^ 32 }
    ensures { result ≡ member_named (map told_member members.now) name.now descriptor.now }
{
    let mut at = 0;
    for member in members {
        if member.name == name && member.descriptor == descriptor {
            return Some(told(at, member));
        }
        at += 1;
    }
    None
}

fn row_of_method(members: &[MemberRow], k: u32) -> Option<LibMember>
    requires { length members.now < 2 ^ 32 }
    ensures { result ≡ slice_get (methods_told (map told_member members.now)) k }
{
    let mut before = k;
    let mut at = 0;
    for member in members {
        if member.is_method {
            if before == 0 {
                return Some(told(at, member));
            }
            before -= 1;
        }
        at += 1;
    }
    None
}

fn told(at: u32, member: &MemberRow) -> LibMember
    ensures { result ≡ member_told (at, told_member member.now) }
{
    LibMember {
        role: member.role,
        is_method: member.is_method,
        is_static: member.is_static,
        is_init: member.name == "<init>",
        at,
    }
}
