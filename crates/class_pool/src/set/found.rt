// What links ask of classes and members that were found (JVMS 4.1, 4.5, 4.6, 5.3).
ghost use Rattle.std.specs.Prelude.{◌≡◌, ◌<◌, ◌+◌, ◌++◌, IfSome, Some, false, if◌then◌else◌, length, map, slice_get};
ghost use Rattle.std.specs.Option.{option_map};
ghost use Rattle.class_model.specs.Flags.{acc_abstract, acc_public, acc_static, is_init};
ghost use Rattle.class_pool.specs.Found.{is_method_at, IsMember, declared_in, field_row, has_flag, library_row};
ghost use Rattle.class_pool.specs.Found.{method_row};
ghost use Rattle.class_pool.specs.Found.{is_abstract_member, is_final_member, is_instance_method, is_private_member};
ghost use Rattle.class_pool.specs.Found.{is_protected_member, is_public_member, is_static_member, named_at, name_of};
ghost use Rattle.class_pool.specs.Found.{role_at, row_at, same_package};
ghost use Rattle.class_pool.specs.Hierarchy.{IsClass, kind_in};
ghost use Rattle.class_pool.specs.bodies.ToldMembers.{facts_of};
ghost use Rattle.lib_table.specs.Lookups.{class_at};
ghost use Rattle.class_pool.specs.Resolution.{is_interface_in, is_public_class};

use crate::set::kind::kind_in;
use crate::set::package::package_of;
use crate::{ClassId, ClassSet, MemberAt};
use bitflags::Flags;
use class_model::{Class, Field, Method};
use jv_base::{Access, Name, Text};
use lib_table::{LibId, LibKind, Role, lib_kind, lib_member_at, lib_name};

/// What is told of a member.
#[derive(Clone, Copy)]
struct MemberFacts {
    flags: Access,
    is_method: bool,
    /// Whether it has the name of instance initialisation methods (JVMS 2.9).
    is_init: bool,
}

impl ClassSet {
    /// An interface, a final class, or neither (JVMS 4.1).
    pub fn kind(&self, id: ClassId) -> LibKind
        requires there { IsClass self.now id }
        ensures { result ≡ kind_in self.now id }
    {
        kind_in(&self.classes, id)
    }

    pub fn is_interface(&self, id: ClassId) -> bool
        requires there { IsClass self.now id }
        ensures { result ≡ is_interface_in self.now id }
    {
        matches!(self.kind(id), LibKind::Interface)
    }

    /// Whether a class is public (JVMS 4.1); those of the library are.
    pub fn is_public_class(&self, id: ClassId) -> bool
        requires there { IsClass self.now id }
        ensures { result ≡ is_public_class self.now id }
    {
        match id {
            ClassId::Prog(number) => self.class(number).flags.contains(Access::PUBLIC),
            ClassId::Lib(_) => true,
        }
    }

    /// Whether two classes are of one run-time package (JVMS 5.3).
    pub fn is_same_package(&self, a: ClassId, b: ClassId) -> bool
        requires one { IsClass self.now a }
        requires other { IsClass self.now b }
        ensures { result ≡ same_package self.now a b }
    {
        package_of(self.name(a)) == package_of(self.name(b))
    }

    fn name(&self, id: ClassId) -> &str
        requires there { IsClass self.now id }
        ensures { result.now ≡ name_of self.now id }
    {
        match id {
            ClassId::Prog(number) => self.class(number).name.as_str(),
            ClassId::Lib(id) => lib_name(id),
        }
    }

    /// The member that a class declares with a name and a descriptor (JVMS 4.3).
    pub fn declared_in(&self, id: ClassId, name: &Name, ty: &Text) -> Option<MemberAt>
        requires there { IsClass self.now id }
        ensures is { result ≡ declared_in self.now (name.now, ty.now) id }
        ensures there { IfSome result (IsMember self.now) }
    {
        let class = id;
        let index = self.declares(id, name, ty)?;
        Some(MemberAt { class, index })
    }

    /// How a program may use a member; one of its own it may name.
    pub fn role(&self, m: MemberAt) -> Role
        requires there { IsMember self.now m }
        ensures { result ≡ role_at m }
    {
        let class = m.class;
        match class {
            ClassId::Prog(_) => Role::Callable,
            ClassId::Lib(id) => match lib_member_at(id, m.index) {
                Some(member) => member.role,
                None => Role::Callable,
            },
        }
    }

    pub fn is_public_member(&self, m: MemberAt) -> bool
        requires there { IsMember self.now m }
        ensures { result ≡ is_public_member self.now m }
    {
        self.has_flag(m, Access::PUBLIC)
    }

    pub fn is_private_member(&self, m: MemberAt) -> bool
        requires there { IsMember self.now m }
        ensures { result ≡ is_private_member self.now m }
    {
        self.has_flag(m, Access::PRIVATE)
    }

    pub fn is_protected_member(&self, m: MemberAt) -> bool
        requires there { IsMember self.now m }
        ensures { result ≡ is_protected_member self.now m }
    {
        self.has_flag(m, Access::PROTECTED)
    }

    pub fn is_static_member(&self, m: MemberAt) -> bool
        requires there { IsMember self.now m }
        ensures { result ≡ is_static_member self.now m }
    {
        self.has_flag(m, Access::STATIC)
    }

    pub fn is_final_member(&self, m: MemberAt) -> bool
        requires there { IsMember self.now m }
        ensures { result ≡ is_final_member self.now m }
    {
        self.has_flag(m, Access::FINAL)
    }

    pub fn is_abstract_member(&self, m: MemberAt) -> bool
        requires there { IsMember self.now m }
        ensures { result ≡ is_abstract_member self.now m }
    {
        self.has_flag(m, Access::ABSTRACT)
    }

    /// Whether it is a method that is neither static nor an instance initialisation method
    /// (JVMS 2.9).
    pub fn is_instance_method(&self, m: MemberAt) -> bool
        requires there { IsMember self.now m }
        ensures { result ≡ is_instance_method self.now m }
    {
        let facts = self.facts_of(m);
        facts.is_method && !facts.flags.contains(Access::STATIC) && !facts.is_init
    }

    /// Whether it is a method and not a field.
    pub fn is_method(&self, m: MemberAt) -> bool
        requires there { IsMember self.now m }
        ensures { result ≡ is_method_at self.now m }
    {
        self.facts_of(m).is_method
    }

    /// Whether the member has the name of instance initialisation methods (JVMS 2.9).
    pub fn is_init_member(&self, m: MemberAt) -> bool
        requires there { IsMember self.now m }
        ensures { result ≡ is_init (named_at self.now m).0 }
    {
        self.facts_of(m).is_init
    }

    fn has_flag(&self, m: MemberAt, flag: Access) -> bool
        requires there { IsMember self.now m }
        ensures { result ≡ has_flag self.now flag.0 m }
    {
        self.facts_of(m).flags.contains(flag)
    }

    fn facts_of(&self, m: MemberAt) -> MemberFacts
        requires there { IsMember self.now m }
        ensures { option_map facts_of (row_at self.now m) ≡ Some result }
    {
        let class = m.class;
        match class {
            ClassId::Prog(number) => program_facts(self.class(number), m.index),
            ClassId::Lib(id) => library_facts(id, m.index),
        }
    }
}

fn program_facts(class: &Class, number: u32) -> MemberFacts
    requires { number < length class.now.fields + length class.now.methods }
    ensures { option_map facts_of (slice_get (map field_row class.now.fields
        ++ map method_row class.now.methods) number) ≡ Some result }
{
    let index = number as usize;
    let fields = class.fields.len();
    if index < fields {
        field_facts(&class.fields[index])
    } else {
        method_facts(&class.methods[index - fields])
    }
}

fn field_facts(field: &Field) -> MemberFacts
    ensures { result ≡ facts_of (field_row field.now) }
{
    MemberFacts {
        flags: field.flags,
        is_method: false,
        is_init: is_init(&field.name),
    }
}

fn method_facts(method: &Method) -> MemberFacts
    ensures { result ≡ facts_of (method_row method.now) }
{
    MemberFacts {
        flags: method.flags,
        is_method: true,
        is_init: is_init(&method.name),
    }
}

fn is_init(name: &Name) -> bool
    ensures { result ≡ is_init name.now }
{
    name.as_str() == "<init>"
}

fn library_facts(id: LibId, at: u32) -> MemberFacts
    requires { at < length (class_at id).members }
    ensures { option_map (λ m. facts_of (library_row (class_at id).kind m)) (slice_get (class_at id).members at)
        ≡ Some result }
{
    let Some(member) = lib_member_at(id, at) else {
        unreachable!()
    };
    let is_abstract = member.is_method && matches!(lib_kind(id), LibKind::Interface);
    MemberFacts {
        flags: library_flags(member.is_static, is_abstract),
        is_method: member.is_method,
        is_init: member.is_init,
    }
}

/// A member of the library is public and not final.
fn library_flags(is_static: bool, is_abstract: bool) -> Access
    ensures { result.0 ≡ acc_public + (if is_static then acc_static else 0) +
        (if is_abstract then acc_abstract else 0) }
{
    let mut flags = Access::PUBLIC;
    if is_static {
        flags.insert(Access::STATIC);
    }
    if is_abstract {
        flags.insert(Access::ABSTRACT);
    }
    flags
}
