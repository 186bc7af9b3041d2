use jv_base::{Base, FieldType, Items, MethodType, Text};
use lib_table::{
    LibId, LibKind, LibMember, Role, lib_class, lib_interface, lib_is, lib_kind, lib_like,
    lib_member, lib_member_at, lib_method, lib_name, lib_named, lib_same, lib_super,
};
use std::alloc::{AllocError, Global};
use std::process::Abort;
use std::test::Fail;

fn class(rt: &impl Abort, alloc: Global, name: &str) -> Result<LibId, AllocError> {
    Ok(lib_class(&Text::from_str(alloc, name)?).expect(rt, "a class of the table"))
}

fn member(
    alloc: Global,
    id: LibId,
    name: &str,
    descriptor: &str,
) -> Result<Option<LibMember>, AllocError> {
    let name = Text::from_str(alloc, name)?;
    let descriptor = Text::from_str(alloc, descriptor)?;
    Ok(lib_member(id, &name, &descriptor))
}

#[test]
fn a_class_has_its_kind_and_its_supertypes(rt: HostRuntime) -> Result<(), Fail> {
    let alloc = rt.alloc();
    let object = class(&rt, alloc, "java/lang/Object")?;
    let text = class(&rt, alloc, "java/lang/String")?;
    let comparable = class(&rt, alloc, "java/lang/Comparable")?;
    let serializable = class(&rt, alloc, "java/io/Serializable")?;
    assert!(rt; lib_super(object).is_none());
    assert!(rt; lib_super(text) == Some(object));
    assert!(rt; lib_super(comparable) == Some(object));
    assert!(rt; lib_interface(text, 0) == Some(comparable));
    assert!(rt; lib_interface(text, 2) == Some(serializable));
    assert!(rt; lib_interface(text, 3).is_none());
    assert!(rt; lib_kind(text) == LibKind::Final);
    assert!(rt; lib_kind(comparable) == LibKind::Interface);
    assert!(rt; lib_kind(object) == LibKind::Open);
    assert!(rt; lib_class(&Text::from_str(alloc, "java/lang/Integer")?).is_none());
    Ok(())
}

#[test]
fn a_member_has_its_role_and_its_number(rt: HostRuntime) -> Result<(), Fail> {
    let alloc = rt.alloc();
    let object = class(&rt, alloc, "java/lang/Object")?;
    let text = class(&rt, alloc, "java/lang/String")?;
    let system = class(&rt, alloc, "java/lang/System")?;
    let char_at = member(alloc, text, "charAt", "(I)C")?.expect(&rt, "charAt");
    assert!(rt; char_at.role == Role::Callable && char_at.at == 1 && !char_at.is_static);
    let value_of = member(alloc, text, "valueOf", "(Z)Ljava/lang/String;")?.expect(&rt, "valueOf");
    assert!(rt; value_of.is_static && value_of.at == 12);
    let hash = member(alloc, object, "hashCode", "()I")?.expect(&rt, "hashCode");
    assert!(rt; hash.role == Role::KnownOnly);
    let finalize = member(alloc, object, "finalize", "()V")?.expect(&rt, "finalize");
    assert!(rt; finalize.role == Role::NoOverride);
    let out = member(alloc, system, "out", "Ljava/io/PrintStream;")?.expect(&rt, "out");
    assert!(rt; out.is_static && !out.is_init);
    assert!(rt; lib_method(system, 0).is_none());
    let made = lib_method(object, 0).expect(&rt, "a constructor");
    assert!(rt; made.is_init && made.at == 0);
    assert!(rt; member(alloc, text, "charAt", "(J)C")?.is_none());
    Ok(())
}

#[test]
fn a_member_is_told_by_its_number(rt: HostRuntime) -> Result<(), Fail> {
    let alloc = rt.alloc();
    let system = class(&rt, alloc, "java/lang/System")?;
    let text = class(&rt, alloc, "java/lang/String")?;
    assert!(rt; lib_name(system) == "java/lang/System");
    let out = lib_member_at(system, 0).expect(&rt, "out");
    assert!(rt; !out.is_method && out.is_static && out.at == 0);
    let value_of = lib_member_at(text, 12).expect(&rt, "valueOf");
    assert!(rt; value_of.is_method && value_of.is_static);
    assert!(rt; lib_member_at(text, 13).is_none());
    Ok(())
}

#[test]
fn a_method_is_known_by_its_name_and_its_type(rt: HostRuntime) -> Result<(), Fail> {
    let alloc = rt.alloc();
    let text = class(&rt, alloc, "java/lang/String")?;
    let sequence = class(&rt, alloc, "java/lang/CharSequence")?;
    let mut args = Items::new(alloc);
    args.push(FieldType {
        dims: 0,
        base: Base::Int,
    })?;
    let ty = MethodType {
        args,
        ret: Some(FieldType {
            dims: 0,
            base: Base::Char,
        }),
    };
    let name = Text::from_str(alloc, "charAt")?;
    assert!(rt; lib_is(text, 1, &name, &ty));
    assert!(rt; !lib_is(text, 0, &name, &ty));
    assert!(rt; lib_same(text, 1, sequence, 1));
    assert!(rt; lib_like(sequence, text, 1).is_some_and(|member| member.at == 1));
    assert!(rt; lib_like(sequence, text, 2).is_none());
    assert!(rt; !lib_same(text, 1, sequence, 0));
    assert!(rt; lib_named(&name, true) && !lib_named(&name, false));
    Ok(())
}
