ghost use Rattle.std.specs.Prelude.{◌≡◌, ◌+◌, ◌<◌, length, IfOk};

use class_model::{Class, Field, Method};
use jv_base::{Access, Base, FieldType, Items, M, MethodType, Text};
use report_text::{class_text, member_text};
use std::alloc::Global;
use std::test::Fail;

fn int() -> FieldType {
    FieldType {
        dims: 0,
        base: Base::Int,
    }
}

fn strings(alloc: Global) -> M<FieldType> {
    Ok(FieldType {
        dims: 1,
        base: Base::Class(Text::from_str(alloc, "java/lang/String")?),
    })
}

fn field(alloc: Global, ty: FieldType, name: &str) -> M<Field> {
    Ok(Field {
        flags: Access(0),
        name: Text::from_str(alloc, name)?,
        ty,
        constant: None,
        synthetic: false,
        deprecated: false,
    })
}

fn method(alloc: Global, ret: Option<FieldType>, name: &str, args: Items<FieldType>) -> M<Method> {
    Ok(Method {
        flags: Access::ABSTRACT,
        name: Text::from_str(alloc, name)?,
        ty: MethodType { args, ret },
        code: None,
        throws: Items::new(alloc),
        synthetic: false,
        deprecated: false,
    })
}

fn fields(alloc: Global) -> M<Items<Field>>
    ensures { IfOk result (λ fields. length fields ≡ 2) }
{
    let mut fields = Items::new(alloc);
    fields.push(field(alloc, int(), "x")?)?;
    fields.push(field(alloc, strings(alloc)?, "names")?)?;
    Ok(fields)
}

fn one(ty: FieldType, alloc: Global) -> M<Items<FieldType>> {
    let mut types = Items::new(alloc);
    types.push(ty)?;
    Ok(types)
}

fn methods(alloc: Global) -> M<Items<Method>>
    ensures { IfOk result (λ methods. length methods ≡ 4) }
{
    let mut methods = Items::new(alloc);
    let number = one(int(), alloc)?;
    methods.push(method(alloc, None, "<init>", number)?)?;
    let words = one(strings(alloc)?, alloc)?;
    methods.push(method(alloc, None, "main", words)?)?;
    let mut both = one(int(), alloc)?;
    both.push(int())?;
    methods.push(method(alloc, Some(int()), "f", both)?)?;
    methods.push(method(alloc, Some(strings(alloc)?), "g", Items::new(alloc))?)?;
    Ok(methods)
}

fn class(alloc: Global, name: &str) -> M<Class>
    ensures { IfOk result (λ c. (length c.fields ≡ 2) × (length c.methods ≡ 4)) }
{
    Ok(Class {
        flags: Access::ABSTRACT,
        name: Text::from_str(alloc, name)?,
        super_name: Text::from_str(alloc, "java/lang/Object")?,
        interfaces: Items::new(alloc),
        fields: fields(alloc)?,
        methods: methods(alloc)?,
        source: None,
        synthetic: false,
        deprecated: false,
        left_out: None,
    })
}

fn is_member(alloc: Global, class: &Class, member: u32, wanted: &str) -> M<bool>
    requires { member < length class.now.fields + length class.now.methods }
{
    Ok(member_text(alloc, class, member)?.as_str() == wanted)
}

fn is_class(alloc: Global, name: &str, wanted: &str) -> M<bool> {
    Ok(class_text(alloc, &class(alloc, name)?)?.as_str() == wanted)
}

#[test]
fn a_class_is_told_by_its_name_with_dots(rt: HostRuntime) -> Result<(), Fail> {
    let alloc = rt.alloc();
    assert!(rt; is_class(alloc, "demo/Main", "demo.Main")?);
    assert!(rt; is_class(alloc, "java/lang/String", "java.lang.String")?);
    assert!(rt; is_class(alloc, "Main", "Main")?);
    Ok(())
}

// The members of the class in their order.
const MEMBERS: [&str; 6] = [
    "int x",
    "java.lang.String[] names",
    "void <init>(int)",
    "void main(java.lang.String[])",
    "int f(int,int)",
    "java.lang.String[] g()",
];

fn are_members(alloc: Global, class: &Class) -> M<bool>
    requires { length class.now.fields + length class.now.methods ≡ 6 }
{
    for member in 0..6 {
        if !is_member(alloc, class, member, MEMBERS[member as usize])? {
            return Ok(false);
        }
    }
    Ok(true)
}

#[test]
fn a_member_is_told_by_its_types_and_its_name(rt: HostRuntime) -> Result<(), Fail> {
    let class = class(rt.alloc(), "demo/Main")?;
    assert!(rt; are_members(rt.alloc(), &class)?);
    Ok(())
}
