// The types that rules name (JVMS 4.10.1.9).
ghost use Rattle.std.specs.Prelude.{◌≡◌, IfOk, codes};
ghost use Rattle.jv_base.specs.declared.types.Base.TheVariants as base;
ghost use Rattle.type_verifier.specs.Assignable.{class_type};
ghost use Rattle.type_verifier.specs.bodies.Known.{objects};
ghost use Rattle.type_verifier.specs.Rules.{array_of_base, class_of, object, string, throwable};

use class_model::VType;
use jv_base::{Base, FieldType, M, Name};
use std::alloc::Global;
use std::marker::Model;

/// Types that are made once. They are the same in each value, so contracts see nothing of it but what its calls give.
#[derive(Drop)]
pub(crate) struct Known {
    object: VType,
    string: VType,
    throwable: VType,
    objects: VType,
    ints: VType,
    longs: VType,
    chars: VType,
    shorts: VType,
}

impl Model for Known {
    ghost use Rattle.std.specs.Prelude.{ℕ};
    ghost use Rattle.type_verifier.specs.bodies.Known.{AreKnown};

    ghost Value = { ℕ };

    ghost view = { λ k. 0 };

    ghost invariant = { λ k. AreKnown k.object k.string k.throwable k.objects k.ints k.longs k.chars k.shorts };
}

impl Known {
    pub(crate) fn new(alloc: Global) -> M<Self> {
        let object = Name::from_str(alloc, "java/lang/Object")?;
        let string = Name::from_str(alloc, "java/lang/String")?;
        let throwable = Name::from_str(alloc, "java/lang/Throwable")?;
        let element = object.clone()?;
        Ok(Known {
            object: class_of(object),
            string: class_of(string),
            throwable: class_of(throwable),
            objects: array_of(Base::Class(element)),
            ints: array_of(Base::Int),
            longs: array_of(Base::Long),
            chars: array_of(Base::Char),
            shorts: array_of(Base::Short),
        })
    }

    /// java.lang.Object.
    pub(crate) fn object(&self) -> &VType
        ensures { result.now ≡ object }
    {
        &self.object
    }

    /// java.lang.String.
    pub(crate) fn string(&self) -> &VType
        ensures { result.now ≡ string }
    {
        &self.string
    }

    /// java.lang.Throwable.
    pub(crate) fn throwable(&self) -> &VType
        ensures { result.now ≡ throwable }
    {
        &self.throwable
    }

    /// java.lang.Object[].
    pub(crate) fn objects(&self) -> &VType
        ensures { result.now ≡ objects }
    {
        &self.objects
    }

    /// int[].
    pub(crate) fn ints(&self) -> &VType
        ensures { result.now ≡ array_of_base base.Int }
    {
        &self.ints
    }

    /// long[].
    pub(crate) fn longs(&self) -> &VType
        ensures { result.now ≡ array_of_base base.Long }
    {
        &self.longs
    }

    /// char[].
    pub(crate) fn chars(&self) -> &VType
        ensures { result.now ≡ array_of_base base.Char }
    {
        &self.chars
    }

    /// short[].
    pub(crate) fn shorts(&self) -> &VType
        ensures { result.now ≡ array_of_base base.Short }
    {
        &self.shorts
    }
}

fn class_of(name: Name) -> VType
    ensures { result ≡ class_of name }
{
    VType::Object(FieldType {
        dims: 0,
        base: Base::Class(name),
    })
}

fn array_of(base: Base) -> VType
    ensures { result ≡ array_of_base base }
{
    VType::Object(FieldType { dims: 1, base })
}
