// What a local variable, an operand stack, a field or a component of an array holds (JVMS 2.3, 2.4, 2.6).
ghost use Rattle.std.specs.Prelude.{◌≡◌, option_copied};
ghost use Rattle.jvm_model.specs.Types.{default_of};
ghost use Rattle.jvm_model.specs.Value as machine;
ghost use Rattle.run_values.specs.References.{number_of, text_of};

use class_model::Kind;
use jv_base::{Shared, Units};
use std::alloc::AllocError;
use std::marker::Model;

/// A value of the machine (JVMS 2.3, 2.4), which contracts see as such: an int, a long, null, an object by its number,
/// or the string of a literal.
#[derive(Drop)]
pub struct Value {
    content: Content,
}

#[derive(Drop)]
enum Content {
    Int(i32),
    Long(i64),
    Null,
    Ref(usize),
    Lit(Shared<Units>),
}

impl Model for Value {
    ghost use Rattle.jvm_model.specs.Value as machine;

    ghost Value = { machine.Value };

    ghost use Rattle.run_values.specs.bodies.Contents.{value_of};

    ghost view = { λ v. value_of v.content };
}

impl Value {
    /// An int, or a boolean, byte, char or short.
    pub fn int(number: i32) -> Self
        ensures { result ≡ machine.Int number }
    {
        Value {
            content: Content::Int(number),
        }
    }

    /// A long.
    pub fn long(number: i64) -> Self
        ensures { result ≡ machine.Long number }
    {
        Value {
            content: Content::Long(number),
        }
    }

    /// The null reference.
    pub fn null() -> Self
        ensures { result ≡ machine.Null }
    {
        Value {
            content: Content::Null,
        }
    }

    /// The reference to an object, by its number on the heap.
    pub fn reference(number: usize) -> Self
        ensures { result ≡ machine.Ref number }
    {
        Value {
            content: Content::Ref(number),
        }
    }

    /// The reference to the string of a literal, by its UTF-16 units (JVMS 5.1).
    pub fn literal(units: Shared<Units>) -> Self
        ensures { result ≡ machine.Lit units }
    {
        Value {
            content: Content::Lit(units),
        }
    }

    /// A truth value as an int (JVMS 2.3.4).
    pub fn truth(is_true: bool) -> Self
        ensures { result ≡ machine.truth is_true }
    {
        if is_true {
            Value::int(1)
        } else {
            Value::int(0)
        }
    }

    /// The value with which a variable begins: zero, or null (JVMS 2.3, 2.4).
    pub fn default_of(kind: Kind) -> Self
        ensures { result ≡ default_of kind }
    {
        match kind {
            Kind::Int => Value::int(0),
            Kind::Long => Value::long(0),
            Kind::Ref => Value::null(),
        }
    }

    /// Whether it is a reference (JVMS 2.4).
    pub fn is_reference(&self) -> bool
        ensures { result ≡ machine.is_reference self.now }
    {
        matches!(
            self.content,
            Content::Null | Content::Ref(_) | Content::Lit(_)
        )
    }

    /// Whether it takes two words (JVMS 2.11.1).
    pub fn is_wide(&self) -> bool
        ensures { result ≡ machine.is_wide self.now }
    {
        matches!(self.content, Content::Long(_))
    }

    /// Whether it is of a computational type (JVMS 2.11.1).
    pub fn is_of(&self, kind: Kind) -> bool
        ensures { result ≡ machine.is_of kind self.now }
    {
        match kind {
            Kind::Int => matches!(self.content, Content::Int(_)),
            Kind::Long => matches!(self.content, Content::Long(_)),
            Kind::Ref => self.is_reference(),
        }
    }

    /// Whether it is the null reference.
    pub fn is_null(&self) -> bool
        ensures { result ≡ machine.same_reference self.now machine.Null }
    {
        matches!(self.content, Content::Null)
    }

    /// The int, if it is one.
    pub fn as_int(&self) -> Option<i32>
        ensures { result ≡ machine.as_int self.now }
    {
        match self.content {
            Content::Int(number) => Some(number),
            _ => None,
        }
    }

    /// The long, if it is one.
    pub fn as_long(&self) -> Option<i64>
        ensures { result ≡ machine.as_long self.now }
    {
        match self.content {
            Content::Long(number) => Some(number),
            _ => None,
        }
    }

    /// The number of the object that it refers to, if it does.
    pub fn as_number(&self) -> Option<usize>
        ensures { result ≡ number_of self.now }
    {
        match self.content {
            Content::Ref(number) => Some(number),
            _ => None,
        }
    }

    /// The UTF-16 units of the literal that it refers to, if it does.
    pub fn as_text(&self) -> Option<&Units>
        ensures { option_copied result ≡ text_of self.now }
    {
        match &self.content {
            Content::Lit(units) => Some(&**units),
            _ => None,
        }
    }

    /// Whether two references are equal (JVMS 6.5.if_acmp_cond).
    pub fn is_same_reference(&self, other: &Value) -> bool
        ensures { result ≡ machine.same_reference self.now other.now }
    {
        match &self.content {
            Content::Null => other.is_null(),
            Content::Ref(number) =>
                matches!(other.content, Content::Ref(others) if *number == others),
            Content::Lit(units) => other.is_literal(units),
            _ => false,
        }
    }

    /// Whether it is the string of a literal with these units.
    fn is_literal(&self, units: &Shared<Units>) -> bool
        ensures { result ≡ machine.same_reference (machine.Lit units.now) self.now }
    {
        match &self.content {
            Content::Lit(others) => *units == *others,
            _ => false,
        }
    }
}

impl Clone for Value {
    ghost is_clone = { λ a b. b ≡ a };

    fn clone(&self) -> Result<Value, AllocError> {
        match &self.content {
            Content::Int(number) => Ok(Value::int(*number)),
            Content::Long(number) => Ok(Value::long(*number)),
            Content::Null => Ok(Value::null()),
            Content::Ref(number) => Ok(Value::reference(*number)),
            Content::Lit(units) => Ok(Value::literal(units.clone()?)),
        }
    }
}
