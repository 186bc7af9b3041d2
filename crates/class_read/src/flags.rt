// Access flags (JVMS 4.1, 4.5, 4.6).
ghost use Rattle.std.specs.Prelude.{◌≡◌};
ghost use Rattle.format_reading.specs.Reader.{Reads};
ghost use Rattle.class_model.specs.Flags.{has, has_some, is_left_out_class, has_one_access, is_interface, is_static};
ghost use Rattle.class_model.specs.Flags.{is_native, has_body, are_class_flags, are_field_flags, are_method_flags};
ghost use Rattle.class_model.specs.Flags.{are_initial_flags, flags_of, defined_flags, class_mask, field_mask};
ghost use Rattle.class_model.specs.Flags.{method_mask};
ghost use Rattle.class_model.specs.ReadingMembers.{read_flags};

use crate::faults::fault;
use format_reading::{FormatFault, FormatKind};
use jv_base::{Access, Cursor};

const PUBLIC: u16 = 0x0001;

const PRIVATE: u16 = 0x0002;

const PROTECTED: u16 = 0x0004;

const STATIC: u16 = 0x0008;

const FINAL: u16 = 0x0010;

const SYNCHRONIZED: u16 = 0x0020;

const SUPER: u16 = 0x0020;

const VOLATILE: u16 = 0x0040;

const BRIDGE: u16 = 0x0040;

const TRANSIENT: u16 = 0x0080;

const VARARGS: u16 = 0x0080;

const NATIVE: u16 = 0x0100;

const INTERFACE: u16 = 0x0200;

const ABSTRACT: u16 = 0x0400;

const STRICT: u16 = 0x0800;

const SYNTHETIC: u16 = 0x1000;

const ANNOTATION: u16 = 0x2000;

const ENUM: u16 = 0x4000;

// Those that mean something on a class (JVMS 4.1, table 4.1-A).
const CLASS_MASK: u16 = PUBLIC
    | FINAL
    | SUPER
    | INTERFACE
    | ABSTRACT
    | SYNTHETIC
    | ANNOTATION
    | ENUM;

// On a field (JVMS 4.5, table 4.5-A).
const FIELD_MASK: u16 = PUBLIC
    | PRIVATE
    | PROTECTED
    | STATIC
    | FINAL
    | VOLATILE
    | TRANSIENT
    | SYNTHETIC
    | ENUM;

// On a method (JVMS 4.6, table 4.6-A).
const METHOD_MASK: u16 = PUBLIC
    | PRIVATE
    | PROTECTED
    | STATIC
    | FINAL
    | SYNCHRONIZED
    | BRIDGE
    | VARARGS
    | NATIVE
    | ABSTRACT
    | STRICT
    | SYNTHETIC;

fn has(wanted: u16, flags: u16) -> bool
    ensures { result ≡ has wanted flags }
{
    flags & wanted == wanted
}

fn has_some(wanted: u16, flags: u16) -> bool
    ensures { result ≡ has_some wanted flags }
{
    flags & wanted != 0
}

// Of public, private and protected at most one (JVMS 4.5, 4.6).
fn has_one_access(flags: u16) -> bool
    ensures { result ≡ has_one_access flags }
{
    let access = flags & (PUBLIC | PRIVATE | PROTECTED);
    access < 3 || access == PROTECTED
}

/// Whether they are those of an interface (JVMS 4.1).
pub fn is_interface(flags: u16) -> bool
    ensures { result ≡ is_interface flags }
{
    has(INTERFACE, flags)
}

/// Whether a field or a method is static (JVMS 4.5, 4.6).
pub fn is_static(flags: u16) -> bool
    ensures { result ≡ is_static flags }
{
    has(STATIC, flags)
}

/// Whether a method is native (JVMS 4.6).
pub fn is_native(flags: u16) -> bool
    ensures { result ≡ is_native flags }
{
    has(NATIVE, flags)
}

/// Whether a method has a code: it is neither abstract nor native (JVMS 4.7.3).
pub fn has_body(flags: u16) -> bool
    ensures { result ≡ has_body flags }
{
    !has_some(ABSTRACT | NATIVE, flags)
}

// A class isn't both final and abstract, and an interface is abstract (JVMS 4.1).
fn are_class_flags(flags: u16) -> bool
    ensures { result ≡ are_class_flags flags }
{
    !has(FINAL | ABSTRACT, flags) && (!has(INTERFACE, flags) || has(ABSTRACT, flags))
}

/// Whether a class is an annotation or an enum, which are left out (JVMS 4.1).
pub fn is_left_out_class(flags: u16) -> bool
    ensures { result ≡ is_left_out_class flags }
{
    has_some(ANNOTATION | ENUM, flags)
}

// A field isn't both final and volatile, and one of an interface is public, static and final (JVMS 4.5).
fn are_field_flags(in_interface: bool, flags: u16) -> bool
    ensures { result ≡ are_field_flags in_interface flags }
{
    has_one_access(flags)
        && !has(FINAL | VOLATILE, flags)
        && (!in_interface || has(PUBLIC | STATIC | FINAL, flags))
}

// An abstract method is neither private, static, final, synchronized, native nor strict (JVMS 4.6).
fn are_method_flags(flags: u16) -> bool
    ensures { result ≡ are_method_flags flags }
{
    has_one_access(flags)
        && (!has(ABSTRACT, flags)
            || !has_some(
                PRIVATE | STATIC | FINAL | SYNCHRONIZED | NATIVE | STRICT,
                flags,
            ))
}

/// Whether an initialisation method may have these flags: an instance initialisation method stands in no
/// interface and is neither static, final, synchronized, native nor abstract, and a class initialisation
/// method is static (JVMS 2.9, 4.6).
pub fn are_initial_flags(in_interface: bool, flags: u16, name: &str) -> bool
    ensures { result ≡ are_initial_flags in_interface flags name.now }
{
    let may_be_init = !in_interface
        && !has_some(STATIC | FINAL | SYNCHRONIZED | NATIVE | ABSTRACT, flags);
    (name != "<init>" || may_be_init) && (name != "<clinit>" || is_static(flags))
}

/// The flags of a class.
pub fn read_class_flags(cursor: &mut Cursor) -> Result<u16, FormatFault>
    ensures { Reads result cursor.new (read_flags are_class_flags cursor.old) }
{
    let at = cursor.place();
    let flags = cursor.u2()?;
    if are_class_flags(flags) {
        Ok(flags)
    } else {
        Err(fault(at, FormatKind::BadFlags))
    }
}

/// The flags of a field.
pub fn read_field_flags(in_interface: bool, cursor: &mut Cursor) -> Result<u16, FormatFault>
    ensures { Reads result cursor.new (read_flags (are_field_flags in_interface) cursor.old) }
{
    let at = cursor.place();
    let flags = cursor.u2()?;
    if are_field_flags(in_interface, flags) {
        Ok(flags)
    } else {
        Err(fault(at, FormatKind::BadFlags))
    }
}

/// The flags of a method.
pub fn read_method_flags(cursor: &mut Cursor) -> Result<u16, FormatFault>
    ensures { Reads result cursor.new (read_flags are_method_flags cursor.old) }
{
    let at = cursor.place();
    let flags = cursor.u2()?;
    if are_method_flags(flags) {
        Ok(flags)
    } else {
        Err(fault(at, FormatKind::BadFlags))
    }
}

/// The flags that mean something on a class.
pub fn class_access(flags: u16) -> Access
    ensures { result ≡ flags_of (defined_flags class_mask flags) }
{
    Access(flags & CLASS_MASK)
}

/// The flags that mean something on a field.
pub fn field_access(flags: u16) -> Access
    ensures { result ≡ flags_of (defined_flags field_mask flags) }
{
    Access(flags & FIELD_MASK)
}

/// The flags that mean something on a method.
pub fn method_access(flags: u16) -> Access
    ensures { result ≡ flags_of (defined_flags method_mask flags) }
{
    Access(flags & METHOD_MASK)
}
