// The limits of the format, in their order (JVMS 4.11).
ghost use Rattle.std.specs.Prelude.{◌≡◌, ℕ, List, All, Some, IfSome};
ghost use Rattle.class_model.specs.declared.class.Method.{Method};
ghost use Rattle.class_model.specs.declared.frame.VType.{VType};
ghost use Rattle.class_model.specs.WellFormed.{IsGoodCode};
ghost use Rattle.class_model.specs.WriteLimits.{first_of, table_fits, body_tables_fit, method_tables_fit, tables_fit};

use crate::contents::frames_are_short;
use crate::lines::line_count;
use class_model::{Class, Code, Method, WriteLimit};

// ---- tables with a count of two bytes

fn check_count(rows: usize) -> Result<(), WriteLimit>
    ensures { result ≡ table_fits rows }
{
    if rows < 65_536 {
        Ok(())
    } else {
        Err(WriteLimit::AttributeFull(rows as u64))
    }
}

/// Handlers, rows of lines, frames. What is in a frame is no more than its code has room for.
fn check_code(code: &Code) -> Result<(), WriteLimit>
    requires { IsGoodCode code.now }
    ensures { (first : List VType) → result ≡ body_tables_fit first (Some code.now) }
{
    frames_are_short(code, code.max_locals, code.max_stack);
    check_count(code.handlers.len())?;
    check_count(line_count(code.ins.as_slice()))?;
    check_count(code.frames.len())
}

fn check_body(code: &Option<Code>) -> Result<(), WriteLimit>
    requires { IfSome code.now IsGoodCode }
    ensures { (first : List VType) → result ≡ body_tables_fit first code.now }
{
    match code {
        Some(code) => check_code(code),
        None => Ok(()),
    }
}

/// The tables of a method's code, and then the classes of its Exceptions.
fn check_method(method: &Method) -> Result<(), WriteLimit>
    requires { IfSome method.now.code IsGoodCode }
    ensures { (class : List ℕ) → result ≡ method_tables_fit class method.now }
{
    check_body(&method.code)?;
    check_count(method.throws.len())
}

fn check_methods(methods: &[Method]) -> Result<(), WriteLimit>
    requires { All (λ (m : Method). IfSome m.code IsGoodCode) methods.now }
    ensures { (class : List ℕ) → result ≡ first_of (method_tables_fit class) methods.now }
{
    for method in methods {
        check_method(method)?;
    }
    Ok(())
}

/// Interfaces, fields, methods, and those in methods, in the order of the file.
pub fn check_tables(class: &Class) -> Result<(), WriteLimit>
    requires { All (λ (m : Method). IfSome m.code IsGoodCode) class.now.methods }
    ensures { result ≡ tables_fit class.now }
{
    check_count(class.interfaces.len())?;
    check_count(class.fields.len())?;
    check_count(class.methods.len())?;
    check_methods(class.methods.as_slice())
}
