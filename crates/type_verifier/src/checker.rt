// Codes that are checked one after another for one set (JVMS 4.10.1).
ghost use Rattle.std.specs.Prelude.{◌≡◌, ◌<◌, Ok, Some, IfOk, length, slice_get};
ghost use Rattle.jv_base.specs.Outcome.{IsDue};
ghost use Rattle.class_model.specs.declared.class.Class.{Class};
ghost use Rattle.type_verifier.specs.Verified.{IsTypedAt, JudgesMethod, environment};
ghost use Rattle.type_verifier.specs.WithCode.{set_with_code};
ghost use Rattle.type_verifier.specs.bodies.Steps.{AreSteps};
ghost use Rattle.type_verifier.specs.bodies.Walked.{code_checked};

use crate::TypeFault;
use crate::hierarchy::{Hierarchy, Step, steps_of};
use crate::known::Known;
use crate::verify::check_one;
use class_model::{Class, Code, Method};
use class_pool::ClassSet;
use jv_base::{M, Or};
use std::alloc::Global;
use std::marker::Model;

/// Checks codes as those of methods of one set, of which it learns once what each check needs. Contracts see it as the
/// set.
#[derive(Drop)]
pub struct CodeChecker<'a> {
    set: &'a ClassSet,
    known: Known,
    steps: Vec<Option<Step>>,
}

impl<'a> Model for CodeChecker<'a> {
    ghost use Rattle.std.specs.Prelude.{List};
    ghost use Rattle.class_model.specs.declared.class.Class.{Class};
    ghost use Rattle.type_verifier.specs.bodies.Steps.{AreSteps};

    ghost Value = { List Class };

    ghost view = { λ c. c.set.now };

    ghost invariant = { λ c. AreSteps c.set.now c.steps.items };
}

impl<'a> CodeChecker<'a> {
    /// A checker for a set. It takes the time of going over the classes once.
    pub fn new(alloc: Global, set: &'a ClassSet) -> M<Self>
        ensures { IfOk result (λ checker. checker ≡ set.now) }
    {
        let known = Known::new(alloc)?;
        let steps = steps_of(alloc, set)?;
        Ok(CodeChecker { set, known, steps })
    }

    /// Checks a code as that of a method, as `verify_code` does.
    pub fn check(
        &self,
        alloc: Global,
        class: u32,
        method: u32,
        code: &Code,
    ) -> Result<(), Or<TypeFault>>
        requires class { class < length self.now }
        requires method { (c : Class) → slice_get self.now class ≡ Some c → method < length c.methods }
        ensures judged { JudgesMethod result (set_with_code self.now class method code.now) class method }
        ensures typed { IsTypedAt (set_with_code self.now class method code.now) class method → IsDue result (Ok tt) }
    {
        check_in(
            alloc,
            self.set,
            &self.steps,
            &self.known,
            class,
            method,
            code,
        )
    }
}

/// The same by what is known of the classes.
fn check_in(
    alloc: Global,
    set: &ClassSet,
    steps: &[Option<Step>],
    known: &Known,
    class: u32,
    method: u32,
    code: &Code,
) -> Result<(), Or<TypeFault>>
    requires steps { AreSteps set.now steps.now }
    requires class { class < length set.now }
    requires method { (c : Class) → slice_get set.now class ≡ Some c → method < length c.methods }
    ensures judged { JudgesMethod result (set_with_code set.now class method code.now) class method }
    ensures typed { IsTypedAt (set_with_code set.now class method code.now) class method → IsDue result (Ok tt) }
{
    let of = set.class(class);
    let at = method as usize;
    check_by_steps(
        alloc,
        set,
        steps,
        known,
        class,
        of,
        method,
        &of.methods[at],
        code,
    )
}

fn check_by_steps(
    alloc: Global,
    set: &ClassSet,
    steps: &[Option<Step>],
    known: &Known,
    own: u32,
    class: &Class,
    number: u32,
    method: &Method,
    code: &Code,
) -> Result<(), Or<TypeFault>>
    requires steps { AreSteps set.now steps.now }
    requires there { own < length set.now }
    ensures { IsDue result (code_checked (environment set.now own class.now number method.now code.now)) }
{
    let hierarchy = Hierarchy::with(set, steps);
    check_one(alloc, &hierarchy, own, class, number, method, code, known)
}
