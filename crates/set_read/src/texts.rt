// The names of what breaks a rule.
ghost use Rattle.std.specs.Prelude.{◌≡◌, ◌<◌, ◌+◌, IfOk, length};
ghost use Rattle.link_check.specs.Profile.{IsPlace};
ghost use Rattle.set_read.specs.Accepted.{NamesMethod, NamesPlace, named_pool_fault};
ghost use Rattle.type_verifier.specs.Verified as verified;

use crate::{RuleFault, RuleKind};
use class_model::Class;
use class_pool::{ClassSet, PoolFault};
use jv_base::{M, Text};
use link_check::ProfileFault;
use report_text::{class_text, member_text, name_text};
use std::alloc::Global;
use type_verifier::TypeFault;

/// A fault of classes that are no set, with the class's external name.
pub fn pool_fault(alloc: Global, fault: PoolFault) -> M<RuleFault>
    ensures { IfOk result (λ named. named ≡ named_pool_fault fault) }
{
    Ok(RuleFault {
        class: name_text(alloc, &fault.class)?,
        member: None,
        kind: RuleKind::Pool(fault.kind),
    })
}

/// A fault of a set, with the texts of the class and the member.
pub fn place_fault(alloc: Global, set: &ClassSet, fault: ProfileFault) -> M<RuleFault>
    requires { IsPlace set.now fault }
    ensures { IfOk result (NamesPlace set.now fault) }
{
    let class = set.class(fault.class);
    let member = match fault.member {
        Some(number) => Some(member_text(alloc, class, number)?),
        None => None,
    };
    Ok(RuleFault {
        class: class_text(alloc, class)?,
        member,
        kind: RuleKind::Profile(fault.kind),
    })
}

/// A fault of a code, with the texts of the class and the method.
#[tactic(auto, using(crate::proofs::Methods::method_within))]
pub fn method_fault(alloc: Global, set: &ClassSet, fault: TypeFault) -> M<RuleFault>
    requires { verified.IsPlace set.now fault }
    ensures { IfOk result (NamesMethod set.now fault) }
{
    let class = set.class(fault.class);
    let number = number_of_method(class, fault.method);
    Ok(RuleFault {
        class: class_text(alloc, class)?,
        member: Some(member_text(alloc, class, number)?),
        kind: RuleKind::Type(fault.kind),
    })
}

/// The number of a method among the members of its class.
fn number_of_method(class: &Class, method: u32) -> u32
    requires few { length class.now.fields + length class.now.methods < 4294967295 }
    requires there { method < length class.now.methods }
    ensures { result ≡ length class.now.fields + method }
{
    class.fields.len() as u32 + method
}
