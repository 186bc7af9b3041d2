// What the rules ask of the members that instructions name (JVMS 4.10.1.8).
ghost use Rattle.std.specs.Prelude.{◌≡◌, ◌<◌, Ok, is_some, length};
ghost use Rattle.class_pool.specs.Found.{IsMember};
ghost use Rattle.class_pool.specs.Members.{declared_at};
ghost use Rattle.class_pool.specs.declared.id.ClassId.TheVariants.{Prog};
ghost use Rattle.type_verifier.specs.Members.{is_early_field, is_guarded, is_guarded_field, is_guarded_method};
ghost use Rattle.type_verifier.specs.bodies.Seen.{environment_of};

use crate::environment::Env;
use crate::objects::is_class_type;
use class_model::MemberRef;
use class_pool::{ClassId, MemberAt};
use link_check::{resolve_field, resolve_method};

/// Whether the field of a reference is protected, not static, and declared in another package.
pub(crate) fn is_guarded_field(env: &Env, r: &MemberRef) -> bool
    requires there { env.now.own < length env.now.set.now }
    ensures { result ≡ is_guarded_field (environment_of env.now) r.now }
{
    match resolve_field(env.set.class_set(), env.own, r) {
        Ok(m) => is_guarded(env, &m),
        Err(_) => false,
    }
}

/// The same of the method of a reference.
pub(crate) fn is_guarded_method(env: &Env, r: &MemberRef) -> bool
    requires there { env.now.own < length env.now.set.now }
    ensures { result ≡ is_guarded_method (environment_of env.now) r.now }
{
    match resolve_method(env.set.class_set(), env.own, r) {
        Ok(m) => is_guarded(env, &m),
        Err(_) => false,
    }
}

fn is_guarded(env: &Env, m: &MemberAt) -> bool
    requires there { env.now.own < length env.now.set.now }
    requires member { IsMember env.now.set.now m.now }
    ensures { result ≡ is_guarded (environment_of env.now) (Ok m.now) }
{
    let set = env.set.class_set();
    set.is_protected_member(*m)
        && !set.is_static_member(*m)
        && !set.is_same_package(ClassId::Prog(env.own), m.class)
}

/// Whether a constructor may set the field before it called another one.
pub(crate) fn is_early_field(env: &Env, r: &MemberRef) -> bool
    requires there { env.now.own < length env.now.set.now }
    ensures { result ≡ is_early_field (environment_of env.now) r.now }
{
    env.is_in_constructor() && is_class_type(&env.class.name, &r.class) && is_declared(env, r)
}

fn is_declared(env: &Env, r: &MemberRef) -> bool
    requires there { env.now.own < length env.now.set.now }
    ensures { result ≡ is_some (declared_at env.now.set.now (Prog env.now.own) r.now.name r.now.ty) }
{
    env.set
        .class_set()
        .declares(ClassId::Prog(env.own), &r.name, &r.ty)
        .is_some()
}
