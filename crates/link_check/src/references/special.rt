// Which method invokespecial runs (JVMS 6.5.invokespecial).
ghost use Rattle.std.specs.Prelude.{◌≡◌, ◌<◌, IfSome, Ok, length};
ghost use Rattle.std.specs.List.{find};
ghost use Rattle.std.specs.Option.{option_and_then};
ghost use Rattle.class_pool.specs.Found.{IsMember, declared_by, is_instance_method, named_at};
ghost use Rattle.class_pool.specs.Hierarchy.{IsClass};
ghost use Rattle.class_pool.specs.Selection.{selected_special};
ghost use Rattle.class_pool.specs.declared.id.ClassId.TheVariants.{Prog};
ghost use Rattle.link_check.specs.Links.{resolved_method};
ghost use Rattle.link_check.specs.Profile.{class_of};
ghost use Rattle.class_pool.specs.Walk.{superclasses_up};

use crate::rules::calls::class_of;
use crate::rules::member_uses::is_same_class;
use class_model::MemberRef;
use class_pool::{ClassId, ClassSet, MemberAt, Superclasses};

/// The method that an instruction invokespecial of a class runs, whose reference means a method (JVMS
/// 6.5.invokespecial); none where no method fits. The class is told by its number. Takes no memory.
pub fn select_special(set: &ClassSet, from: u32, r: &MemberRef, m: MemberAt) -> Option<MemberAt>
    requires there { from < length set.now }
    requires member { IsMember set.now m }
    requires resolved { resolved_method set.now (Prog from) r.now ≡ Ok m }
    ensures is { result
        ≡ option_and_then (λ named. selected_special set.now (Prog from) named m) (class_of set.now r.now) }
    ensures there { IfSome result (IsMember set.now) }
{
    match class_of(set, r) {
        Some(named) => special_of(set, from, &named, r, &m),
        None => None,
    }
}

/// The same where the class that the reference names is there.
fn special_of(
    set: &ClassSet,
    from: u32,
    named: &ClassId,
    r: &MemberRef,
    m: &MemberAt,
) -> Option<MemberAt>
    requires there { from < length set.now }
    requires member { IsMember set.now m.now }
    requires named { named_at set.now m.now ≡ (r.now.name, r.now.ty) }
    ensures is { result ≡ selected_special set.now (Prog from) named.now m.now }
    ensures there { IfSome result (IsMember set.now) }
{
    if set.is_init_member(*m) {
        return Some(*m);
    }
    let own = &ClassId::Prog(from);
    if is_same_class(own, named) {
        first_instance_up(set, Some(*own), r)
    } else {
        first_instance_up(set, set.super_of(*own), r)
    }
}

/// The first instance method of the name and the descriptor of a reference, from a class upwards, if there is one.
pub(crate) fn first_instance_up(
    set: &ClassSet,
    class: Option<ClassId>,
    r: &MemberRef,
) -> Option<MemberAt>
    requires { IfSome class (IsClass set.now) }
    ensures there { IfSome result (IsMember set.now) }
    ensures is { result ≡ find (is_instance_method set.now)
        (declared_by set.now (r.now.name, r.now.ty) (superclasses_up set.now class)) }
{
    for class in Superclasses::up(set, declaring_up(set, class, r)) {
        if let Some(found) = &set.declared_in(class, &r.name, &r.ty) {
            if set.is_instance_method(*found) {
                return Some(*found);
            }
        }
    }
    None
}

/// The class from which on upwards such methods are to be looked for.
fn declaring_up(set: &ClassSet, class: Option<ClassId>, r: &MemberRef) -> Option<ClassId>
    requires { IfSome class (IsClass set.now) }
    ensures same { declared_by set.now (r.now.name, r.now.ty) (superclasses_up set.now class)
        ≡ declared_by set.now (r.now.name, r.now.ty) (superclasses_up set.now result) }
    ensures there { IfSome result (IsClass set.now) }
{
    set.declaring_from(class?, &r.name, &r.ty)
}
