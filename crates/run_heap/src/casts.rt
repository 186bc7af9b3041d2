// Whether an object is of a type (JVMS 6.5.checkcast, 6.5.instanceof, 6.5.aastore).
ghost use Rattle.std.specs.Prelude.{◌≡◌, IfOk};
ghost use Rattle.jvm_model.specs.Casts.{cast, instance_of};
ghost use Rattle.run_heap.specs.Answers.{Answered};
ghost use Rattle.run_heap.specs.bodies.Kinships.{IsKin};

use crate::objects::object_at;
use crate::pointed::{Pointed, refers_to};
use crate::subtypes::{is_class_below, is_of_type};
use crate::{Answer, Known, Shapes, World};
use jv_base::{FieldType, M};
use run_library::Exception;
use run_values::Value;

/// The reference itself, where it is null or to an object of a type (JVMS 6.5.checkcast).
#[tactic(auto, using(crate::proofs::Kin::cast_by, crate::proofs::Kin::cast_null, crate::proofs::Pointing::is_null))]
pub fn cast<S: Shapes>(shapes: &S, world: &World, value: &Value, ty: &FieldType) -> M<Answer>
    ensures { IfOk result (λ a. Answered a world.now (λ w. cast (S.shape shapes.now) w ty.now value.now)) }
{
    if value.is_null() {
        return Ok(Answer::Gives(Some(Value::null())));
    }
    match is_kin(shapes, world, value, ty) {
        Some(true) => Ok(Answer::Gives(Some(value.clone()?))),
        Some(false) => Ok(Answer::Raises(Exception::ClassCast)),
        None => Ok(Answer::NoAnswer),
    }
}

/// Whether a reference is to an object of a type; null is to none (JVMS 6.5.instanceof).
#[tactic(auto, using(crate::proofs::Kin::test_by, crate::proofs::Kin::test_null, crate::proofs::Pointing::is_null))]
pub fn test<S: Shapes>(shapes: &S, world: &World, value: &Value, ty: &FieldType) -> Answer
    ensures { Answered result world.now (λ w. instance_of (S.shape shapes.now) w ty.now value.now) }
{
    if value.is_null() {
        return Answer::Gives(Some(Value::truth(false)));
    }
    match is_kin(shapes, world, value, ty) {
        Some(is_of) => Answer::Gives(Some(Value::truth(is_of))),
        None => Answer::NoAnswer,
    }
}

/// Whether the object that a value refers to is of a type, if it refers to one.
#[tactic(auto, using(crate::proofs::Kin::literal_kin, crate::proofs::Kin::no_kin, crate::proofs::Kin::null_kin))]
pub(crate) fn is_kin<S: Shapes>(
    shapes: &S,
    world: &World,
    value: &Value,
    ty: &FieldType,
) -> Option<bool>
    ensures { IsKin (S.shape shapes.now) result world.now value.now ty.now }
{
    match refers_to(value) {
        Pointed::Null => None,
        Pointed::Object(number) => match object_at(world, number) {
            Some(object) => Some(is_of_type(shapes, object, ty)),
            None => None,
        },
        Pointed::Other => {
            if value.is_reference() {
                Some(is_class_below(shapes, shapes.name_of(Known::String), ty))
            } else {
                None
            }
        }
    }
}
