// Places of a pair.
ghost use Rattle.std.specs.Prelude.{◌≡◌, IfOk};
ghost use Rattle.pair_clauses.specs.Places.{class_place, field_place, method_place};

use crate::texts::{field_text, method_text};
use jv_base::{FieldType, M, MethodType, Name, Text};
use report_text::name_text;
use std::alloc::Global;

/// A class, or a member of it.
#[derive(Drop)]
pub struct Place {
    /// With dots.
    pub class: Text,
    /// As a mapping file has it.
    pub member: Option<Text>,
}

/// A class by its name.
pub(crate) fn class_place(alloc: Global, class: &Name) -> M<Place>
    ensures { IfOk result (λ place. place ≡ class_place class.now) }
{
    let class = name_text(alloc, class)?;
    Ok(Place {
        class,
        member: None,
    })
}

/// A field of a class.
pub(crate) fn field_place(alloc: Global, class: &Name, ty: &FieldType, name: &Name) -> M<Place>
    ensures { IfOk result (λ place. place ≡ field_place class.now ty.now name.now) }
{
    let member = field_text(alloc, ty, name)?;
    let class = name_text(alloc, class)?;
    Ok(Place {
        class,
        member: Some(member),
    })
}

/// A method of a class.
pub fn method_place(alloc: Global, class: &Name, ty: &MethodType, name: &Name) -> M<Place>
    ensures { IfOk result (λ place. place ≡ method_place class.now ty.now name.now) }
{
    let member = method_text(alloc, ty, name)?;
    let class = name_text(alloc, class)?;
    Ok(Place {
        class,
        member: Some(member),
    })
}
