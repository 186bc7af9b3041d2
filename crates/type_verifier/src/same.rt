// Whether verification types are the same.
ghost use Rattle.std.specs.Prelude.{◌≡◌, ◌↔◌, IsTrue};

use class_model::VType;

pub(crate) fn is_same_type(one: &VType, other: &VType) -> bool
    ensures { IsTrue result ↔ (one.now ≡ other.now) }
{
    match (one, other) {
        (VType::Top, VType::Top)
        | (VType::Int, VType::Int)
        | (VType::Long, VType::Long)
        | (VType::Null, VType::Null)
        | (VType::UninitThis, VType::UninitThis) => true,
        (VType::Object(one), VType::Object(other)) => one == other,
        (VType::Uninit(one), VType::Uninit(other)) => one == other,
        _ => false,
    }
}

/// Whether two lists have the same types.
pub(crate) fn are_same_types(one: &[VType], other: &[VType]) -> bool
    ensures { IsTrue result ↔ (one.now ≡ other.now) }
{
    if one.len() != other.len() {
        return false;
    }
    for index in 0..one.len() {
        if !is_same_type(&one[index], &other[index]) {
            return false;
        }
    }
    true
}
