// Whether types are one.
ghost use Rattle.std.specs.Prelude.{◌≡◌, ◌↔◌, IsTrue};
ghost use Rattle.jv_base.specs.Names.{is_text};
ghost use Rattle.jv_base.specs.Types.{field_text};
ghost use Rattle.class_model.specs.CanonicalFrames.{same_type, same_types};

use class_model::VType;
use jv_base::FieldType;

fn are_equal(one: &FieldType, other: &FieldType) -> bool
    ensures { IsTrue result ↔ (one.now ≡ other.now) }
{
    one == other
}

// Types have different descriptors where they differ.
fn same_class(one: &FieldType, other: &FieldType) -> bool
    ensures { result ≡ is_text (field_text one.now) (field_text other.now) }
{
    are_equal(one, other)
}

fn same_type(one: &VType, other: &VType) -> bool
    ensures { result ≡ same_type one.now other.now }
{
    match (one, other) {
        (VType::Top, VType::Top) => true,
        (VType::Int, VType::Int) => true,
        (VType::Long, VType::Long) => true,
        (VType::Null, VType::Null) => true,
        (VType::UninitThis, VType::UninitThis) => true,
        (VType::Object(one), VType::Object(other)) => same_class(one, other),
        (VType::Uninit(one), VType::Uninit(other)) => one == other,
        _ => false,
    }
}

/// Whether there are as many of both, and in each place they are one.
pub fn same_types(one: &[VType], other: &[VType]) -> bool
    ensures { result ≡ same_types one.now other.now }
{
    if one.len() != other.len() {
        return false;
    }
    for index in 0..one.len() {
        if !same_type(&one[index], &other[index]) {
            return false;
        }
    }
    true
}
