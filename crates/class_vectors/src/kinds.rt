// The names of what is left out.
ghost use Rattle.std.specs.Prelude.{◌≡◌};
ghost use Rattle.class_vectors.specs.Answers.{left_name};

use class_model::LeftKind;

/// The name of what is left out.
pub fn left_name(kind: LeftKind) -> &'static str
    ensures { result.now ≡ left_name kind }
{
    match kind {
        LeftKind::Flag => "Flag",
        LeftKind::Constant => "Constant",
        LeftKind::Opcode => "Opcode",
        LeftKind::FloatType => "FloatType",
    }
}
