// What the definition of a pair gives for small ones.
//
// Each clause is computed from the definitions. The pairs are written out in specs/Examples.antt.
ghost use Rattle.pair_rows.specs.Rows.{CodeDiffersRow, EditIllegalRow, FixedNameRow, InputRow, MapShapeRow};
ghost use Rattle.pair_rows.specs.Rows.{LineRangeRow, MemberDiffersRow, NoneRow, NotClosedRow, OutputFormatRow, OutputProfileRow};
ghost use Rattle.pair_rows.specs.Rows.{PackageRow, RequiredRow, SeedLostRow, TakenRow, WitnessStrayRow};

/// Carries what the definition of a pair gives for small ones, files and all: an input is a set
/// that is taken, one output is taken with it, and by each clause that can hold one is refused,
/// with its first place. It does nothing.
pub fn computed_pairs()
    ensures required { RequiredRow }
    ensures input { InputRow }
    ensures taken { TakenRow }
    ensures none { NoneRow }
    ensures output_format { OutputFormatRow }
    ensures output_profile { OutputProfileRow }
    ensures map_shape { MapShapeRow }
    ensures fixed_name { FixedNameRow }
    ensures other_package { PackageRow }
    ensures seed_lost { SeedLostRow }
    ensures not_closed { NotClosedRow }
    ensures member_differs { MemberDiffersRow }
    ensures witness_stray { WitnessStrayRow }
    ensures edit_illegal { EditIllegalRow }
    ensures code_differs { CodeDiffersRow }
    ensures line_range { LineRangeRow }
{}
