// What the definitions of the class file give for a few files.
//
// Each clause is computed from the definitions. The files are written out in specs/rows/Rows.antt:
// their offsets and kinds of fault follow from JVMS 4 and 6.5, and two of them were made by javac.
ghost use Rattle.class_model.specs.rows.Rows.{IsSpelled, IsRead, IsWritten, IsCutAnywhere, IsTrailed, HeadFaults};
ghost use Rattle.class_model.specs.rows.Rows.{CodeFaults, CodeLeftOut, MemberFaults, PoolFaults, ClassLeftOut};
ghost use Rattle.class_model.specs.rows.Rows.{TIsSpelled};
ghost use Rattle.class_model.specs.rows.Rows.{TIsRead, CodeLimits, TIsWellFormed, MainIsCanonical};
ghost use Rattle.class_model.specs.rows.Rows.{CompiledAreRespelled};
ghost use Rattle.class_model.specs.rows.Rows.{UnknownOpcodes, PlainIsCanonical, Padding};

/// Carries what the definitions give for a few class files. It does nothing.
pub fn computed_rows()
    ensures spelled { IsSpelled }
    ensures read { IsRead }
    ensures written { IsWritten }
    ensures cut_anywhere { IsCutAnywhere }
    ensures trailed { IsTrailed }
    ensures head_faults { HeadFaults }
    ensures code_faults { CodeFaults }
    ensures code_left_out { CodeLeftOut }
    ensures member_faults { MemberFaults }
    ensures pool_faults { PoolFaults }
    ensures class_left_out { ClassLeftOut }
    ensures t_spelled { TIsSpelled }
    ensures t_read { TIsRead }
    ensures t_well_formed { TIsWellFormed }
    ensures code_limits { CodeLimits }
    ensures main_is_canonical { MainIsCanonical }
    ensures compiled_are_respelled { CompiledAreRespelled }
    ensures unknown_opcodes { UnknownOpcodes }
    ensures plain_is_canonical { PlainIsCanonical }
    ensures padding { Padding }
{}
