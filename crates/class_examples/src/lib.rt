//! What the definitions of the class file give for files that javac made, some of them damaged.
//!
//! Each clause is computed from the definitions of `class_model`. The files are written out in
//! specs/Compiled.antt.
#![tactic(auto)]

ghost use Rattle.class_examples.specs.Compiled.{IsCut, IsBadMagic, IsBadVersion, IsBadTag, IsBadUtf8, IsBadIndex};
ghost use Rattle.class_examples.specs.Compiled.{IsBadName, IsBadDescriptor, IsBadFlags, IsBadAttribute, IsBadCode};
ghost use Rattle.class_examples.specs.Compiled.{IsBadOpcode, IsBadOperand, IsBadTarget, IsBadHandler, IsBadFrame};
ghost use Rattle.class_examples.specs.Compiled.{IsRepeated, IsTrailing, LeavesFlag, LeavesConstant, LeavesOpcode};
ghost use Rattle.class_examples.specs.Compiled.{LeavesFloatType, IsRespelled};

/// Carries what the definitions give for class files that javac made. It does nothing.
pub fn computed_examples()
    ensures cut { IsCut }
    ensures bad_magic { IsBadMagic }
    ensures bad_version { IsBadVersion }
    ensures bad_tag { IsBadTag }
    ensures bad_utf8 { IsBadUtf8 }
    ensures bad_index { IsBadIndex }
    ensures bad_name { IsBadName }
    ensures bad_descriptor { IsBadDescriptor }
    ensures bad_flags { IsBadFlags }
    ensures bad_attribute { IsBadAttribute }
    ensures bad_code { IsBadCode }
    ensures bad_opcode { IsBadOpcode }
    ensures bad_operand { IsBadOperand }
    ensures bad_target { IsBadTarget }
    ensures bad_handler { IsBadHandler }
    ensures bad_frame { IsBadFrame }
    ensures repeated { IsRepeated }
    ensures trailing { IsTrailing }
    ensures left_out_flag { LeavesFlag }
    ensures left_out_constant { LeavesConstant }
    ensures left_out_opcode { LeavesOpcode }
    ensures left_out_float_type { LeavesFloatType }
    ensures respelled { IsRespelled }
{}
