// The names of the rules of class files, and of their limits.
ghost use Rattle.std.specs.Prelude.{◌≡◌};
ghost use Rattle.report_text.specs.Kinds.{format_name, limit_name};

use class_model::WriteLimit;
use format_reading::FormatKind;

/// The name of the rule of class files that is broken.
pub fn format_name(kind: FormatKind) -> &'static str
    ensures { result.now ≡ format_name kind }
{
    match kind {
        FormatKind::Cut => "Cut",
        FormatKind::BadMagic => "BadMagic",
        FormatKind::BadVersion => "BadVersion",
        FormatKind::BadTag => "BadTag",
        FormatKind::BadUtf8 => "BadUtf8",
        FormatKind::BadIndex => "BadIndex",
        FormatKind::BadName => "BadName",
        FormatKind::BadDescriptor => "BadDescriptor",
        FormatKind::BadFlags => "BadFlags",
        FormatKind::BadAttribute => "BadAttribute",
        FormatKind::BadConstant => "BadConstant",
        FormatKind::BadCode => "BadCode",
        FormatKind::BadOpcode => "BadOpcode",
        FormatKind::BadOperand => "BadOperand",
        FormatKind::BadTarget => "BadTarget",
        FormatKind::BadHandler => "BadHandler",
        FormatKind::BadFrame => "BadFrame",
        FormatKind::Repeated => "Repeated",
        FormatKind::Trailing => "Trailing",
    }
}

/// The name of what a limit of the format counts (JVMS 4.11).
pub fn limit_name(limit: WriteLimit) -> &'static str
    ensures { result.now ≡ limit_name limit }
{
    match limit {
        WriteLimit::PoolFull(_) => "pool",
        WriteLimit::TextTooLong(_) => "utf8",
        WriteLimit::CodeTooLong(_) => "code",
        WriteLimit::BranchTooFar(..) => "branch",
        WriteLimit::AttributeFull(_) => "table",
        WriteLimit::AttributeTooLong(_) => "attribute",
    }
}
