// Codes after a step, with their frames.
ghost use Rattle.rebuild_laws.specs.Laws.{RebuiltCodesFollowFormat, RebuiltCodesNameLess};

/// Codes after right acts follow the format, and codes after any acts name nothing more. It does nothing.
pub fn rebuilt_codes_are_good()
    ensures format { RebuiltCodesFollowFormat }
    ensures names { RebuiltCodesNameLess }
{}
