// What `check` comes to.
ghost use Rattle.check_laws.specs.Laws.{IsSomeAnswer, IsSomeCheck};

/// Class files of bytes are a pair with an input that some files are taken as, or there is a reason why they are none: a
/// file is no class file, the files break a rule of sets, or there is a first clause that holds. It does nothing.
pub fn pairs_have_an_answer()
    ensures { IsSomeAnswer }
{}

/// Of any told files of bytes something is due of `check`: `ok`, or a refusal. It does nothing.
pub fn check_has_an_answer()
    ensures { IsSomeCheck }
{}
