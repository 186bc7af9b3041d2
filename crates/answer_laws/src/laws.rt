// What the clauses of a pair come to.
ghost use Rattle.answer_laws.specs.Laws.{IsSomeClause};

/// Of an input that some files are taken as, and any other set, no clause holds, or there is a first one with its first
/// place. It does nothing.
pub fn clauses_have_an_answer()
    ensures { IsSomeClause }
{}
