//! What is found of files that were put.
ghost use Rattle.pair_laws.specs.FilesFound.Laws.{FoundAscend, PutAreFound};

/// Class files that are put below a directory in which no file lies, beside files elsewhere, are what is found there.
/// It does nothing.
pub fn put_files_are_found()
    ensures { PutAreFound }
{}

/// The class files that are found below a directory ascend, and are short. It does nothing.
pub fn found_files_ascend()
    ensures { FoundAscend }
{}
