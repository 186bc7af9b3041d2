// What holds of class files and the reading of them.
ghost use Rattle.class_laws.specs.ReadingLaws.{ReadIsSpelled, SpelledIsRead, SpellsOne};

/// A class is read from the bytes of a class file exactly where they spell it (JVMS 4.1), and they
/// spell one class at most.
pub fn files_are_read_where_spelled()
    ensures read { ReadIsSpelled }
    ensures spelled { SpelledIsRead }
    ensures one { SpellsOne }
{}
