// What holds of classes and the bytes that they are written as.
ghost use Rattle.class_laws.specs.SpellingLaws.{LayoutIsSpelling, WrittenIsSpelling, WrittenIsRead, ReadIsRewritten};
ghost use Rattle.class_laws.specs.SpellingLaws.{SomeIsWritable, SpelledIsWritable, ReadIsReadAgain};

/// The canonical layout of a class spells the class (JVMS 4.1): of each class that is well formed,
/// whose counts of invokeinterface fit a byte, and that passes no limit of the format (JVMS 4.11).
/// So a class that is written is read back, and what is read of such a file is written as that
/// file again. A class with a field and a method shows that there are such classes.
pub fn canonical_spells_the_class()
    ensures layout { LayoutIsSpelling }
    ensures written { WrittenIsSpelling }
    ensures read { WrittenIsRead }
    ensures rewritten { ReadIsRewritten }
    ensures some { SomeIsWritable }
{}

/// A class that bytes spell, of which nothing is left out, is well formed and can be written, so
/// within the limits of the format it is read again, the same, from what is written of it.
pub fn spelled_classes_can_be_written()
    ensures writable { SpelledIsWritable }
    ensures again { ReadIsReadAgain }
{}
