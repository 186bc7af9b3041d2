// What holds of what is written of a set.
ghost use Rattle.set_shrink.specs.Order.{OrderKeepsAll};
ghost use Rattle.set_shrink.specs.OneShrunk.{IsOneLimit, IsOneShrunk, NotBothShrunk};
ghost use Rattle.set_shrink.specs.Writable.{FilteredIsWritable, ShrunkAreWritable};

/// Of the same set, for the same marks and rules, one thing at most is written: the same files with the same counts, or
/// else one limit of the format is passed first, and never both.
pub fn one_shrunk_set()
    ensures set { IsOneShrunk }
    ensures limit { IsOneLimit }
    ensures either { NotBothShrunk }
{}

/// Where each class of a list can be written, so can each class that is left with its marked members, whatever is
/// marked (JVMS 4.1).
pub fn shrunk_can_be_written()
    ensures { ShrunkAreWritable }
{}

/// A class that can be written can be written with those optional attributes alone that are kept (JVMS 4.1).
pub fn filtered_can_be_written()
    ensures { FilteredIsWritable }
{}

/// Classes of which no two have one name are all there in the order of their paths, each once. It does nothing.
pub fn order_keeps_all()
    ensures { OrderKeepsAll }
{}
