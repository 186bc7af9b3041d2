// What holds of sets of class files and the faults of files.
ghost use Rattle.set_read.specs.OneSet.{IsOneFault, IsOneSet, NotBoth};

/// The same files are never taken as two sets of classes, nor refused for two faults, nor both taken and refused: what
/// the files are is settled by their paths and bytes alone.
pub fn files_are_one_set()
    ensures set { IsOneSet }
    ensures fault { IsOneFault }
    ensures either { NotBoth }
{}
