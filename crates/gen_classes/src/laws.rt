// What holds of the generated classes.
ghost use Rattle.gen_classes.specs.Laws.{GeneratedCanBeWritten};

/// The generated classes follow the rules of the format and pass no limit of it, so each has a file. It does nothing.
pub fn generated_can_be_written()
    ensures { GeneratedCanBeWritten }
{}
