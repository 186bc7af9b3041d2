// How typed codes end.
ghost use Rattle.flow_laws.specs.Laws.{TypedCodesAreSound};

/// A typed code of a class that follows the format is sound. It does nothing.
pub fn typed_codes_are_sound()
    ensures { TypedCodesAreSound }
{}
