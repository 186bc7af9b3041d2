//! What holds of the lines of a mapping that shrinking writes.
ghost use Rattle.pair_laws.specs.OwnShape.Laws.{OwnMappingFits};

/// The lines of the mapping of a taken set are one to one between what is kept and what is left, and names of fields,
/// and of methods, are one to one. It does nothing.
pub fn own_mapping_fits()
    ensures { OwnMappingFits }
{}
