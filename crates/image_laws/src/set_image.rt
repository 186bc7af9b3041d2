//! What holds of a set of classes and its image.
ghost use Rattle.image_laws.specs.SetImage.Laws.{KeepsAccess, KeepsFields, KeepsMethods, KeepsOrder, KeepsOverriding};
ghost use Rattle.image_laws.specs.SetImage.Laws.{KeepsSelection, KeepsSpecialCalls};

/// Supertypes, resolution, access and selection in an image. It does nothing.
pub fn image_keeps_links()
    ensures order { KeepsOrder }
    ensures fields { KeepsFields }
    ensures methods { KeepsMethods }
    ensures access { KeepsAccess }
    ensures selection { KeepsSelection }
    ensures overriding { KeepsOverriding }
    ensures special { KeepsSpecialCalls }
{}
