//! What closed marks leave of a set that is taken.
ghost use Rattle.removal_laws.specs.RemovalImage.Laws.{ClosedRemovalIsImage};

/// Where marks are closed for the system of requirements, what is left of a set that is taken is an image of it, in
/// which what calls run is kept. It does nothing.
pub fn closed_removal_is_image()
    ensures { ClosedRemovalIsImage }
{}
