//! What holds of a set of classes of which only marked items are left.
ghost use Rattle.image_laws.specs.ShrunkImage.Laws.{ShrunkIsImage};

/// What is left of a set is an image of it, where direct supertypes of what is marked are marked. It does nothing.
pub fn shrunk_is_image()
    ensures { ShrunkIsImage }
{}
