//! What holds of methods that are typed, where their set has an image.
ghost use Rattle.image_laws.specs.TypedImage.Laws.{KeepsTyped};

/// A method that is typed is so in an image of its set, under new names, where what it names is kept. It does nothing.
pub fn images_keep_typed()
    ensures { KeepsTyped }
{}
