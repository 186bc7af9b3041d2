//! What holds of a set of classes and its image.
ghost use Rattle.std.specs.Prelude.{List};
ghost use Rattle.class_model.specs.declared.class.Class.{Class};
ghost use Rattle.image_laws.specs.SetImage.Image.{Image, IsProperSet, SelectedKept};
ghost use Rattle.jvm_model.specs.Same.{AreKept, Same, SameSteps};
ghost use Rattle.jvm_model.specs.Value.{Key};
ghost use Rattle.set_view.specs.ViewOf.{view_of};
ghost use Rattle.image_laws.specs.ViewImage.ImageNames.{names};
ghost use Rattle.image_laws.specs.ViewImage.ImageView.{IsImageView};

/// A set of classes and its image do the same from entries that are kept, and at equal numbers of steps, where names
/// are those of the image. It does nothing.
pub fn images_of_sets_do_the_same()
    ensures same { (a b : List Class) (i : Image a b) → IsProperSet a → SelectedKept a b i → IsImageView a b i
        → (entries : List Key) → AreKept (names a b i) entries
        → Same (view_of a) (view_of b) (names a b i) entries }
    ensures steps { (a b : List Class) (i : Image a b) → IsProperSet a → SelectedKept a b i → IsImageView a b i
        → (entries : List Key) → AreKept (names a b i) entries
        → SameSteps (view_of a) (view_of b) (names a b i) entries }
{}
