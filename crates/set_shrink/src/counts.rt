// How many classes and members there are.
ghost use Rattle.std.specs.Prelude.{◌≡◌, ◌<◌};
ghost use Rattle.class_pool.specs.Count.{item_count};
ghost use Rattle.set_shrink.specs.ShrunkSet.{counts_of};

use class_model::Class;

/// How many classes there are, and how many fields and methods these have together.
#[derive(Clone, Copy, Debug, PartialEq, Eq)]
pub struct Counts {
    pub classes: usize,
    pub fields: usize,
    pub methods: usize,
}

/// The counts of some classes.
pub fn counts_of(classes: &[Class]) -> Counts
    requires few { item_count classes.now < 4294967295 }
    ensures { result ≡ counts_of classes.now }
{
    let mut fields = 0usize;
    let mut methods = 0usize;
    for class in classes {
        fields += class.fields.len();
        methods += class.methods.len();
    }
    Counts {
        classes: classes.len(),
        fields,
        methods,
    }
}
