// How many items a set has.
ghost use Rattle.std.specs.Prelude.{◌<◌};
ghost use Rattle.class_pool.specs.Count.{item_count};

use crate::ClassSet;

impl ClassSet {
    /// The classes of a set and their members are fewer than 2^32 - 1.
    pub fn few_items(&self)
        ensures { item_count self.now < 4294967295 }
    {
        let _count = self.classes.len();
    }
}
