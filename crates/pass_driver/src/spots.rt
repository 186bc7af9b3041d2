// The kept methods of a set that have a code.
ghost use Rattle.std.specs.Prelude.{◌≡◌, ◌<◌, ◌≤◌, ◌+◌, ◌++◌, IfOk, OnOk, length};
ghost use Rattle.class_pool.specs.Count.{item_count};
ghost use Rattle.pass_driver.specs.Optimised.{class_spots, method_spots, spots};

use class_model::{Class, Method};
use class_pool::ClassSet;
use jv_base::{Items, M};
use std::alloc::Global;

/// A method of a set, by the numbers of its class and of the method there.
#[derive(Clone, Copy)]
pub struct Spot {
    pub class: u32,
    pub method: u32,
}

/// Appends those of the methods of a class whose items follow one another from the first on.
fn put_spots(
    spots: &mut Items<Spot>,
    marks: &[bool],
    own: u32,
    first: usize,
    methods: &Items<Method>,
) -> M<()>
    requires few { length methods.now < 4294967295 }
    requires marks { first + length methods.now ≤ length marks.now }
    ensures { OnOk result (spots.new ≡ spots.old ++ method_spots marks.now own first 0 methods.now) }
{
    let mut item = first;
    let mut number = 0u32;
    for method in methods.as_slice() {
        if marks[item] && method.code.is_some() {
            spots.push(Spot {
                class: own,
                method: number,
            })?;
        }
        item += 1;
        number += 1;
    }
    Ok(())
}

/// The kept methods that have a code, class after class in order, method after method.
pub(crate) fn spots_of(alloc: Global, set: &ClassSet, marks: &[bool]) -> M<Items<Spot>>
    requires { length marks.now ≡ item_count set.now }
    ensures { IfOk result (λ all. all ≡ spots marks.now set.now) }
{
    let mut spots = Items::new(alloc);
    let mut item = 0usize;
    for own in 0..set.len() {
        let class = set.class(own);
        let first = item + 1 + class.fields.len();
        put_spots(&mut spots, marks, own, first, &class.methods)?;
        item = first + class.methods.len();
    }
    Ok(spots)
}
