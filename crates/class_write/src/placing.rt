// The codes of a class with the places of their instructions (JVMS 4.7.3).
ghost use Rattle.std.specs.Prelude.{◌+◌, ◌^◌, ◌<◌, All, IfSome, length};
ghost use Rattle.jv_base.specs.Outcome.{IsDue};
ghost use Rattle.class_write.specs.bodies.Placing.{code_due, body_due, bodies_due, IsWritable, HasWritable};

use class_model::{Code, Method, WriteLimit};
use code_write::encode_with;
use constant_table::ConstantTable;
use jv_base::{Bytes, Items, Or};
use std::alloc::Global;

/// A code in its canonical spelling.
#[derive(Drop)]
pub struct PlacedCode {
    pub bytes: Bytes,
    /// The offset of each instruction, and behind them the length of the code.
    pub places: Items<u32>,
}

fn place_code(
    alloc: Global,
    pool: &ConstantTable,
    code: &Code,
) -> Result<PlacedCode, Or<WriteLimit>>
    requires pool { length pool.now + 1 < 2 ^ 16 }
    requires code { IsWritable code.now }
    ensures { IsDue result (code_due pool.now code.now) }
{
    let coded = encode_with(alloc, &code.ins, pool)?;
    let mut places = coded.starts.into_vec();
    places.push(coded.bytes.len() as u32)?;
    Ok(PlacedCode {
        bytes: coded.bytes,
        places: Items::from_vec(places),
    })
}

fn place_body(
    alloc: Global,
    pool: &ConstantTable,
    code: &Option<Code>,
) -> Result<Option<PlacedCode>, Or<WriteLimit>>
    requires pool { length pool.now + 1 < 2 ^ 16 }
    requires code { IfSome code.now IsWritable }
    ensures { IsDue result (body_due pool.now code.now) }
{
    match code {
        Some(code) => Ok(Some(place_code(alloc, pool, code)?)),
        None => Ok(None),
    }
}

/// The codes of these methods, or the limit that the first of them passes: that of its length, or that of its first
/// branch that is too far.
pub fn place_bodies(
    alloc: Global,
    pool: &ConstantTable,
    methods: &[Method],
) -> Result<Items<Option<PlacedCode>>, Or<WriteLimit>>
    requires pool { length pool.now + 1 < 2 ^ 16 }
    requires methods { All HasWritable methods.now }
    ensures { IsDue result (bodies_due pool.now methods.now) }
{
    let mut placed = Items::new(alloc);
    for method in methods {
        placed.push(place_body(alloc, pool, &method.code)?)?;
    }
    Ok(placed)
}
