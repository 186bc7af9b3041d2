// A class in its canonical spelling (JVMS 4).
ghost use Rattle.std.specs.Prelude.{◌↔◌, IsTrue};
ghost use Rattle.jv_base.specs.Outcome.{IsDue};
ghost use Rattle.class_model.specs.WellFormed.{IsWellFormed, CountsFit};
ghost use Rattle.class_model.specs.WriteLimits.{class_written};
ghost use Rattle.class_write.specs.bodies.Limits.{AreCounted, IsCounted};

use crate::class_file::put_class_file;
use crate::limits::check_tables;
use crate::placing::place_bodies;
use crate::pool::pool_of;
use class_model::{Class, Code, Method, WriteLimit};
use jv_base::{Bytes, Items, Or};
use std::alloc::Global;

/// The bytes of a class file in the one canonical spelling of a class, or the first limit of the format that the class
/// passes.
///
/// The constants stand in the pool in the order in which the file names them, each once and behind its parts; those
/// that instructions push come first, so that ldc reaches them. Attributes stand in a fixed order, and an empty one
/// isn't written; instructions and frames take their shortest form (JVMS 4.4, 4.7, 6.5).
///
/// The limits count in this order: the constant_pool_count, the texts of the pool, the length of each code and its
/// branches, the counts of the tables of the class and its methods, and the attribute_length of each Code (JVMS 4.11).
/// A class that passes one of them is no fault of the caller: `WriteLimit` says which, and by how much.
///
/// The class is well formed: nothing is left out of it, and its names, types, flags, targets and frames are those of a
/// class file. The arguments of the method that an InvokeInterface names take at most 254 words.
pub fn write_class(alloc: Global, class: &Class) -> Result<Bytes, Or<WriteLimit>>
    requires well_formed { IsWellFormed class.now }
    requires words { CountsFit class.now }
    ensures exact { IsDue result (class_written class.now) }
{
    if are_counted(class.methods.as_slice()) {
        write_counted(alloc, class)
    } else {
        Err(Or::OutOfMemory)
    }
}

// Whether the instructions of each code are counted by a number of four bytes; else they are more than memory holds.
fn are_counted(methods: &[Method]) -> bool
    ensures { IsTrue result ↔ AreCounted methods.now }
{
    methods.iter().all(|method| is_counted(&method.code))
}

fn is_counted(code: &Option<Code>) -> bool
    ensures { IsTrue result ↔ IsCounted code.now }
{
    match code {
        Some(code) => code.ins.len() < u32::MAX as usize,
        None => true,
    }
}

fn write_counted(alloc: Global, class: &Class) -> Result<Bytes, Or<WriteLimit>>
    requires well_formed { IsWellFormed class.now }
    requires words { CountsFit class.now }
    requires counts { AreCounted class.now.methods }
    ensures exact { IsDue result (class_written class.now) }
{
    let pool = pool_of(alloc, class)?;
    pool.check_limits(alloc)?;
    let placed = place_bodies(alloc, &pool, class.methods.as_slice())?;
    if let Err(limit) = check_tables(class) {
        return Err(Or::Fault(limit));
    }
    let mut out = Vec::new(alloc);
    put_class_file(alloc, &pool, class, placed.as_slice(), &mut out)?;
    Ok(Items::from_vec(out))
}
