// ClassFile (JVMS 4.1).
ghost use Rattle.std.specs.Prelude.{◌≡◌, ◌+◌, ◌^◌, ◌<◌, ◌++◌, All, Ok, length, OnOk};
ghost use Rattle.std.specs.Int.{w16, to_be_bytes};
ghost use Rattle.std.specs.List.{flat_map};
ghost use Rattle.class_model.specs.Structure.{attribute_info, head};
ghost use Rattle.class_model.specs.ClassFile.{class_file};
ghost use Rattle.class_model.specs.CanonicalClass.{class_raw};
ghost use Rattle.class_model.specs.WriteLimits.{first_of, text_fits, body_fits};
ghost use Rattle.class_write.specs.bodies.Files.{names_text, interfaces_text, front_text};
ghost use Rattle.class_write.specs.bodies.Placing.{placed_bodies};
ghost use Rattle.class_write.specs.bodies.Writing.{Puts, HasFitting};

use crate::attributes::{mark_count, put_class_indices, put_marks, put_source};
use crate::fields::put_fields;
use crate::indices::class_index;
use crate::methods::put_methods;
use crate::placing::PlacedCode;
use class_model::{Class, WriteLimit};
use constant_table::{ConstantTable, put, put_u2};
use jv_base::{M, Name, Or};
use std::alloc::Global;

/// CAFEBABE, and version 52.0.
fn put_magic(out: &mut Vec<u8>) -> M<()>
    ensures { OnOk result (out.new.items ≡ out.old.items ++ head) }
{
    put(out, &[0xCA, 0xFE, 0xBA, 0xBE, 0, 0, 0, 52])
}

/// The access flags, the class and its superclass.
fn put_names(alloc: Global, pool: &ConstantTable, class: &Class, out: &mut Vec<u8>) -> M<()>
    requires { length pool.now + 1 < 2 ^ 16 }
    ensures { OnOk result (out.new.items ≡ out.old.items ++ names_text pool.now class.now) }
{
    put_u2(out, class.flags.0)?;
    put_u2(out, class_index(alloc, pool, &class.name)?)?;
    put_u2(out, class_index(alloc, pool, &class.super_name)?)
}

/// The interfaces, their count first.
fn put_interfaces(alloc: Global, pool: &ConstantTable, class: &Class, out: &mut Vec<u8>) -> M<()>
    requires pool { length pool.now + 1 < 2 ^ 16 }
    requires count { length class.now.interfaces < 2 ^ 16 }
    ensures { OnOk result (out.new.items ≡ out.old.items ++ interfaces_text pool.now class.now) }
{
    put_u2(out, class.interfaces.len() as u16)?;
    put_class_indices(alloc, pool, class.interfaces.as_slice(), out)
}

/// All in front of the methods, their count included.
fn put_front(alloc: Global, pool: &ConstantTable, class: &Class, out: &mut Vec<u8>) -> M<()>
    requires pool { length pool.now + 1 < 2 ^ 16 }
    requires texts { first_of text_fits pool.now ≡ Ok tt }
    requires interfaces { length class.now.interfaces < 2 ^ 16 }
    requires fields { length class.now.fields < 2 ^ 16 }
    requires methods { length class.now.methods < 2 ^ 16 }
    ensures { OnOk result (out.new.items ≡ out.old.items ++ front_text pool.now class.now) }
{
    put_magic(out)?;
    pool.put(alloc, out)?;
    put_names(alloc, pool, class, out)?;
    put_interfaces(alloc, pool, class, out)?;
    put_fields(alloc, pool, class.fields.as_slice(), out)?;
    put_u2(out, class.methods.len() as u16)
}

/// SourceFile, Synthetic and Deprecated, their count first.
fn put_class_attributes(
    alloc: Global,
    pool: &ConstantTable,
    class: &Class,
    out: &mut Vec<u8>,
) -> M<()>
    requires { length pool.now + 1 < 2 ^ 16 }
    ensures { let attributes = (class_raw pool.now class.now).attributes in OnOk result
        (out.new.items ≡ out.old.items ++ (to_be_bytes w16 (length attributes) ++ flat_map attribute_info attributes)) }
{
    let marks = mark_count(class.synthetic, class.deprecated);
    put_u2(out, u16::from(class.source.is_some()) + marks)?;
    put_source(alloc, pool, &class.source, out)?;
    put_marks(alloc, pool, class.synthetic, class.deprecated, out)
}

/// The whole file, or the limit that the first method passes whose code takes too many bytes.
pub fn put_class_file(
    alloc: Global,
    pool: &ConstantTable,
    class: &Class,
    placed: &[Option<PlacedCode>],
    out: &mut Vec<u8>,
) -> Result<(), Or<WriteLimit>>
    requires pool { length pool.now + 1 < 2 ^ 16 }
    requires texts { first_of text_fits pool.now ≡ Ok tt }
    requires interfaces { length class.now.interfaces < 2 ^ 16 }
    requires fields { length class.now.fields < 2 ^ 16 }
    requires methods { length class.now.methods < 2 ^ 16 }
    requires fitting { All (HasFitting pool.now) class.now.methods }
    requires placed { placed.now ≡ placed_bodies pool.now class.now.methods }
    ensures { Puts result out.old.items out.new.items (class_file (class_raw pool.now class.now))
        (first_of (body_fits pool.now class.now.name) class.now.methods) }
{
    put_front(alloc, pool, class, out)?;
    put_methods(
        alloc,
        pool,
        &class.name,
        class.methods.as_slice(),
        placed,
        out,
    )?;
    put_class_attributes(alloc, pool, class, out)?;
    Ok(())
}
