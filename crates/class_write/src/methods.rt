// Methods (JVMS 4.6).
ghost use Rattle.std.specs.Prelude.{◌≡◌, ◌+◌, ◌^◌, ◌<◌, ◌++◌, All, IfSome, length, map, codes, true, OnOk};
ghost use Rattle.std.specs.Int.{w16, to_be_bytes};
ghost use Rattle.std.specs.List.{flat_map};
ghost use Rattle.class_model.specs.Structure.{attribute_info, member_info};
ghost use Rattle.class_model.specs.CanonicalClass as canonical;
ghost use Rattle.class_model.specs.WriteLimits.{first_of, body_length_fits, contents_fit, body_fits};
ghost use Rattle.class_write.specs.bodies.Placing.{placed_code, placed_body, placed_bodies};
ghost use Rattle.class_write.specs.bodies.Writing.{Puts, FitsTables, HasFitting};

use crate::attributes::{mark_count, put_attribute, put_exceptions, put_marks};
use crate::contents::code_contents;
use crate::frames::first_frame;
use crate::indices::text_index;
use crate::placing::PlacedCode;
use class_model::{Code, Frame, Method, WriteLimit};
use constant_table::{ConstantTable, put_u2};
use jv_base::{M, Name, Or, method_text};
use std::alloc::Global;

/// A method_info in front of its attributes, their count included.
fn put_head(
    alloc: Global,
    pool: &ConstantTable,
    class: &Name,
    method: &Method,
    out: &mut Vec<u8>,
) -> M<()>
    requires { length pool.now + 1 < 2 ^ 16 }
    ensures { let raw = canonical.method_raw pool.now class.now method.now in OnOk result
        (out.new.items ≡ out.old.items ++ (to_be_bytes w16 raw.access_flags ++ (to_be_bytes w16 raw.name_index
        ++ (to_be_bytes w16 raw.descriptor_index ++ to_be_bytes w16 (length raw.attributes))))) }
{
    put_u2(out, method.flags.0)?;
    put_u2(out, text_index(alloc, pool, &method.name)?)?;
    put_u2(
        out,
        text_index(alloc, pool, &method_text(alloc, &method.ty)?)?,
    )?;
    let body = u16::from(method.code.is_some());
    let throws = u16::from(!method.throws.is_empty());
    put_u2(
        out,
        body + (throws + mark_count(method.synthetic, method.deprecated)),
    )
}

/// Exceptions, Synthetic and Deprecated.
fn put_other_attributes(
    alloc: Global,
    pool: &ConstantTable,
    method: &Method,
    out: &mut Vec<u8>,
) -> M<()>
    requires pool { length pool.now + 1 < 2 ^ 16 }
    requires throws { length method.now.throws < 2 ^ 16 }
    ensures { OnOk result (out.new.items ≡ out.old.items ++ flat_map attribute_info
        (canonical.attribute pool.now (canonical.is_some_item method.now.throws) (codes "Exceptions")
        (canonical.exceptions pool.now method.now.throws)
        ++ canonical.mark_attributes pool.now method.now.synthetic method.now.deprecated)) }
{
    put_exceptions(alloc, pool, method.throws.as_slice(), out)?;
    put_marks(alloc, pool, method.synthetic, method.deprecated, out)
}

/// The attribute Code of a method that begins with this frame, or the limit that its length passes.
fn put_code(
    alloc: Global,
    pool: &ConstantTable,
    first: &Frame,
    code: &Code,
    placed: &PlacedCode,
    out: &mut Vec<u8>,
) -> Result<(), Or<WriteLimit>>
    requires pool { length pool.now + 1 < 2 ^ 16 }
    requires code { FitsTables pool.now code.now }
    requires placed { placed.now ≡ placed_code pool.now code.now }
    ensures { let contents = canonical.code_contents pool.now first.now.locals code.now in Puts result out.old.items
        out.new.items
        (flat_map attribute_info (canonical.attribute pool.now true (codes "Code") contents))
        (body_length_fits (length contents)) }
{
    let info = code_contents(alloc, pool, first, code, placed)?;
    put_attribute(alloc, pool, true, "Code", &info, out)?;
    Ok(())
}

/// The attribute Code of a method that has a code.
fn put_body(
    alloc: Global,
    pool: &ConstantTable,
    class: &Name,
    method: &Method,
    placed: &Option<PlacedCode>,
    out: &mut Vec<u8>,
) -> Result<(), Or<WriteLimit>>
    requires pool { length pool.now + 1 < 2 ^ 16 }
    requires body { IfSome method.now.code (FitsTables pool.now) }
    requires placed { placed.now ≡ placed_body pool.now method.now.code }
    ensures { Puts result out.old.items out.new.items
        (flat_map attribute_info (canonical.body_attributes pool.now
        (canonical.first_locals class.now method.now) method.now.code))
        (contents_fit pool.now class.now method.now method.now.code) }
{
    match (&method.code, placed) {
        (Some(code), Some(placed)) => {
            let first = first_frame(alloc, class, method)?;
            put_code(alloc, pool, &first, code, placed, out)
        }
        _ => Ok(()),
    }
}

/// method_info (JVMS 4.6), or the limit that its code passes.
fn put_method(
    alloc: Global,
    pool: &ConstantTable,
    class: &Name,
    method: &Method,
    placed: &Option<PlacedCode>,
    out: &mut Vec<u8>,
) -> Result<(), Or<WriteLimit>>
    requires pool { length pool.now + 1 < 2 ^ 16 }
    requires method { HasFitting pool.now method.now }
    requires placed { placed.now ≡ placed_body pool.now method.now.code }
    ensures { Puts result out.old.items out.new.items (member_info (canonical.method_raw pool.now class.now method.now))
        (body_fits pool.now class.now method.now) }
{
    put_head(alloc, pool, class, method, out)?;
    put_body(alloc, pool, class, method, placed, out)?;
    put_other_attributes(alloc, pool, method, out)?;
    Ok(())
}

/// The methods, one behind the other, or the limit that the first of them passes whose code takes too many bytes.
pub fn put_methods(
    alloc: Global,
    pool: &ConstantTable,
    class: &Name,
    methods: &[Method],
    placed: &[Option<PlacedCode>],
    out: &mut Vec<u8>,
) -> Result<(), Or<WriteLimit>>
    requires pool { length pool.now + 1 < 2 ^ 16 }
    requires methods { All (HasFitting pool.now) methods.now }
    requires placed { placed.now ≡ placed_bodies pool.now methods.now }
    ensures { Puts result out.old.items out.new.items
        (flat_map member_info (map (canonical.method_raw pool.now class.now) methods.now))
        (first_of (body_fits pool.now class.now) methods.now) }
{
    for (number, method) in methods.iter().enumerate() {
        put_method(alloc, pool, class, method, &placed[number], out)?;
    }
    Ok(())
}
