// Numbers of a class file, which are big-endian (JVMS 4).
ghost use Rattle.std.specs.Prelude.{◌≡◌, ◌++◌, OnOk};
ghost use Rattle.std.specs.Int.{w16, w32, to_be_bytes};

use jv_base::M;

pub fn put(out: &mut Vec<u8>, bytes: &[u8]) -> M<()>
    ensures { OnOk result (out.new.items ≡ out.old.items ++ bytes.now) }
{
    out.extend_from_slice(bytes)?;
    Ok(())
}

pub fn put_u2(out: &mut Vec<u8>, number: u16) -> M<()>
    ensures { OnOk result (out.new.items ≡ out.old.items ++ to_be_bytes w16 number) }
{
    put(out, &number.to_be_bytes())
}

pub fn put_u4(out: &mut Vec<u8>, number: u32) -> M<()>
    ensures { OnOk result (out.new.items ≡ out.old.items ++ to_be_bytes w32 number) }
{
    put(out, &number.to_be_bytes())
}
