// UTF-16 units of strings (Java SE 8 API, String).
ghost use Rattle.std.specs.Prelude.{◌≡◌, ◌%◌, ◌^◌, ◌++◌, OnOk, pos, ◌-ℤ◌, length};
ghost use Rattle.std.specs.Fmt.{signed_decimal};
ghost use Rattle.std.specs.Int.{int_wrap, w32};
ghost use Rattle.jvm_model.specs.Library.{comparison, polynomial};

use itoa::Buffer;
use jv_base::M;

// The low 32 bits of s[0]*31^(n-1) + s[1]*31^(n-2) + ... + s[n-1].
fn polynomial(units: &[u16]) -> u32
    ensures { result ≡ polynomial units.now % 2 ^ 32 }
{
    let mut sum: u32 = 0;
    for unit in units {
        sum = sum.wrapping_mul(31).wrapping_add(u32::from(*unit));
    }
    sum
}

/// The hash code of a string, as an int (Java SE 8 API, String.hashCode).
pub(crate) fn hash_code(units: &[u16]) -> i32
    ensures { result ≡ int_wrap w32 (pos (polynomial units.now)) }
{
    polynomial(units).cast_signed()
}

/// How two strings compare: the difference of the first unlike units, else that of the lengths (Java SE 8 API,
/// String.compareTo).
pub(crate) fn comparison(left: &[u16], right: &[u16]) -> i64
    ensures { result ≡ comparison left.now right.now }
{
    let mut at = 0;
    while at < left.len() && at < right.len() {
        if left[at] != right[at] {
            return i64::from(left[at]) - i64::from(right[at]);
        }
        at += 1;
    }
    length_difference(left, right)
}

fn length_difference(left: &[u16], right: &[u16]) -> i64
    ensures { result ≡ pos (length left.now) -ℤ pos (length right.now) }
{
    left.len() as i64 - right.len() as i64
}

/// Appends a number in decimal (Java SE 8 API, String.valueOf).
pub(crate) fn push_decimal(out: &mut Vec<u16>, number: i64) -> M<()>
    ensures { OnOk result (out.new.items ≡ out.old.items ++ signed_decimal number) }
{
    let mut digits = Buffer::new();
    push_bytes(out, digits.format(number).as_bytes())
}

/// Appends a text of ASCII characters.
pub(crate) fn push_bytes(out: &mut Vec<u16>, bytes: &[u8]) -> M<()>
    ensures { OnOk result (out.new.items ≡ out.old.items ++ bytes.now) }
{
    for byte in bytes {
        out.push(u16::from(*byte))?;
    }
    Ok(())
}
