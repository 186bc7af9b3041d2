// Names in internal form (JVMS 4.2).
ghost use Rattle.std.specs.Prelude.{◌≡◌, false};
ghost use Rattle.jv_base.specs.Names.{all_name_bytes, is_class_name, is_primitive_or_void, is_member_name};
ghost use Rattle.jv_base.specs.Names.{is_method_name, is_name_byte, part_after, parts_whole};

/// Whether a text is the name of a field, or of a method that initialises nothing (JVMS 4.2.2): at least one
/// character, each an ASCII letter or digit, `_`, `$`, `-` or one from U+0080 on.
#[tactic(auto, unfolding(crate::specs::Names::is_member_name))]
pub fn is_member_name(text: &str) -> bool
    ensures { result ≡ is_member_name text.now }
{
    !text.is_empty() && all_name_bytes(text.as_bytes())
}

/// Whether a text is the name of a method (JVMS 4.2.2): a member's name, `<init>` or `<clinit>`.
#[tactic(auto, unfolding(crate::specs::Names::is_method_name))]
pub fn is_method_name(text: &str) -> bool
    ensures { result ≡ is_method_name text.now }
{
    is_member_name(text) || text == "<init>" || text == "<clinit>"
}

/// Whether a text is the name of a class or an interface (JVMS 4.2.1): such parts, joined by `/`. A word that
/// stands for another type in Java source, as `int`, is none.
#[tactic(auto, using(crate::proofs::Naming::class_name_is))]
pub fn is_class_name(text: &str) -> bool
    ensures { result ≡ is_class_name text.now }
{
    has_whole_parts(text.as_bytes()) && !is_primitive_or_void(text)
}

#[tactic(auto, unfolding(crate::specs::Names::is_primitive_or_void))]
fn is_primitive_or_void(text: &str) -> bool
    ensures { result ≡ is_primitive_or_void text.now }
{
    matches!(
        text,
        "boolean" | "byte" | "char" | "short" | "int" | "long" | "float" | "double" | "void"
    )
}

fn has_whole_parts(bytes: &[u8]) -> bool
    ensures { result ≡ parts_whole false bytes.now }
{
    let mut in_part = false;
    for byte in bytes {
        if *byte == b'/' {
            if !in_part {
                return false;
            }
            in_part = false;
        } else {
            if !is_name_byte(*byte) {
                return false;
            }
            in_part = true;
        }
    }
    in_part
}

fn all_name_bytes(bytes: &[u8]) -> bool
    ensures { result ≡ all_name_bytes bytes.now }
{
    for byte in bytes {
        if !is_name_byte(*byte) {
            return false;
        }
    }
    true
}

/// In UTF-8 a character from U+0080 on has no byte below 128, and each other one is a single byte. So bytes
/// can be tested in place of characters.
#[tactic(auto, unfolding(crate::specs::Names::is_name_byte))]
fn is_name_byte(byte: u8) -> bool
    ensures { result ≡ is_name_byte byte }
{
    matches!(byte, 128..=255 | b'0'..=b'9' | b'A'..=b'Z' | b'a'..=b'z' | b'_' | b'$' | b'-')
}

/// Whether a part of a class name is begun where it goes on with a byte, if it can.
#[tactic(auto, unfolding(crate::specs::Names::part_after))]
pub(crate) fn part_after(in_part: bool, byte: u8) -> Option<bool>
    ensures { result ≡ part_after in_part byte }
{
    match byte {
        b'/' if in_part => Some(false),
        b'/' => None,
        _ if is_name_byte(byte) => Some(true),
        _ => None,
    }
}
