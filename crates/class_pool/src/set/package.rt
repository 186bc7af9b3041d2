// The packages of classes (JVMS 4.2.1, 5.3).
ghost use Rattle.std.specs.Prelude.{◌≡◌};
ghost use Rattle.class_pool.specs.Found.{package_of};

/// The name of a class without its last part: its package, of no bytes where that has no name.
pub(crate) fn package_of(name: &str) -> &[u8]
    ensures { result.now ≡ package_of name.now }
{
    let bytes = name.as_bytes();
    let mut end = bytes.len();
    while end > 0 && bytes[end - 1] != b'/' {
        end -= 1;
    }
    &bytes[..end.saturating_sub(1)]
}
