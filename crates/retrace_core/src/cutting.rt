// Lines in parts.
ghost use Rattle.std.specs.Prelude.{◌≡◌, ◌<◌, ◌≤◌, length, IfSome};
ghost use Rattle.std.specs.Option.{option_copied};
ghost use Rattle.retrace_core.specs.Cut.{begins, behind, last_place_of, place_of};

/// Where the first such byte stands.
pub(crate) fn place_of(byte: u8, text: &[u8]) -> Option<usize>
    ensures is { result ≡ place_of byte text.now }
    ensures within { IfSome result (λ n. n < length text.now) }
{
    text.iter().position(|b| *b == byte)
}

/// Where the last such byte stands.
pub(crate) fn last_place_of(byte: u8, text: &[u8]) -> Option<usize>
    ensures is { result ≡ last_place_of byte text.now }
    ensures within { IfSome result (λ n. n < length text.now) }
{
    let mut found = None;
    for (at, b) in text.iter().enumerate() {
        if *b == byte {
            found = Some(at);
        }
    }
    found
}

/// What stands behind a front, where the text begins so.
pub(crate) fn behind<'a>(front: &[u8], text: &'a [u8]) -> Option<&'a [u8]>
    ensures { option_copied result ≡ behind front.now text.now }
{
    if text.starts_with(front) {
        Some(&text[front.len()..])
    } else {
        None
    }
}
