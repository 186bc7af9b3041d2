// Paths and directories.
ghost use Rattle.std.specs.Prelude.{◌≡◌, ◌<◌, IfSome, IfNone, IsTrue, drop, false, length, position};
ghost use Rattle.std.specs.Option.{option_copied};
ghost use Rattle.path_text.specs.Path.{EndsFirst, is_slash, is_segment, are_segments, without_root, is_path};
ghost use Rattle.path_text.specs.Path.{begins_with_slash, without_slash, directory_in, file_in, is_below};
ghost use Rattle.path_text.specs.Path.{stands_in_front};

fn is_segment(segment: &[u8]) -> bool
    ensures { result ≡ is_segment segment.now }
{
    !segment.is_empty() && segment != b".".as_slice() && segment != b"..".as_slice()
}

fn first_slash(text: &[u8]) -> Option<usize>
    ensures { result ≡ position is_slash text.now }
{
    text.iter().position(|byte| *byte == b'/')
}

// Where the first segment ends, if another one follows.
fn slash_in(text: &[u8]) -> Option<usize>
    ensures inside { IfSome result (λ at. at < length text.now) }
    ensures first { IfSome result (λ at. EndsFirst text.now at) }
    ensures only { IfNone result (are_segments text.now ≡ is_segment text.now) }
{
    first_slash(text)
}

fn are_segments(text: &[u8]) -> bool
    ensures { result ≡ are_segments text.now }
{
    let mut rest = text;
    while let Some(at) = slash_in(rest) {
        if !is_segment(&rest[..at]) {
            return false;
        }
        rest = &rest[at + 1..];
    }
    is_segment(rest)
}

fn without_root(text: &[u8]) -> &[u8]
    ensures { result.now ≡ without_root text.now }
{
    match text {
        [b'/', rest @ ..] => rest,
        _ => text,
    }
}

/// Whether a text is a path.
pub fn is_path(text: &str) -> bool
    ensures { result ≡ is_path text.now }
{
    are_segments(without_root(text.as_bytes()))
}

fn without_slash(text: &str) -> &str
    ensures { result.now ≡ without_slash text.now }
{
    match text.strip_suffix('/') {
        Some(front) => front,
        None => text,
    }
}

/// The directory that a word names, without its trailing `/`.
pub fn directory_in(word: &str) -> Option<&str>
    ensures { option_copied result ≡ directory_in word.now }
{
    let text = without_slash(word);
    if is_path(text) { Some(text) } else { None }
}

/// The file that a word names.
pub fn file_in(word: &str) -> Option<&str>
    ensures { option_copied result ≡ file_in word.now }
{
    if is_path(word) { Some(word) } else { None }
}

// What stands behind a directory at the front of a path.
fn rest_after<'a>(path: &'a [u8], directory: &[u8]) -> Option<&'a [u8]>
    ensures found { IfSome result (λ rest. IsTrue (stands_in_front path.now directory.now)
        × (rest.now ≡ drop (length directory.now) path.now)) }
    ensures none { IfNone result (stands_in_front path.now directory.now ≡ false) }
{
    path.strip_prefix(directory)
}

fn begins_with_slash(text: &[u8]) -> bool
    ensures { result ≡ begins_with_slash text.now }
{
    matches!(text, [b'/', ..])
}

/// Whether a path lies below a directory.
pub fn is_below(path: &str, directory: &str) -> bool
    ensures { result ≡ is_below path.now directory.now }
{
    match rest_after(path.as_bytes(), directory.as_bytes()) {
        Some(rest) => begins_with_slash(rest),
        None => false,
    }
}
