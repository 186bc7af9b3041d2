// Texts in parts.
ghost use Rattle.std.specs.Prelude.{◌≡◌, ◌<◌};
ghost use Rattle.std.specs.Option.{option_copied};
ghost use Rattle.text_lines.specs.Cut.{after, cut, parts_copied};

/// What stands before and behind the first byte of this kind, which is one of ASCII.
pub fn cut(text: &str, byte: char) -> Option<(&str, &str)>
    requires { byte < 128 }
    ensures { parts_copied result ≡ cut byte text.now }
{
    text.split_once(byte)
}

/// What stands behind a front, where the text begins so.
pub fn after<'a>(text: &'a str, front: &str) -> Option<&'a str>
    ensures { option_copied result ≡ after front.now text.now }
{
    text.strip_prefix(front)
}
