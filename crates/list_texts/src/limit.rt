// How long a list may be.
ghost use Rattle.std.specs.Prelude.{◌≡◌, ◌≤◌, ◌<◌, IfOk, length};
ghost use Rattle.list_texts.specs.bodies.Appends.{IsShort};

use jv_base::Or;

/// A list has more bytes than it may have.
#[derive(Clone, Copy, Debug, PartialEq, Eq)]
pub struct TooLong {
    /// How many it may have.
    pub limit: usize,
}

/// Whether a text has at most so many bytes.
pub(crate) fn check_length(text: &str, limit: usize) -> Result<(), Or<TooLong>>
    ensures { IsShort result limit text.now }
{
    if text.len() > limit {
        return Err(Or::Fault(TooLong { limit }));
    }
    Ok(())
}
