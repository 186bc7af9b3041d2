// What values are found by.
ghost use Rattle.std.specs.Prelude.{◌≡◌};
ghost use Rattle.std.specs.List.{fold};
ghost use Rattle.key_table.specs.Marks.{joined, list_mark, with_mark};

use jv_base::{Items, Text};

/// What values are found by: it has an order, and a number, its mark, by which most keys are told apart at little cost.
pub trait Key: Ord + Clone {
    ghost use Rattle.std.specs.Prelude.{◌≡◌, ℕ, true};

    ghost mark: { Self → ℕ };

    /// The mark; equal keys have one.
    fn mark(&self) -> u64
        ensures { result ≡ mark self.now };

    ghost one_mark: { (a b : Self) → Self.eq a b ≡ true → mark a ≡ mark b };

    ghost copies: { (a b : Self) → Self.is_clone a b → b ≡ a };
}

impl Key for Text {
    ghost use Rattle.std.proofs.Common.{ap};
    ghost use Rattle.jv_base.proofs.Equality.{same_text};
    ghost use Rattle.key_table.specs.Marks.{text_mark};

    ghost mark = { text_mark };

    ghost one_mark = { λ a b same. ap text_mark (same_text a b same) };

    ghost copies = { λ a b is. is };

    fn mark(&self) -> u64 {
        mark_of_last(self.as_bytes())
    }
}

impl<A: Key, B: Key> Key for (A, B) {
    ghost use Rattle.key_table.specs.Marks.{joined, one_pair_mark, pair_copies};

    ghost mark = { λ key. joined (A.mark key.0) (B.mark key.1) };

    ghost one_mark = { one_pair_mark A.eq B.eq A.mark B.mark A.one_mark B.one_mark };

    ghost copies = { pair_copies A.is_clone B.is_clone A.copies B.copies };

    fn mark(&self) -> u64 {
        joined(self.0.mark(), self.1.mark())
    }
}

impl Key for u8 {
    ghost use Rattle.std.specs.Cmp.{unsigned_Decides};

    ghost mark = { λ byte. byte };

    ghost one_mark = { λ a b same. (unsigned_Decides a b).0 same };

    ghost copies = { λ a b is. is };

    fn mark(&self) -> u64 {
        u64::from(*self)
    }
}

impl Key for u16 {
    ghost use Rattle.std.specs.Cmp.{unsigned_Decides};

    ghost mark = { λ unit. unit };

    ghost one_mark = { λ a b same. (unsigned_Decides a b).0 same };

    ghost copies = { λ a b is. is };

    fn mark(&self) -> u64 {
        u64::from(*self)
    }
}

impl<T: Key> Key for Items<T> {
    ghost use Rattle.key_table.specs.Marks.{list_copies, list_mark, one_list_mark};

    ghost mark = { list_mark T.mark };

    ghost one_mark = { one_list_mark T.eq T.mark T.one_mark };

    ghost copies = { list_copies T.is_clone T.copies };

    fn mark(&self) -> u64 {
        mark_of_last(self.as_slice())
    }
}

/// The mark of a list: the last 32 items count, since names that end alike mostly differ in them.
fn mark_of_last<T: Key>(items: &[T]) -> u64
    ensures { result ≡ list_mark T.mark items.now }
{
    let start = items.len().saturating_sub(32);
    mark_of(&items[start..])
}

/// The marks of some items as one.
fn mark_of<T: Key>(items: &[T]) -> u64
    ensures { result ≡ fold (with_mark T.mark) 0 items.now }
{
    let mut mark = 0u64;
    for item in items {
        mark = joined(mark, item.mark());
    }
    mark
}

/// Two marks as one, for keys that have parts.
pub fn joined(mark: u64, other: u64) -> u64
    ensures { result ≡ joined mark other }
{
    mark.wrapping_mul(1_099_511_628_211).wrapping_add(other)
}
