// Values that texts tell, each kept once.
ghost use Rattle.std.specs.Prelude.{ℕ, List, IfOk, IfSome};
ghost use Rattle.text_lines.specs.bodies.Shared.{HasTold, KeepsTold};

use jv_base::M;
use std::alloc::Global;
use std::collections::BTreeMap;

/// A value that a text tells.
pub(crate) trait Told {
    // The text tells the value.
    ghost told_by: { List ℕ → Self → Type 0 };
}

/// Values by texts, behind their marks.
type Tree<'a, V> = BTreeMap<(u64, &'a str), V>;

/// A value for each of some texts. The mark of a text says in which of the trees it stands. There few texts are
/// compared, since marks come first; where many texts have one mark, a look-up still takes the logarithm of how many
/// there are.
pub(crate) type Trees<'a, V> = Vec<Tree<'a, V>>;

/// No value yet, in so many trees.
pub(crate) fn no_values<'a, V: Told + Drop>(alloc: Global, count: usize) -> M<Trees<'a, V>>
    ensures { IfOk result (λ trees. KeepsTold V.told_by trees.items) }
{
    let mut trees = Vec::with_capacity(alloc, count)?;
    for _ in 0..count {
        trees.push(BTreeMap::new(alloc))?;
    }
    Ok(trees)
}

/// The value that is kept for a text, if one is.
pub(crate) fn kept_value<'t, 'a, V: Told>(trees: &'t Trees<'a, V>, text: &'a str) -> Option<&'t V>
    requires { KeepsTold V.told_by trees.now.items }
    ensures { IfSome result (λ value. V.told_by text.now value.now) }
{
    let mark = mark_of(text);
    let at = place_of(mark, trees.len());
    if at < trees.len() {
        value_in(&trees[at], mark, text)
    } else {
        None
    }
}

/// Keeps a value for the text that tells it.
pub(crate) fn keep_value<'a, V: Told + Drop>(
    trees: &mut Trees<'a, V>,
    text: &'a str,
    value: V,
) -> M<()>
    requires told { V.told_by text.now value }
    requires kept { KeepsTold V.told_by trees.old.items }
    ensures { KeepsTold V.told_by trees.new.items }
{
    let mark = mark_of(text);
    let at = place_of(mark, trees.len());
    if at >= trees.len() {
        return Ok(());
    }
    put_in_tree(&mut trees[at], mark, text, value)
}

// A number by which most texts are told apart (FNV-1a, the hash of Fowler, Noll and Vo).
fn mark_of(text: &str) -> u64 {
    let mut mark = 0xcbf2_9ce4_8422_2325u64;
    for byte in text.as_bytes() {
        mark = (mark ^ u64::from(*byte)).wrapping_mul(0x100_0000_01b3);
    }
    mark
}

// Which of so many trees a mark stands for.
fn place_of(mark: u64, count: usize) -> usize {
    if count == 0 {
        return 0;
    }
    (mark % count as u64) as usize
}

fn value_in<'t, 'a, V: Told>(tree: &'t Tree<'a, V>, mark: u64, text: &'a str) -> Option<&'t V>
    requires { HasTold V.told_by tree.now }
    ensures { IfSome result (λ value. V.told_by text.now value.now) }
{
    tree.get(&(mark, text))
}

fn put_in_tree<'a, V: Told + Drop>(
    tree: &mut Tree<'a, V>,
    mark: u64,
    text: &'a str,
    value: V,
) -> M<()>
    requires told { V.told_by text.now value }
    requires kept { HasTold V.told_by tree.old }
    ensures { HasTold V.told_by tree.new }
{
    tree.insert((mark, text), value)?;
    Ok(())
}
