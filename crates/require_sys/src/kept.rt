// What rules ask of a set.
use jv_base::Items;

/// What the rules of a config ask of a set of classes. Items are numbered in the order of the set: each class, then its
/// fields, then its methods.
#[derive(Drop)]
pub struct KeptByRules {
    /// False where nothing is to be dropped, whatever the rules say.
    pub shrink: bool,
    /// The items that rules keep, ascending and each once.
    pub seeds: Items<u32>,
    /// For each class the numbers of its members that rules on members alone keep where the class is kept. Fields are
    /// numbered from 0, and methods behind them.
    pub members: Items<Items<u32>>,
    /// Whether the attribute Exceptions is kept (JVMS 4.7.5).
    pub exceptions: bool,
}
