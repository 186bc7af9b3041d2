// Counts that have a limit.
ghost use Rattle.std.specs.Prelude.{◌≡◌};
ghost use Rattle.require_sys.specs.Limits.{counted_limit, counted_name};

/// What is counted of a system.
#[derive(Clone, Copy, PartialEq, Eq)]
pub enum Counted {
    /// The classes and members of the set.
    Items,
    /// What the items need, each with its own.
    Needs,
    /// The pairs of items that need a third one together.
    Pairs,
}

impl Counted {
    /// Its name, as it stands in texts.
    pub fn name(self) -> &'static str
        ensures { result.now ≡ counted_name self }
    {
        match self {
            Counted::Items => "items",
            Counted::Needs => "needs",
            Counted::Pairs => "pairs",
        }
    }

    /// The greatest number that it may be.
    pub fn limit(self) -> u64
        ensures { result ≡ counted_limit self }
    {
        match self {
            Counted::Items => 1_048_576,
            Counted::Needs | Counted::Pairs => 16_777_216,
        }
    }
}

/// A count that passes its limit.
#[derive(Clone, Copy, PartialEq, Eq)]
pub struct TooMany {
    pub what: Counted,
    pub count: u64,
}
