// What words ask for.
use jv_base::{Items, Text};

/// A command with its operands, as words ask for it. Files and directories are paths, and an entry is a text
/// `class.name(types)`.
#[derive(Drop)]
pub enum Command {
    /// `shrink CONFIG WITNESS`, by so many workers
    Shrink {
        config: Text,
        witness: Text,
        workers: u32,
    },
    /// `check CONFIG WITNESS`
    Check {
        config: Text,
        witness: Text,
    },
    /// `retrace MAPPING TRACE`
    Retrace {
        mapping: Text,
        trace: Text,
    },
    /// `gen NUMBER DIRECTORY`, with a number from 1 to 4,000
    Gen {
        number: u32,
        directory: Text,
    },
    /// `why CONFIG ITEM`, with any text for an item
    Why {
        config: Text,
        item: Text,
    },
    /// `run DIRECTORY ENTRY STEPS WORD..`, with a number of steps up to 100,000,000
    Run {
        directory: Text,
        entry: Text,
        steps: u32,
        words: Items<Text>,
    },
    /// `compare CONFIG ENTRY STEPS WORD..`, with a number of steps up to 100,000,000
    Compare {
        config: Text,
        entry: Text,
        steps: u32,
        words: Items<Text>,
    },
}
