// The rows of a LineNumberTable: one at each instruction with a line that differs from that of the instruction before
// (JVMS 4.7.12).
ghost use Rattle.std.specs.Prelude.{◌≡◌, ◌≤◌, ℕ, List, [], length, None};
ghost use Rattle.class_model.specs.CanonicalClass as canonical;

use class_model::Ins;

/// Whether an instruction with this line has a row, behind one with the line before: 1 if so, else 0.
fn row_count(before: Option<u16>, line: Option<u16>) -> usize
    ensures count { (place : ℕ) → length (canonical.line_row before place line) ≡ result }
    ensures most { result ≤ 1 }
{
    match (before, line) {
        (_, None) => 0,
        (None, Some(_)) => 1,
        (Some(before), Some(line)) => usize::from(line != before),
    }
}

/// How many rows the instructions of a code have.
pub fn line_count(ins: &[Ins]) -> usize
    ensures count { result ≡ length (canonical.line_rows None [] ins.now) }
    ensures anywhere { (all : List ℕ) → length (canonical.line_rows None all ins.now) ≡ result }
{
    let mut count = 0;
    let mut before = None;
    for instruction in ins {
        count += row_count(before, instruction.line);
        before = instruction.line;
    }
    count
}

/// Whether the instructions of a code have a row.
pub fn has_rows(ins: &[Ins]) -> bool
    ensures { result ≡ canonical.is_some_item (canonical.line_rows None [] ins.now) }
{
    line_count(ins) != 0
}
