// Marks that are made one after another.
ghost use Rattle.std.specs.Prelude.{◌≡◌, ◌+◌, ◌<◌};
ghost use Rattle.edit_legal.specs.Dropped.{taking};
ghost use Rattle.edit_tables.specs.Marks.{put};

/// One mark more.
pub(crate) fn mark(marks: &mut Vec<bool>, at: usize)
    ensures { marks.new.items ≡ put at marks.old.items }
{
    if at < marks.len() {
        marks[at] = true;
    }
}

/// Marks so many indices from one on.
pub(crate) fn mark_range(marks: &mut Vec<bool>, from: usize, count: usize)
    requires { from + count < 18446744073709551616 }
    ensures { marks.new.items ≡ taking from count marks.old.items }
{
    let mut at = from;
    for _ in 0..count {
        mark(marks, at);
        at += 1;
    }
}
