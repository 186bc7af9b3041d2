// The facts of a local variable as acts, one for each run of one int.
ghost use Rattle.std.specs.Prelude.{◌≡◌, ◌<◌, ◌≤◌, ◌++◌, ℕ, [], OnOk, length};
ghost use Rattle.std.specs.Prelude.{if◌then◌else◌};
ghost use Rattle.std.specs.List.{flat_map};
ghost use Rattle.code_edit.specs.ConstEdits.{Shut, runs};
ghost use Rattle.pass_const.specs.Known.{known_in};
ghost use Rattle.pass_const.specs.Running.{closed, kept, run_of, stepped};
ghost use Rattle.pass_const.specs.Taking.{marked_from};

use code_edit::Act;
use jv_base::{Items, M};

/// No run, or one that began at an index with an int.
#[derive(Clone, Copy)]
pub(crate) enum Running {
    Shut,
    Open(u32, i32),
}

/// Appends a fact for each maximal run of one int.
fn push_runs(slot: u32, known: &[Option<i32>], acts: &mut Vec<Act>) -> M<()>
    requires { length known.now < 4294967295 }
    ensures { OnOk result (acts.new.items ≡ acts.old.items ++ runs slot 0 Shut known.now) }
{
    let mut run = Running::Shut;
    let mut at = 0u32;
    for now in known {
        close(slot, at, run, *now, acts)?;
        run = next(at, run, *now);
        at += 1;
    }
    close(slot, at, run, None, acts)
}

/// Appends the fact of a run that goes no further.
fn close(slot: u32, at: u32, run: Running, now: Option<i32>, acts: &mut Vec<Act>) -> M<()>
    ensures { OnOk result (acts.new.items ≡ acts.old.items ++ closed slot at (run_of run) now) }
{
    if let Running::Open(from, value) = run {
        if !goes_on(value, now) {
            acts.push(Act::Fact {
                from,
                to: at.saturating_sub(1),
                slot,
                value,
            })?;
        }
    }
    Ok(())
}

fn goes_on(value: i32, now: Option<i32>) -> bool
    ensures { result ≡ kept value now }
{
    match now {
        Some(other) => value == other,
        None => false,
    }
}

/// The run after one more item.
fn next(at: u32, run: Running, now: Option<i32>) -> Running
    ensures { run_of result ≡ stepped at (run_of run) now }
{
    match now {
        Some(value) => match run {
            Running::Open(from, before) if before == value => run,
            _ => Running::Open(at, value),
        },
        None => Running::Shut,
    }
}

fn push_slot(slot: usize, lists: &[Items<Option<i32>>], acts: &mut Vec<Act>) -> M<()>
    requires slot { slot < 65536 }
    requires few { length (known_in lists.now slot) < 4294967295 }
    ensures { OnOk result
        (acts.new.items ≡ acts.old.items ++ runs slot 0 Shut (known_in lists.now slot)) }
{
    match lists.get(slot) {
        Some(known) => push_runs(slot as u32, known.as_slice(), acts),
        None => Ok(()),
    }
}

fn push_marked(slot: usize, mark: bool, lists: &[Items<Option<i32>>], acts: &mut Vec<Act>) -> M<()>
    requires slot { slot < 65536 }
    requires few { length (known_in lists.now slot) < 4294967295 }
    ensures { OnOk result (acts.new.items ≡ acts.old.items
        ++ (if mark then runs slot 0 Shut (known_in lists.now slot) else [])) }
{
    if mark {
        push_slot(slot, lists, acts)?;
    }
    Ok(())
}

/// Appends the facts of the marked local variables.
pub(crate) fn push_all_runs(
    lists: &[Items<Option<i32>>],
    taken: &[bool],
    acts: &mut Vec<Act>,
) -> M<()>
    requires slots { length taken.now ≤ 65536 }
    requires few { (slot : ℕ) → length (known_in lists.now slot) < 4294967295 }
    ensures { OnOk result (acts.new.items ≡ acts.old.items
        ++ flat_map (λ slot. runs slot 0 Shut (known_in lists.now slot))
        (marked_from 0 taken.now)) }
{
    let mut slot = 0;
    for mark in taken {
        push_marked(slot, *mark, lists, acts)?;
        slot += 1;
    }
    Ok(())
}
