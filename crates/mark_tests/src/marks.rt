ghost use Rattle.std.specs.Prelude.{◌≤◌};
ghost use Rattle.mark_core.specs.Valid.{Valid};

use jv_base::{Items, M};
use mark_core::{Pair, System, plain_marks, valid};
use mark_workers::mark_all;
use std::alloc::Global;
use std::test::Fail;
use std::thread::Threads;
use tree_io::OpenGate;

/// The number of items, the seeds, what each item needs, and pairs, each with what it marks.
type Row<'a> = (u32, &'a [u32], &'a [&'a [u32]], &'a [[u32; 3]]);

fn lists(alloc: Global, needs: &[&[u32]]) -> M<Items<Items<u32>>> {
    let mut lists = Items::new(alloc);
    for list in needs {
        lists.push(Items::from_vec(list.to_vec(alloc)?))?;
    }
    Ok(lists)
}

fn pairs(alloc: Global, rows: &[[u32; 3]]) -> M<Items<Pair>> {
    let mut pairs = Items::new(alloc);
    for [one, two, derived] in rows {
        pairs.push(Pair {
            one: *one,
            two: *two,
            derived: *derived,
        })?;
    }
    Ok(pairs)
}

fn system(alloc: Global, row: &Row) -> M<System> {
    let seeds = Items::from_vec(row.1.to_vec(alloc)?);
    let needs = lists(alloc, row.2)?;
    let pairs = pairs(alloc, row.3)?;
    Ok(System {
        n: row.0,
        seeds,
        needs,
        pairs,
    })
}

// ---- marks

// Systems, with the marks of their items.
const MARKED: &[(Row<'static>, &[bool])] = &[
    ((3, &[0, 1], &[&[], &[], &[]], &[[0, 1, 2]]), &[true; 3]),
    (
        (3, &[0], &[&[], &[], &[]], &[[0, 1, 2]]),
        &[true, false, false],
    ),
    (
        (3, &[1], &[&[], &[], &[]], &[[1, 1, 0]]),
        &[true, true, false],
    ),
    (
        (5, &[0], &[&[3], &[], &[1], &[2, 3], &[0]], &[]),
        &[true, true, true, true, false],
    ),
    (
        (
            5,
            &[0],
            &[&[1], &[], &[], &[4], &[]],
            &[[2, 0, 3], [1, 0, 2]],
        ),
        &[true; 5],
    ),
    ((0, &[], &[], &[]), &[]),
];

// Whether so many workers find these marks.
fn is_marked_by(
    rt: &(impl Threads + Sync),
    alloc: Global,
    sys: &System,
    workers: u32,
    marks: &[bool],
) -> M<bool>
    requires valid { Valid sys.now }
    requires workers { (1 ≤ workers) × (workers ≤ 64) }
{
    let found = mark_all(rt, alloc, sys, workers, &OpenGate)?;
    Ok(found.marks().as_slice() == marks)
}

fn has_marks(rt: &(impl Threads + Sync), alloc: Global, sys: &System, marks: &[bool]) -> M<bool> {
    if !valid(sys) {
        return Ok(false);
    }
    let found = plain_marks(alloc, sys)?;
    let by_one = is_marked_by(rt, alloc, sys, 1, marks)?;
    let by_two = is_marked_by(rt, alloc, sys, 2, marks)?;
    let by_most = is_marked_by(rt, alloc, sys, 64, marks)?;
    Ok(found.as_slice() == marks && by_one && by_two && by_most)
}

fn is_marked(rt: &(impl Threads + Sync), alloc: Global, row: &Row, marks: &[bool]) -> M<bool> {
    let sys = system(alloc, row)?;
    has_marks(rt, alloc, &sys, marks)
}

#[test]
fn needs_and_pairs_are_followed_to_their_end(rt: HostRuntime) -> Result<(), Fail> {
    for (row, marks) in MARKED {
        assert!(rt; is_marked(&rt, rt.alloc(), row, marks)?);
    }
    Ok(())
}

// ---- valid systems

// Systems, with whether each item is below the number of items and has its list.
const JUDGED: &[(Row<'static>, bool, &str)] = &[
    ((0, &[], &[], &[]), true, "no item"),
    ((2, &[1, 0], &[&[1], &[]], &[[1, 1, 0]]), true, "two items"),
    ((2, &[0, 2], &[&[1], &[]], &[]), false, "a seed"),
    ((2, &[0], &[&[], &[0, 2]], &[]), false, "a need"),
    (
        (2, &[], &[&[1], &[]], &[[2, 0, 0]]),
        false,
        "the first of a pair",
    ),
    (
        (2, &[], &[&[1], &[]], &[[0, 2, 0]]),
        false,
        "the second of a pair",
    ),
    ((2, &[], &[&[1], &[]], &[[0, 0, 2]]), false, "a consequence"),
    ((2, &[], &[&[], &[], &[]], &[]), false, "a list too many"),
    ((2, &[], &[], &[]), false, "no list"),
];

fn is_valid(alloc: Global, row: &Row) -> M<bool> {
    let sys = system(alloc, row)?;
    Ok(valid(&sys))
}

#[test]
fn a_system_is_valid_where_each_item_is_below_n_and_has_its_list(
    rt: HostRuntime,
) -> Result<(), Fail> {
    for (row, valid, what) in JUDGED {
        assert!(rt; is_valid(rt.alloc(), row)? == *valid, "{what}");
    }
    Ok(())
}
