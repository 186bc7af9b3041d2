// Workers in threads: two of them work at a time, and what one finds reaches the other.
use crate::gates::{Meeting, Move};
use crate::shrink::{files_of, words_of};
use jv_base::{Bytes, Items, M, Text};
use mark_core::{System, valid};
use mark_workers::mark_all;
use shrink_core::run;
use std::alloc::Global;
use std::process::Abort;
use std::test::Fail;
use std::thread::Threads;
use tree_io::{FileAt, Gate, MemorySink, MemoryTree};

// ---- systems

fn numbers_to(alloc: Global, first: u32, end: u32) -> M<Items<u32>> {
    let mut numbers = Items::new(alloc);
    for number in first..end {
        numbers.push(number)?;
    }
    Ok(numbers)
}

// So many items without needs.
fn no_needs(alloc: Global, n: u32) -> M<Vec<Items<u32>>> {
    let mut needs = Vec::with_capacity(alloc, n as usize)?;
    for _ in 0..n {
        needs.push(Items::new(alloc))?;
    }
    Ok(needs)
}

// So many seeds that need nothing.
fn seeds_alone(alloc: Global, n: u32) -> M<System> {
    Ok(System {
        n,
        seeds: numbers_to(alloc, 0, n)?,
        needs: Items::from_vec(no_needs(alloc, n)?),
        pairs: Items::new(alloc),
    })
}

// A million items, of which 0 is the one seed and needs those from 1 to 64.
fn one_seed_of_many(alloc: Global) -> M<System> {
    let n = 1_000_000;
    let mut needs = Vec::with_capacity(alloc, n as usize)?;
    needs.push(numbers_to(alloc, 1, 65)?)?;
    needs.append(&mut no_needs(alloc, n - 1)?)?;
    Ok(System {
        n,
        seeds: numbers_to(alloc, 0, 1)?,
        needs: Items::from_vec(needs),
        pairs: Items::new(alloc),
    })
}

// Lets two workers mark, and says how many items they marked; none where the system isn't valid.
fn marked_by_two(
    rt: &(impl Threads + Sync),
    alloc: Global,
    sys: &System,
    gate: &impl Gate,
) -> M<usize> {
    if !valid(sys) {
        return Ok(0);
    }
    let marked = mark_all(rt, alloc, sys, 2, gate)?;
    Ok(
        marked
            .marks()
            .as_slice()
            .iter()
            .filter(|mark| **mark)
            .count(),
    )
}

// ---- runs

// A class file of `Main` with 64 static methods, each of which returns.
pub(crate) fn many_methods(alloc: Global) -> M<Bytes> {
    let mut bytes =
        b"\xCA\xFE\xBA\xBE\0\0\0\x34\0\x47\x01\0\x04Main\x07\0\x01\x01\0\x10java/lang/Object\x07\0\x03\
\x01\0\x03()V\x01\0\x04Code"
            .to_vec(alloc)?;
    for number in 0u8..64 {
        let name = [1, 0, 2, b'a' + number / 8, b'a' + number % 8];
        bytes.append(&mut name.to_vec(alloc)?)?;
    }
    bytes.append(&mut b"\0\x21\0\x02\0\x04\0\0\0\0\0\x40".to_vec(alloc)?)?;
    for number in 7u8..71 {
        let method = [
            0, 9, 0, number, 0, 5, 0, 1, 0, 6, 0, 0, 0, 13, 0, 0, 0, 0, 0, 0, 0, 1, 0xB1, 0, 0, 0,
            0,
        ];
        bytes.append(&mut method.to_vec(alloc)?)?;
    }
    bytes.append(&mut b"\0\0".to_vec(alloc)?)?;
    Ok(Bytes::from_vec(bytes))
}

const KEEP_ALL: &[u8] =
    b"-injars in\n-outjars out\n-printmapping map.txt\n-dontshrink\n-dontobfuscate\n";

// Lets `shrink` mark that class by two workers, and answers its status.
fn shrunk_by_two(rt: &(impl Threads + Sync), alloc: Global, gate: &impl Gate) -> M<u8> {
    let mut files = files_of(alloc, &[("keep.pro", KEEP_ALL)])?;
    files.push(FileAt {
        path: Text::from_str(alloc, "in/Main.class")?,
        bytes: many_methods(alloc)?,
    })?;
    let words = words_of(alloc, &["shrink", "keep.pro", "wit.txt", "--workers=2"])?;
    let mut tree = MemoryTree::new(alloc, files, Items::new(alloc))?;
    let mut out = MemorySink::new(alloc, Items::new(alloc))?;
    Ok(run(rt, alloc, &words, &mut tree, &mut out, gate))
}

// ---- tests

#[test]
fn two_workers_meet(rt: HostRuntime) -> Result<(), Fail> {
    let meeting = Meeting::new();
    let sys = seeds_alone(rt.alloc(), 64)?;
    let marked = marked_by_two(&rt, rt.alloc(), &sys, &meeting)?;
    assert_eq!(rt; marked, 64);
    assert!(rt; meeting.took_place(), "by themselves");
    let meeting = Meeting::new();
    let status = shrunk_by_two(&rt, rt.alloc(), &meeting)?;
    assert_eq!(rt; status, 0);
    assert!(rt; meeting.took_place(), "in a run");
    Ok(())
}

// Whether the second worker took an item that the first one found.
fn moves_once(rt: &(impl Abort + Threads + Sync), alloc: Global, sys: &System) -> M<bool> {
    let moving = Move::new();
    let marked = marked_by_two(rt, alloc, sys, &moving)?;
    assert_eq!(rt; marked, 65);
    Ok(moving.took_place())
}

#[test]
fn items_move(rt: HostRuntime) -> Result<(), Fail> {
    let sys = one_seed_of_many(rt.alloc())?;
    let mut moved = false;
    for _ in 0..20 {
        moved = moved || moves_once(&rt, rt.alloc(), &sys)?;
    }
    assert!(rt; moved);
    Ok(())
}
