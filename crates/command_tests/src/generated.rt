// Generated classes, which are more than one worker takes: what is written and said is the same for each number of
// workers.
use crate::shrink::{expect_end, files_of, text};
use jv_base::{Items, M, Text};
use std::alloc::Global;
use std::process::Abort;
use std::test::Fail;
use std::thread::Threads;
use tree_io::{MemoryTree, Tree};

const KEEP_F: &[u8] = b"-injars in\n-outjars out\n-printmapping map.txt\n\
-keep class g.C0 { public static int f(int); }\n";

// Half of the classes are kept, each with three methods that have a code; one of these is edited.
const SUMMARY: &str = "classes 201 101\nfields 0 0\nmethods 601 301\nedited 100\nfallback 0\n";

// Appends the bytes of a file behind its path.
fn add_file(alloc: Global, tree: &MemoryTree, path: &Text, all: &mut Vec<u8>) -> M<()> {
    all.extend_from_slice(path.as_bytes())?;
    if let Some(bytes) = tree.file(alloc, path)? {
        all.extend_from_slice(bytes.as_slice())?;
    }
    Ok(())
}

// All files that were written, one behind the other.
fn all_written(alloc: Global, tree: &mut MemoryTree) -> M<Vec<u8>> {
    let mut all = Vec::new(alloc);
    for path in ["map.txt", "wit.txt"] {
        add_file(alloc, tree, &text(alloc, path)?, &mut all)?;
    }
    if let Ok(paths) = tree.list(alloc, &text(alloc, "out")?, 1000) {
        for below in paths.as_slice() {
            let path = format!(in alloc; "out/{}", below.as_str())?;
            add_file(alloc, tree, &Text::from_string(alloc, path)?, &mut all)?;
        }
    }
    Ok(all)
}

// What `shrink` writes of 201 generated classes by so many workers.
fn written_by(rt: &(impl Abort + Threads + Sync), alloc: Global, workers: &str) -> M<Vec<u8>> {
    let files = files_of(alloc, &[("keep.pro", KEEP_F)])?;
    let mut tree = MemoryTree::new(alloc, files, Items::new(alloc))?;
    let making = ["gen", "100", "in"];
    expect_end(rt, alloc, &making, &mut tree, 0, "classes 201\n")?;
    let shrinking = ["shrink", "keep.pro", "wit.txt", workers];
    expect_end(rt, alloc, &shrinking, &mut tree, 0, SUMMARY)?;
    all_written(alloc, &mut tree)
}

#[test]
fn workers_write_the_same(rt: HostRuntime) -> Result<(), Fail> {
    let alloc = rt.alloc();
    let alone = written_by(&rt, alloc, "--workers=1")?;
    assert!(rt; alone.len() > 40_000, "little is written");
    for workers in ["--workers=2", "--workers=4", "--workers=64"] {
        let written = written_by(&rt, alloc, workers)?;
        assert!(rt; written == alone, "{workers}");
    }
    Ok(())
}
