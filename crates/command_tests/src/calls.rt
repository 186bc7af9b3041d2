// What each command asks of the tree: it reads each file once that is due, in its order, and lists no other directory.
use crate::shrink::{Row, files_of, words_of};
use jv_base::{Bytes, Items, M, Text};
use shrink_core::run;
use std::alloc::Global;
use std::process::Abort;
use std::test::Fail;
use std::thread::Threads;
use tree_io::{ListFault, MemorySink, MemoryTree, OpenGate, ReadFault, Tree, WriteFault};

// ---- a tree that tells what it was asked

// Each call is told by its word and its path, in the order of the calls.
#[derive(Drop)]
struct ToldTree<T> {
    tree: T,
    calls: Items<Text>,
}

fn told(alloc: Global, call: &str, path: &Text) -> M<Text> {
    let path = path.as_str();
    Ok(Text::from_string(alloc, format!(in alloc; "{call} {path}")?)?)
}

// One call more; where memory is wanting for it, it is missing.
fn tell(alloc: Global, calls: &mut Items<Text>, call: &str, path: &Text) -> M<()> {
    let text = told(alloc, call, path)?;
    calls.push(text)?;
    Ok(())
}

impl<T: Tree> Tree for ToldTree<T> {
    ghost files = { λ t. T.files t.tree };

    ghost faults = { λ t. T.faults t.tree };

    ghost log = { λ t. T.log t.tree };

    fn list(&mut self, alloc: Global, dir: &Text, max: u32) -> Result<Items<Text>, ListFault> {
        let _told = tell(alloc, &mut self.calls, "list", dir);
        self.tree.list(alloc, dir, max)
    }

    fn read(&mut self, alloc: Global, path: &Text, max: u64) -> Result<Bytes, ReadFault> {
        let _told = tell(alloc, &mut self.calls, "read", path);
        self.tree.read(alloc, path, max)
    }

    fn write(&mut self, alloc: Global, path: &Text, bytes: &[u8]) -> Result<(), WriteFault> {
        let _told = tell(alloc, &mut self.calls, "write", path);
        self.tree.write(alloc, path, bytes)
    }
}

// ---- runs

// The rules keep all, under its names.
const KEEP_ALL: &[u8] =
    b"-injars in\n-outjars out\n-printmapping map.txt\n-dontshrink\n-dontobfuscate\n";

const FILES: &[Row<'_>] = &[("shrink.pro", KEEP_ALL), ("trace.txt", b"")];

// A run of a command: its words, its status, and what it asks.
type Asked<'a> = (&'a [&'a str], u8, &'a [&'a str]);

// The input is made, and shrunk; both are looked at by each of the other commands, and nothing is shrunk onto it.
const RUNS: &[Asked<'_>] = &[
    (
        &["gen", "1", "in"],
        0,
        &[
            "list in",
            "write in/g/C0.class",
            "write in/g/D0.class",
            "write in/g/I.class",
        ],
    ),
    (
        &["shrink", "shrink.pro", "wit.txt"],
        0,
        &[
            "read shrink.pro",
            "list out",
            "list in",
            "read in/g/C0.class",
            "read in/g/D0.class",
            "read in/g/I.class",
            "write out/g/C0.class",
            "write out/g/D0.class",
            "write out/g/I.class",
            "write map.txt",
            "write wit.txt",
        ],
    ),
    (
        &["check", "shrink.pro", "wit.txt"],
        0,
        &[
            "read shrink.pro",
            "read map.txt",
            "read wit.txt",
            "list in",
            "read in/g/C0.class",
            "read in/g/D0.class",
            "read in/g/I.class",
            "list out",
            "read out/g/C0.class",
            "read out/g/D0.class",
            "read out/g/I.class",
        ],
    ),
    (
        &["why", "shrink.pro", "g.I"],
        0,
        &[
            "read shrink.pro",
            "list in",
            "read in/g/C0.class",
            "read in/g/D0.class",
            "read in/g/I.class",
        ],
    ),
    (
        &["run", "in", "g.I.v()", "1"],
        12,
        &[
            "list in",
            "read in/g/C0.class",
            "read in/g/D0.class",
            "read in/g/I.class",
        ],
    ),
    (
        &["compare", "shrink.pro", "g.I.v()", "1"],
        12,
        &[
            "read shrink.pro",
            "read map.txt",
            "list in",
            "read in/g/C0.class",
            "read in/g/D0.class",
            "read in/g/I.class",
            "list out",
            "read out/g/C0.class",
            "read out/g/D0.class",
            "read out/g/I.class",
        ],
    ),
    (
        &["retrace", "map.txt", "trace.txt"],
        0,
        &["read map.txt", "read trace.txt"],
    ),
    (
        &["shrink", "shrink.pro", "wit.txt"],
        8,
        &["read shrink.pro", "list out"],
    ),
    (&["gen", "1", "in"], 8, &["list in"]),
    (&["check", "none.pro", "wit.txt"], 2, &["read none.pro"]),
    (
        &["check", "shrink.pro", "none.txt"],
        2,
        &["read shrink.pro", "read map.txt", "read none.txt"],
    ),
];

fn expect_calls(
    rt: &(impl Abort + Threads + Sync),
    alloc: Global,
    tree: &mut ToldTree<MemoryTree>,
    asked: &Asked<'_>,
) -> M<()> {
    let (words, status, calls) = *asked;
    tree.calls = Items::new(alloc);
    let words = words_of(alloc, words)?;
    let mut out = MemorySink::new(alloc, Items::new(alloc))?;
    let ended = run(rt, alloc, &words, tree, &mut out, &OpenGate);
    assert_eq!(rt; ended, status);
    assert_eq!(rt; tree.calls.len(), calls.len());
    for (told, call) in tree.calls.as_slice().iter().zip(calls) {
        let told = told.as_str();
        assert!(rt; told == *call, "{told}");
    }
    Ok(())
}

#[test]
fn each_command_asks_the_tree_what_is_due_once(rt: HostRuntime) -> Result<(), Fail> {
    let alloc = rt.alloc();
    let mut tree = ToldTree {
        tree: MemoryTree::new(alloc, files_of(alloc, FILES)?, Items::new(alloc))?,
        calls: Items::new(alloc),
    };
    for asked in RUNS {
        expect_calls(&rt, alloc, &mut tree, asked)?;
    }
    Ok(())
}
