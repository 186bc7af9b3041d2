// Runs of `batch`, whose files go to more places than a line of a stored run tells, by one worker and by several.
use crate::gates::{HeldTree, JobMeeting};
use crate::marks::many_methods;
use crate::shrink::{Row, files_of, words_of};
use jv_base::{Bytes, Items, M, Text};
use shrink_core::run_batch;
use std::alloc::Global;
use std::process::Abort;
use std::sync::Wait;
use std::test::Fail;
use std::thread::Threads;
use tree_io::{FileAt, Gate, MemorySink, MemoryTree, OpenGate, Tree};

// Two configs that keep all of one input, in two places.
const FIRST: &[u8] =
    b"-injars in\n-outjars out1\n-printmapping map1.txt\n-dontshrink\n-dontobfuscate\n";

const SECOND: &[u8] =
    b"-injars in\n-outjars out2\n-printmapping map2.txt\n-dontshrink\n-dontobfuscate\n";

// A config that writes below the first one's output directory.
const BELOW: &[u8] =
    b"-injars in\n-outjars out1/out2\n-printmapping map2.txt\n-dontshrink\n-dontobfuscate\n";

const SUMMARY: &str = "classes 1 1\nfields 0 0\nmethods 64 64\nedited 0\nfallback 0\n";

// `demo.Main`, whose `main` prints 1, and which has a method that nobody calls.
const PRINTS_1: &[u8] =
    b"\xCA\xFE\xBA\xBE\0\0\04\0\x19\x01\0\x09demo/Main\x07\0\x01\x01\0\x10java/lang/Object\x07\0\x03\
\x01\0\x06<init>\x01\0\x03()V\x01\0\x04Code\x0C\0\x05\0\x06\x0A\0\x04\0\x08\x01\0\x04main\x01\0\
\x16([Ljava/lang/String;)V\x01\0\x10java/lang/System\x07\0\x0C\x01\0\x03out\x01\0\x15Ljava/io/Pr\
intStream;\x0C\0\x0E\0\x0F\x09\0\x0D\0\x10\x01\0\x13java/io/PrintStream\x07\0\x12\x01\0\x07print\
ln\x01\0\x04(I)V\x0C\0\x14\0\x15\x0A\0\x13\0\x16\x01\0\x06unused\0!\0\x02\0\x04\0\0\0\0\0\x03\0\
\x01\0\x05\0\x06\0\x01\0\x07\0\0\0\x11\0\x02\0\x01\0\0\0\x05*\xB7\0\x09\xB1\0\0\0\0\0\x09\0\x0A\
\0\x0B\0\x01\0\x07\0\0\0\x14\0\x02\0\x01\0\0\0\x08\xB2\0\x11\x04\xB6\0\x17\xB1\0\0\0\0\0\x09\0\
\x18\0\x06\0\x01\0\x07\0\0\0\x0D\0\0\0\0\0\0\0\x01\xB1\0\0\0\0\0\0";

const KEEP_MAIN: &[u8] = b"-injars in\n-outjars out\n-printmapping map.txt\n\
-keep class demo.Main { public static void main(java.lang.String[]); }\n";

// ---- runs

// `batch list.txt` by so many workers, and by as many as there are where none are named.
const BY_WORKERS: [&[&str]; 4] = [
    &["batch", "list.txt"],
    &["batch", "list.txt", "--workers=1"],
    &["batch", "list.txt", "--workers=2"],
    &["batch", "list.txt", "--workers=64"],
];

// The files of a run, and the class file of its input.
fn given(alloc: Global, rows: &[Row<'_>], class: &Row<'_>) -> M<Items<FileAt>> {
    let mut files = files_of(alloc, rows)?;
    files.push(FileAt {
        path: Text::from_str(alloc, class.0)?,
        bytes: Bytes::from_vec(class.1.to_vec(alloc)?),
    })?;
    Ok(files)
}

// What a run is to say, and which of some paths are to have a file behind it.
type Wanted<'a> = (u8, &'a str, &'a [(&'a str, bool)]);

// The end of `batch list.txt` on these files, whatever the number of workers.
fn expect_run(
    rt: &(impl Abort + Threads + Wait + Sync),
    alloc: Global,
    rows: &[Row<'_>],
    class: &Row<'_>,
    wanted: &Wanted<'_>,
) -> M<()> {
    let (status, said, paths) = *wanted;
    for words in BY_WORKERS {
        let words = words_of(alloc, words)?;
        let mut tree = MemoryTree::new(alloc, given(alloc, rows, class)?, Items::new(alloc))?;
        let mut out = MemorySink::new(alloc, Items::new(alloc))?;
        let ended = run_batch(rt, alloc, &words, &mut tree, &mut out, &OpenGate);
        assert_eq!(rt; ended, status, "{said}");
        assert!(rt; out.written() == said.as_bytes(), "{said}");
        for (path, stands) in paths {
            let path = Text::from_str(alloc, *path)?;
            let found = tree.read(alloc, &path, 1_000_000).is_ok();
            assert_eq!(rt; found, *stands, "{said}");
        }
    }
    Ok(())
}

// The same of a class of 64 methods.
fn expect_end(
    rt: &(impl Abort + Threads + Wait + Sync),
    alloc: Global,
    rows: &[Row<'_>],
    status: u8,
    said: &str,
    paths: &[(&str, bool)],
) -> M<()> {
    let class = many_methods(alloc)?;
    expect_run(
        rt,
        alloc,
        rows,
        &("in/Main.class", class.as_slice()),
        &(status, said, paths),
    )
}

// ---- tests

#[test]
fn each_job_does_what_it_does_alone(rt: HostRuntime) -> Result<(), Fail> {
    let alloc = rt.alloc();
    let rows: [Row<'_>; 3] = [
        ("list.txt", b"c1.txt w1.txt\nc2.txt w2.txt\n"),
        ("c1.txt", FIRST),
        ("c2.txt", SECOND),
    ];
    let said = format!(in alloc; "job 1\n{SUMMARY}job 2\n{SUMMARY}")?;
    let paths = [
        ("out1/Main.class", true),
        ("map1.txt", true),
        ("w1.txt", true),
        ("out2/Main.class", true),
        ("map2.txt", true),
        ("w2.txt", true),
    ];
    expect_end(&rt, alloc, &rows, 0, said.as_str(), &paths)?;
    Ok(())
}

#[test]
fn a_refused_job_stops_no_other(rt: HostRuntime) -> Result<(), Fail> {
    let alloc = rt.alloc();
    let rows: [Row<'_>; 2] = [
        ("list.txt", b"c1.txt w1.txt\nc2.txt w2.txt\nc1.txt/c w3.txt"),
        ("c1.txt", FIRST),
    ];
    let said = format!(in alloc;
        "job 1\n{SUMMARY}job 2\nerror 2 absent c2.txt\njob 3\nerror 2 absent c1.txt/c\n"
    )?;
    let paths = [
        ("out1/Main.class", true),
        ("map1.txt", true),
        ("w1.txt", true),
        ("w2.txt", false),
    ];
    expect_end(&rt, alloc, &rows, 2, said.as_str(), &paths)?;
    Ok(())
}

#[test]
fn a_refused_batch_writes_nothing(rt: HostRuntime) -> Result<(), Fail> {
    let alloc = rt.alloc();
    let none = [
        ("out1/Main.class", false),
        ("out2/Main.class", false),
        ("map1.txt", false),
        ("w1.txt", false),
    ];
    let two = b"c1.txt w1.txt\nc2.txt w2.txt\n".as_slice();
    let same: [Row<'_>; 3] = [("list.txt", two), ("c1.txt", FIRST), ("c2.txt", FIRST)];
    expect_end(&rt, alloc, &same, 15, "error 15 overlap 2\n", &none)?;
    let below: [Row<'_>; 3] = [("list.txt", two), ("c1.txt", FIRST), ("c2.txt", BELOW)];
    expect_end(&rt, alloc, &below, 15, "error 15 overlap 2\n", &none)?;
    let list: [Row<'_>; 2] = [("list.txt", b"c1.txt list.txt"), ("c1.txt", FIRST)];
    expect_end(&rt, alloc, &list, 15, "error 15 overlap 1\n", &none)?;
    let alone: [Row<'_>; 2] = [("list.txt", b"c1.txt\n"), ("c1.txt", FIRST)];
    expect_end(&rt, alloc, &alone, 11, "error 11 text 1 BadLine\n", &none)?;
    expect_end(&rt, alloc, &[], 2, "error 2 absent list.txt\n", &none)?;
    Ok(())
}

#[test]
fn a_list_has_64_jobs_at_most(rt: HostRuntime) -> Result<(), Fail> {
    let alloc = rt.alloc();
    let mut list = Vec::new(alloc);
    for _ in 0..65 {
        list.extend_from_slice(b"c1.txt w1.txt\n")?;
    }
    let rows: [Row<'_>; 2] = [("list.txt", list.as_slice()), ("c1.txt", FIRST)];
    expect_end(
        &rt,
        alloc,
        &rows,
        6,
        "error 6 limit jobs 64\n",
        &[("w1.txt", false)],
    )?;
    Ok(())
}

#[test]
fn a_job_that_is_done_is_told_beside_one_without_config(rt: HostRuntime) -> Result<(), Fail> {
    let alloc = rt.alloc();
    let rows: [Row<'_>; 2] = [
        ("list.txt", b"c1.txt w1.txt\nc2.txt w2.txt\n"),
        ("c1.txt", KEEP_MAIN),
    ];
    let said = "job 1\nclasses 1 1\nfields 0 0\nmethods 3 1\nedited 0\nfallback 0\n\
job 2\nerror 2 absent c2.txt\n";
    let paths = [
        ("out/demo/Main.class", true),
        ("map.txt", true),
        ("w1.txt", true),
        ("w2.txt", false),
    ];
    let class = ("in/demo/Main.class", PRINTS_1);
    expect_run(&rt, alloc, &rows, &class, &(2, said, &paths))?;
    Ok(())
}

// ---- devices that fail

// What a run says and leaves where this call of the tree fails: of the files so many were written before. A file at which
// the write failed may hold any bytes.
fn expect_failure(
    rt: &(impl Abort + Threads + Wait + Sync),
    alloc: Global,
    words: &[&str],
    call: u64,
    written: usize,
) -> M<()> {
    let rows: [Row<'_>; 3] = [
        ("list.txt", b"c1.txt w1.txt\nc2.txt w2.txt\n"),
        ("c1.txt", FIRST),
        ("c2.txt", SECOND),
    ];
    let class = many_methods(alloc)?;
    let files = given(alloc, &rows, &("in/Main.class", class.as_slice()))?;
    let mut calls = Items::new(alloc);
    calls.push(call)?;
    let words = words_of(alloc, words)?;
    let mut tree = MemoryTree::new(alloc, files, calls)?;
    let mut out = MemorySink::new(alloc, Items::new(alloc))?;
    let ended = run_batch(rt, alloc, &words, &mut tree, &mut out, &OpenGate);
    assert_eq!(rt; ended, 7, "{call}");
    assert!(rt; out.written() == b"error 7 device\n".as_slice(), "{call}");
    for (at, path) in WRITTEN.iter().enumerate() {
        let stands = tree.file(alloc, &Text::from_str(alloc, *path)?)?.is_some();
        let torn = call >= READS && at == written;
        assert!(rt; torn || stands == (at < written), "{call} {path}");
    }
    Ok(())
}

// The files of both jobs, in the order in which they are written.
const WRITTEN: [&str; 6] = [
    "out1/Main.class",
    "map1.txt",
    "w1.txt",
    "out2/Main.class",
    "map2.txt",
    "w2.txt",
];

// The list and two configs are read, and each job lists its output and its input, and reads a class file; all of this
// comes before the first write.
const READS: u64 = 9;

#[test]
fn a_device_that_fails_leaves_the_first_files(rt: HostRuntime) -> Result<(), Fail> {
    let alloc = rt.alloc();
    for words in BY_WORKERS {
        for call in 0..READS {
            expect_failure(&rt, alloc, words, call, 0)?;
        }
        for written in 0..WRITTEN.len() {
            expect_failure(&rt, alloc, words, READS + written as u64, written)?;
        }
    }
    Ok(())
}

// ---- two jobs at a time

// Three jobs of a class each, in places of their own.
fn three_jobs(alloc: Global) -> M<Items<FileAt>> {
    let list: [Row<'_>; 1] = [("list.txt", b"c1.txt w1.txt\nc2.txt w2.txt\nc3.txt w3.txt\n")];
    let mut files = files_of(alloc, &list)?;
    for number in 1u8..4 {
        let config = format!(in alloc;
            "-injars in{number}\n-outjars out{number}\n-printmapping map{number}.txt\n\
-dontshrink\n-dontobfuscate\n"
        )?;
        files.push(FileAt {
            path: Text::from_string(alloc, format!(in alloc; "c{number}.txt")?)?,
            bytes: Bytes::from_vec(config.as_bytes().to_vec(alloc)?),
        })?;
        files.push(FileAt {
            path: Text::from_string(alloc, format!(in alloc; "in{number}/Main.class")?)?,
            bytes: many_methods(alloc)?,
        })?;
    }
    Ok(files)
}

// Does them by two workers, and answers the status.
fn done_by_two(
    rt: &(impl Threads + Wait + Sync),
    alloc: Global,
    meeting: &JobMeeting,
    gate: &impl Gate,
) -> M<u8> {
    let words = words_of(alloc, &["batch", "list.txt", "--workers=2"])?;
    let mut tree = HeldTree {
        tree: MemoryTree::new(alloc, three_jobs(alloc)?, Items::new(alloc))?,
        held: Text::from_str(alloc, "in3/Main.class")?,
        meeting,
    };
    let mut out = MemorySink::new(alloc, Items::new(alloc))?;
    Ok(run_batch(rt, alloc, &words, &mut tree, &mut out, gate))
}

#[test]
fn two_jobs_meet(rt: HostRuntime) -> Result<(), Fail> {
    let meeting = JobMeeting::new();
    let status = done_by_two(&rt, rt.alloc(), &meeting, &meeting)?;
    assert_eq!(rt; status, 0);
    assert!(rt; meeting.took_place());
    Ok(())
}
