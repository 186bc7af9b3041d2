// Runs of `shrink` whose files are too long or too many for a line of a stored run.
use jv_base::{Bytes, Items, M, Text};
use shrink_core::run;
use std::alloc::Global;
use std::process::Abort;
use std::test::Fail;
use std::thread::Threads;
use tree_io::{FileAt, MemorySink, MemoryTree, OpenGate};

// ---- a class file

// `Main` with `static int f(int)` alone, up to its code's first instruction, a goto_w over 32,765 bytes behind it.
const FAR_FRONT: &[u8] = b"\xCA\xFE\xBA\xBE\0\0\0\x34\0\x09\
\x01\0\x04Main\x07\0\x01\x01\0\x10java/lang/Object\x07\0\x03\x01\0\x01f\x01\0\x04(I)I\x01\0\x04Code\
\x01\0\x0DStackMapTable\
\0\x21\0\x02\0\x04\0\0\0\0\0\x01\
\0\x09\0\x05\0\x06\0\x01\0\x07\0\0\x80\x1C\0\x01\0\x01\0\0\x80\x04\xC8\0\0\x80\x02";

// The rest of it from the target on, with frames behind the goto_w and at the target.
const FAR_REST: &[u8] = b"\x03\xAC\0\0\0\x01\0\x08\0\0\0\x06\0\x02\x05\xFB\x7F\xFC\0\0";

// `Main` with `static int f(int)` alone, up to two branches, by which control comes to each of its places.
const LED_FRONT: &[u8] = b"\xCA\xFE\xBA\xBE\0\0\0\x34\0\x09\
\x01\0\x04Main\x07\0\x01\x01\0\x10java/lang/Object\x07\0\x03\x01\0\x01f\x01\0\x04(I)I\x01\0\x04Code\
\x01\0\x0DStackMapTable\
\0\x21\0\x02\0\x04\0\0\0\0\0\x01\
\0\x09\0\x05\0\x06\0\x01\0\x07\0\0\x9C\x6A\0\x01\0\x01\0\0\x9C\x4F\x1A\x99\x4E\x29\x1A\x9D\x4E\x28";

// Behind 20,000 bytes a return, and the goto to which the first branch leads, over 20,003 bytes.
const LED_MIDDLE: &[u8] = b"\x04\xAC\xA7\x4E\x23";

// The rest of it from the goto's target on, with frames at the goto, behind it and at its target.
const LED_REST: &[u8] = b"\x05\xAC\0\0\0\x01\0\x08\0\0\0\x09\0\x03\xFB\x4E\x2A\x02\xFB\x4E\x1F\0\0";

// ---- configs

// The config that keeps `f(int)` of `Main`.
const KEEP_F: &[u8] = b"-injars in\n-outjars out/\n-printmapping map.txt\n\
-keep class Main { static int f(int); }\n";

// The same, with the codes as they are.
const KEEP_F_AS_IT_IS: &[u8] = b"-injars in\n-outjars out/\n-printmapping map.txt\n\
-keep class Main { static int f(int); }\n-dontoptimize\n";

// The config that keeps a method that `Main` doesn't have, and `g(int)`.
const KEEP_G: &[u8] = b"-injars in/\n-outjars out\n-printmapping map.txt\n\
-keep class Main { static int f(int,int); static int g(int); }\n";

// ---- runs

const CONFIG: &str = "shrink.pro";

const COMMAND: &[&str] = &["shrink", CONFIG, "wit.txt"];

// A path and the bytes of the file there.
pub(crate) type Row<'a> = (&'a str, &'a [u8]);

pub(crate) fn text(alloc: Global, text: &str) -> M<Text> {
    Ok(Text::from_str(alloc, text)?)
}

pub(crate) fn words_of(alloc: Global, words: &[&str]) -> M<Items<Text>> {
    let mut all = Items::new(alloc);
    for word in words {
        all.push(text(alloc, word)?)?;
    }
    Ok(all)
}

pub(crate) fn files_of(alloc: Global, rows: &[Row<'_>]) -> M<Items<FileAt>> {
    let mut files = Items::new(alloc);
    for (path, bytes) in rows {
        files.push(FileAt {
            path: text(alloc, path)?,
            bytes: Bytes::from_vec(bytes.to_vec(alloc)?),
        })?;
    }
    Ok(files)
}

// The status of a run on a tree, and the whole text that it says.
pub(crate) fn expect_end(
    rt: &(impl Abort + Threads + Sync),
    alloc: Global,
    words: &[&str],
    tree: &mut MemoryTree,
    status: u8,
    said: &str,
) -> M<()> {
    let words = words_of(alloc, words)?;
    let mut out = MemorySink::new(alloc, Items::new(alloc))?;
    let ended = run(rt, alloc, &words, tree, &mut out, &OpenGate);
    assert_eq!(rt; ended, status, "{said}");
    assert!(rt; out.written() == said.as_bytes(), "{said}");
    Ok(())
}

// ---- limits

// The end of the command on these files and one more of these bytes.
fn expect_with(
    rt: &(impl Abort + Threads + Sync),
    alloc: Global,
    rows: &[Row<'_>],
    path: &str,
    bytes: Vec<u8>,
    status: u8,
    said: &str,
) -> M<()> {
    let mut files = files_of(alloc, rows)?;
    files.push(FileAt {
        path: text(alloc, path)?,
        bytes: Bytes::from_vec(bytes),
    })?;
    let mut tree = MemoryTree::new(alloc, files, Items::new(alloc))?;
    expect_end(rt, alloc, COMMAND, &mut tree, status, said)
}

#[test]
fn bytes_are_limited(rt: HostRuntime) -> Result<(), Fail> {
    let alloc = rt.alloc();
    for (rows, path, length, status, said) in [
        (
            [(CONFIG, KEEP_F)].as_slice(),
            "in/A.class",
            67_108_864,
            4,
            "error 4 format in/A.class 0 BadMagic\n",
        ),
        (
            &[(CONFIG, KEEP_F)],
            "in/A.class",
            67_108_865,
            6,
            "error 6 limit input 67108864\n",
        ),
        (
            &[],
            CONFIG,
            67_108_864,
            3,
            "error 3 rules 1 UnknownOption\n",
        ),
        (
            &[],
            CONFIG,
            67_108_865,
            6,
            "error 6 limit config 67108864\n",
        ),
    ] {
        let bytes = vec![in alloc; 0u8; length]?;
        expect_with(&rt, alloc, rows, path, bytes, status, said)?;
    }
    Ok(())
}

// The config, and so many files below the input directory whose names end so.
fn crowd(alloc: Global, count: u32, ending: &str) -> M<Items<FileAt>> {
    let mut files = files_of(alloc, &[(CONFIG, KEEP_F)])?;
    for number in 0..count {
        files.push(FileAt {
            path: Text::from_string(alloc, format!(in alloc; "in/{number}{ending}")?)?,
            bytes: Bytes::new(alloc),
        })?;
    }
    Ok(files)
}

#[test]
fn files_are_limited(rt: HostRuntime) -> Result<(), Fail> {
    let alloc = rt.alloc();
    for (count, ending, status, said) in [
        (20_000, ".class", 4, "error 4 format in/0.class 0 Cut\n"),
        (20_001, ".class", 6, "error 6 limit classes 20000\n"),
        (65_537, ".txt", 6, "error 6 limit files 65536\n"),
    ] {
        let files = crowd(alloc, count, ending)?;
        let mut tree = MemoryTree::new(alloc, files, Items::new(alloc))?;
        expect_end(&rt, alloc, COMMAND, &mut tree, status, said)?;
    }
    Ok(())
}

// `Main` with a `static int f(int)` whose branch leads over 32,768 bytes in its canonical spelling.
fn far_branch(alloc: Global) -> M<Vec<u8>> {
    let mut bytes = FAR_FRONT.to_vec(alloc)?;
    bytes.extend_from_slice(&vec![in alloc; 0u8; 32_765]?)?;
    bytes.extend_from_slice(FAR_REST)?;
    Ok(bytes)
}

// What isn't kept may be of any length, and so may what control doesn't reach.
#[test]
fn what_is_kept_has_to_fit_into_a_class_file(rt: HostRuntime) -> Result<(), Fail> {
    let alloc = rt.alloc();
    for (config, status, said) in [
        (KEEP_F_AS_IT_IS, 6, "error 6 limit branch 32767\n"),
        (
            KEEP_F,
            0,
            "classes 1 1\nfields 0 0\nmethods 1 1\nedited 1\nfallback 0\n",
        ),
        (
            KEEP_G,
            0,
            "classes 1 1\nfields 0 0\nmethods 1 0\nedited 0\nfallback 0\n",
        ),
    ] {
        let rows = [(CONFIG, config)];
        let bytes = far_branch(alloc)?;
        expect_with(&rt, alloc, &rows, "in/Main.class", bytes, status, said)?;
    }
    Ok(())
}

// `Main` with a `static int f(int)` whose first branch leads to a goto, from which it is far to the goto's target.
fn led_branch(alloc: Global) -> M<Vec<u8>> {
    let mut bytes = LED_FRONT.to_vec(alloc)?;
    bytes.extend_from_slice(&vec![in alloc; 0u8; 20_000]?)?;
    bytes.extend_from_slice(LED_MIDDLE)?;
    bytes.extend_from_slice(&vec![in alloc; 0u8; 20_000]?)?;
    bytes.extend_from_slice(LED_REST)?;
    Ok(bytes)
}

// A branch that is led on may come to lead too far.
#[test]
fn edited_branches_have_to_fit_into_a_class_file(rt: HostRuntime) -> Result<(), Fail> {
    let alloc = rt.alloc();
    for (config, status, said) in [
        (KEEP_F, 6, "error 6 limit branch 32767\n"),
        (
            KEEP_F_AS_IT_IS,
            0,
            "classes 1 1\nfields 0 0\nmethods 1 1\nedited 0\nfallback 0\n",
        ),
    ] {
        let rows = [(CONFIG, config)];
        let bytes = led_branch(alloc)?;
        expect_with(&rt, alloc, &rows, "in/Main.class", bytes, status, said)?;
    }
    Ok(())
}
