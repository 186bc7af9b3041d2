use class_files::{read_files, write_files};
use jv_base::{Bytes, Items, M, Text};
use std::alloc::Global;
use std::test::Fail;
use tree_io::{FileAt, MemoryTree};

fn bytes_of(alloc: Global, bytes: &[u8]) -> M<Bytes> {
    Ok(Items::from_vec(bytes.to_vec(alloc)?))
}

fn files_of(alloc: Global, rows: &[(&str, &[u8])]) -> M<Items<FileAt>> {
    let mut files = Items::new(alloc);
    for row in rows {
        let (path, bytes) = *row;
        files.push(FileAt {
            path: Text::from_str(alloc, path)?,
            bytes: bytes_of(alloc, bytes)?,
        })?;
    }
    Ok(files)
}

fn is_file(file: &FileAt, path: &str, bytes: &[u8]) -> bool {
    file.path.as_str() == path && file.bytes.as_slice() == bytes
}

#[test]
fn the_class_files_below_a_directory_are_read_in_order(rt: HostRuntime) -> Result<(), Fail> {
    let alloc = rt.alloc();
    let files = files_of(
        alloc,
        &[
            ("in/p/B.class", b"b"),
            ("in/A.class", b"aa"),
            ("in/A.txt", b"t"),
            ("inner/C.class", b"c"),
        ],
    )?;
    let mut tree = MemoryTree::new(alloc, files, Items::new(alloc))?;
    let directory = Text::from_str(alloc, "in")?;
    let read = read_files(alloc, &directory, &mut tree);
    assert!(rt; matches!(&read, Ok(files) if files.len() == 2));
    assert!(rt; matches!(&read, Ok(files) if is_file(&files[0], "A.class", b"aa")));
    assert!(rt; matches!(&read, Ok(files) if is_file(&files[1], "p/B.class", b"b")));
    Ok(())
}

#[test]
fn files_are_written_in_order(rt: HostRuntime) -> Result<(), Fail> {
    let alloc = rt.alloc();
    let mut tree = MemoryTree::new(alloc, Items::new(alloc), Items::new(alloc))?;
    let files = files_of(alloc, &[("out/A.class", b"a"), ("out/p/B.class", b"bb")])?;
    assert!(rt; write_files(alloc, &files, &mut tree).is_ok());
    let directory = Text::from_str(alloc, "out")?;
    let read = read_files(alloc, &directory, &mut tree);
    assert!(rt; matches!(&read, Ok(files) if files.len() == 2));
    assert!(rt; matches!(&read, Ok(files) if is_file(&files[1], "p/B.class", b"bb")));
    Ok(())
}
