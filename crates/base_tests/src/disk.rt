// What stands on the disk, looked at past the tree: no clause says what a file of the system holds.
use jv_base::Text;
use std::alloc::Global;
use std::fs;
use std::test::Fail;
use tree_io::{FileTree, Tree};

// So many bytes, none like the one before it.
fn bytes(alloc: Global, length: usize, first: u8) -> Result<Vec<u8>, Fail> {
    let mut bytes = Vec::new(alloc);
    let mut byte = first;
    for _ in 0..length {
        bytes.push(byte)?;
        byte = byte.wrapping_mul(5).wrapping_add(7);
    }
    Ok(bytes)
}

#[test]
fn what_a_tree_of_the_system_writes_stands_on_the_disk(rt: HostRuntime) -> Result<(), Fail> {
    let alloc = rt.alloc();
    let mut tree = FileTree::new(&rt);
    let path = Text::from_str(alloc, "tree_io_disk/below/file")?;
    let _ = fs::remove_dir_all(&rt, "tree_io_disk");
    for length in [50_000, 16_384, 16_385, 1, 0, 40_000] {
        let all = bytes(alloc, length, 1)?;
        assert!(rt;
            tree.write(alloc, &path, all.as_slice()).is_ok(),
            "at {length}"
        );
        assert_eq!(rt;
            fs::read(&rt, path.as_str())?.as_slice(),
            all.as_slice(),
            "at {length}"
        );
    }
    Ok(())
}

#[test]
fn a_tree_of_the_system_reads_each_byte_of_a_file(rt: HostRuntime) -> Result<(), Fail> {
    let alloc = rt.alloc();
    let mut tree = FileTree::new(&rt);
    let path = Text::from_str(alloc, "tree_io_bytes")?;
    for length in [0, 1, 16_383, 16_384, 16_385, 100_000] {
        let all = bytes(alloc, length, 2)?;
        fs::write(&rt, path.as_str(), all.as_slice())?;
        let read = tree.read(alloc, &path, length as u64)?;
        assert_eq!(rt; read.as_slice(), all.as_slice(), "at {length}");
    }
    Ok(())
}

#[test]
fn a_tree_of_the_system_lists_each_file_that_stands_there(rt: HostRuntime) -> Result<(), Fail> {
    let alloc = rt.alloc();
    let mut tree = FileTree::new(&rt);
    let _ = fs::remove_dir_all(&rt, "tree_io_listed");
    for folder in 1..4 {
        let below = format!(in alloc; "tree_io_listed/{folder}")?;
        fs::create_dir_all(&rt, below.as_str())?;
        for number in 1_000..1_800 {
            let file = format!(in alloc; "{below}/a_file_with_a_long_name_{number}")?;
            fs::write(&rt, file.as_str(), "")?;
        }
    }
    let paths = tree.list(alloc, &Text::from_str(alloc, "tree_io_listed")?, 2_400)?;
    assert_eq!(rt; paths.len(), 2_400);
    for (at, path) in paths.as_slice().iter().enumerate() {
        let number = 1_000 + at % 800;
        let folder = 1 + at / 800;
        let file = format!(in alloc; "{folder}/a_file_with_a_long_name_{number}")?;
        assert_eq!(rt; path.as_str(), file.as_str());
    }
    Ok(())
}
