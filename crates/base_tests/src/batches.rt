// Lists of jobs, and jobs that get in one another's way.
use batch_list::{JobFiles, JobPaths, ListFault, first_overlap, read_list};
use jv_base::{Items, Or, Text};
use std::alloc::{AllocError, Global};
use std::test::Fail;

// What a text lists, where it is short enough.
fn list_in(alloc: Global, text: &[u8]) -> Result<Items<JobFiles>, Or<ListFault>> {
    if text.len() >= u32::MAX as usize {
        return Err(Or::OutOfMemory);
    }
    read_list(alloc, text)
}

#[test]
fn a_list_has_a_job_on_each_line(rt: HostRuntime) -> Result<(), Fail> {
    let alloc = rt.alloc();
    let Ok(jobs) = list_in(alloc, b"c1.txt w1.txt\r\n/c/2.pro /w/2") else {
        return Err(Fail::new(format_args!("the list was refused")));
    };
    assert_eq!(rt; jobs.len(), 2);
    assert_eq!(rt; jobs[0].config.as_str(), "c1.txt");
    assert_eq!(rt; jobs[0].witness.as_str(), "w1.txt");
    assert_eq!(rt; jobs[1].config.as_str(), "/c/2.pro");
    assert_eq!(rt; jobs[1].witness.as_str(), "/w/2");
    Ok(())
}

// The first line of a list that names no job, or 0.
fn bad_line(alloc: Global, text: &[u8]) -> u32 {
    match list_in(alloc, text) {
        Err(Or::Fault(ListFault::BadLine(line))) => line,
        _ => 0,
    }
}

#[test]
fn the_first_line_of_another_form_is_told(rt: HostRuntime) -> Result<(), Fail> {
    let alloc = rt.alloc();
    assert_eq!(rt; bad_line(alloc, b"c1.txt"), 1);
    assert_eq!(rt; bad_line(alloc, b"c w\n\nc w\n"), 2);
    assert_eq!(rt; bad_line(alloc, b"c w\nc  w\n"), 2);
    assert_eq!(rt; bad_line(alloc, b"c w\nc w\nc/../d w\n"), 3);
    assert_eq!(rt; bad_line(alloc, b"c w x"), 1);
    assert_eq!(rt; bad_line(alloc, b"c \xff"), 1);
    assert_eq!(rt; bad_line(alloc, b"c w\n"), 0);
    Ok(())
}

#[test]
fn a_list_has_64_jobs_at_most(rt: HostRuntime) -> Result<(), Fail> {
    let alloc = rt.alloc();
    let mut text = Vec::new(alloc);
    for _ in 0..64 {
        text.extend_from_slice(b"c w\n")?;
    }
    assert!(rt; list_in(alloc, text.as_slice()).is_ok());
    text.extend_from_slice(b"c w\n")?;
    assert!(rt;
        matches!(
            list_in(alloc, text.as_slice()),
            Err(Or::Fault(ListFault::TooMany))
        )
    );
    text.extend_from_slice(b"c\n")?;
    assert_eq!(rt; bad_line(alloc, text.as_slice()), 66);
    Ok(())
}

// ---- overlaps

fn texts(alloc: Global, words: &[&str]) -> Result<Items<Text>, AllocError> {
    let mut texts = Vec::new(alloc);
    for word in words {
        texts.push(Text::from_str(alloc, *word)?)?;
    }
    Ok(Items::from_vec(texts))
}

// The first of some lines, each with what its job reads and writes, that gets in the way of `list.txt` or of a line
// before it, or 0.
fn overlap(alloc: Global, lines: &[(&[&str], &[&str])]) -> Result<usize, AllocError> {
    let mut jobs = Vec::new(alloc);
    let mut line = 0usize;
    for (reads, writes) in lines {
        line = line.saturating_add(1);
        let reads = texts(alloc, *reads)?;
        let writes = texts(alloc, *writes)?;
        jobs.push(JobPaths {
            line,
            reads,
            writes,
        })?;
    }
    let list = Text::from_str(alloc, "list.txt")?;
    Ok(first_overlap(&list, jobs.as_slice()).unwrap_or(0))
}

#[test]
fn jobs_that_write_apart_are_taken(rt: HostRuntime) -> Result<(), Fail> {
    let alloc = rt.alloc();
    let jobs: [(&[&str], &[&str]); 2] = [
        (&["c1.txt", "in"], &["out1", "m1.txt"]),
        (&["c2.txt", "in"], &["out2", "out"]),
    ];
    assert_eq!(rt; overlap(alloc, &jobs)?, 0);
    Ok(())
}

#[test]
fn the_first_job_that_gets_in_the_way_is_told(rt: HostRuntime) -> Result<(), Fail> {
    let alloc = rt.alloc();
    let same: [(&[&str], &[&str]); 2] = [(&["c1"], &["out"]), (&["c2"], &["out"])];
    assert_eq!(rt; overlap(alloc, &same)?, 2);
    let below: [(&[&str], &[&str]); 3] = [
        (&["c1"], &["out1"]),
        (&["c2"], &["out2"]),
        (&["c3"], &["out1/below"]),
    ];
    assert_eq!(rt; overlap(alloc, &below)?, 3);
    let above: [(&[&str], &[&str]); 2] = [(&["a/c1"], &["out1"]), (&["c2"], &["a"])];
    assert_eq!(rt; overlap(alloc, &above)?, 2);
    let read: [(&[&str], &[&str]); 2] = [(&["c1"], &["out1"]), (&["c2", "out1"], &["out2"])];
    assert_eq!(rt; overlap(alloc, &read)?, 2);
    let list: [(&[&str], &[&str]); 1] = [(&["c1"], &["list.txt"])];
    assert_eq!(rt; overlap(alloc, &list)?, 1);
    Ok(())
}
