// Queues of jobs, of one thread and of two. Of a queue under a lock no clause says what is taken.
use job_queue::{JobQueue, PutBack, QueueState};
use std::alloc::Global;
use std::sync::Wait;
use std::test::Fail;
use std::thread::{Threads, join};

// Whether the queue was closed, and handed back this job.
fn is_closed(answer: Result<(), PutBack<u32>>, job: u32) -> bool {
    match answer {
        Err(PutBack::Closed(back)) => back == job,
        _ => false,
    }
}

#[test]
fn a_closed_queue_gives_what_waits_and_takes_no_job(rt: HostRuntime) -> Result<(), Fail> {
    let mut queue = QueueState::new(rt.alloc());
    assert!(rt; queue.put(1).is_ok());
    assert!(rt; queue.put(2).is_ok());
    queue.close();
    assert!(rt; is_closed(queue.put(3), 3));
    assert_eq!(rt; queue.take(), Some(1));
    assert_eq!(rt; queue.take(), Some(2));
    assert_eq!(rt; queue.take(), None);
    assert!(rt; is_closed(queue.put(4), 4));
    Ok(())
}

#[test]
fn a_queue_that_was_empty_gives_what_was_put_since(rt: HostRuntime) -> Result<(), Fail> {
    let mut queue = QueueState::new(rt.alloc());
    assert_eq!(rt; queue.take(), None);
    assert!(rt; queue.put(1).is_ok());
    assert_eq!(rt; queue.take(), Some(1));
    assert_eq!(rt; queue.take(), None);
    Ok(())
}

#[test]
fn a_closed_queue_under_a_lock_gives_what_waits_and_takes_no_job(
    rt: HostRuntime,
) -> Result<(), Fail> {
    let queue = JobQueue::new(rt.alloc());
    assert!(rt; queue.put(&rt, 1).is_ok());
    assert!(rt; queue.put(&rt, 2).is_ok());
    queue.close(&rt);
    assert!(rt; is_closed(queue.put(&rt, 3), 3));
    assert_eq!(rt; queue.take(&rt), Some(1));
    assert_eq!(rt; queue.take(&rt), Some(2));
    assert_eq!(rt; queue.take(&rt), None);
    Ok(())
}

// ---- two threads

const COUNT: u32 = 10_000;

// Puts the numbers below a count one by one, closes the queue, and says whether all were put.
fn put_all<R: Wait>(rt: &R, queue: &JobQueue<u32>) -> bool {
    let mut all = true;
    for job in 0..COUNT {
        all = queue.put(rt, job).is_ok() && all;
    }
    queue.close(rt);
    all
}

// Takes until the queue is closed and empty, and says whether the numbers below the count came in their order.
fn takes_all<R: Wait>(rt: &R, queue: &JobQueue<u32>) -> bool {
    for job in 0..COUNT {
        if queue.take(rt) != Some(job) {
            return false;
        }
    }
    queue.take(rt).is_none()
}

fn is_handed_over<R: Threads + Wait + Sync>(rt: &R, alloc: Global) -> bool {
    let queue = JobQueue::new(alloc);
    let (taken, put) = join(rt, || takes_all(rt, &queue), || put_all(rt, &queue));
    taken && put
}

#[test]
fn a_thread_takes_each_job_that_another_one_puts(rt: HostRuntime) -> Result<(), Fail> {
    assert!(rt; is_handed_over(&rt, rt.alloc()));
    Ok(())
}
