//! Sessions served by several workers at the same time.

use crate::hold::{Hold, Meeting, SessionLine, Unheld};
use hall_runner::{Served, serve_by_pool, serve_by_threads};
use input_reader::{Input, read_input};
use session_tasks::Gate;
use std::alloc::{AllocError, Global};
use std::process::Abort;
use std::sync::Wait;
use std::test::Fail;
use std::thread::Threads;
use teb_io::MemSource;
use teb_rules::history::Event;
use teb_rules::names::Session;

/// How many transactions each session has, where it has many.
const MANY: usize = 100;

/// A transaction of each of four sessions, each on another cell.
const FIRST: &[u8] = b"1 begin any\n1 add t 1 1\n1 commit\n";

const SECOND: &[u8] = b"2 begin any\n2 add t 2 1\n2 commit\n";

const THIRD: &[u8] = b"3 begin any\n3 add t 3 1\n3 commit\n";

const FOURTH: &[u8] = b"4 begin any\n4 add t 4 1\n4 commit\n";

fn input_of(alloc: Global, text: Vec<u8>) -> Result<Input, Fail> {
    let mut source = MemSource::new(text, 4096, Vec::new(alloc));
    Ok(read_input(alloc, &mut source)?)
}

// How many transactions commit where two workers serve the scripts of an input.
fn commits<R: Threads + Wait + Abort + Sync, G: Gate + Sync>(
    rt: &R,
    alloc: Global,
    text: Vec<u8>,
    gate: &G,
) -> Result<usize, Fail> {
    let input = input_of(alloc, text)?;
    let served = serve_by_threads(rt, alloc, input, 2, gate)?;
    Ok(commits_in(rt, served))
}

// The same where the two workers take the sessions from a queue.
fn pool_commits<R: Threads + Wait + Abort + Sync, G: Gate + Sync>(
    rt: &R,
    alloc: Global,
    text: Vec<u8>,
    gate: &G,
) -> Result<usize, Fail> {
    let input = input_of(alloc, text)?;
    let served = serve_by_pool(rt, alloc, input, 2, gate)?;
    Ok(commits_in(rt, served))
}

fn commits_in<R: Abort>(rt: &R, served: Served) -> usize {
    match served {
        Served::Through { output, .. } => {
            let (_, _, history) = output.into_parts();
            let history = history.expect(rt, "a history");
            done_count(history.events())
        }
        Served::Spent(_) => panic!(rt; "a pass is spent"),
    }
}

fn done_count(events: &[Event]) -> usize {
    events
        .iter()
        .filter(|event| matches!(event, Event::Done(_)))
        .count()
}

// The scripts of two sessions, each with `transactions` transactions, on two cells.
fn scripts_of_two(alloc: Global, transactions: usize) -> Result<Vec<u8>, AllocError> {
    let mut text = b"%%\n".to_vec(alloc)?;
    for _ in 0..transactions {
        text.extend_from_slice(FIRST)?;
    }
    for _ in 0..transactions {
        text.extend_from_slice(SECOND)?;
    }
    Ok(text)
}

// The scripts of four sessions, each with a transaction, on four cells.
fn scripts_of_four(alloc: Global) -> Result<Vec<u8>, AllocError> {
    let mut text = scripts_of_two(alloc, 1)?;
    text.extend_from_slice(THIRD)?;
    text.extend_from_slice(FOURTH)?;
    Ok(text)
}

// One thread that served both sessions would never come to the second: it is held at the first line of the first.
#[test]
fn a_session_is_served_while_another_is_held(rt: HostRuntime) -> Result<(), Fail> {
    let first = SessionLine {
        session: Session(1),
        line: 1,
    };
    let last = SessionLine {
        session: Session(2),
        line: 6,
    };
    let gate = Hold::new(first, last);
    let text = scripts_of_two(rt.alloc(), 1)?;
    assert_eq!(rt; commits(&rt, rt.alloc(), text, &gate)?, 2);
    assert!(rt; !gate.gave_up());
    Ok(())
}

// If session i went to worker i mod 2, session 3 would wait for session 1, which is held for it.
#[test]
fn a_worker_takes_the_next_session_while_another_is_held(rt: HostRuntime) -> Result<(), Fail> {
    let first = SessionLine {
        session: Session(1),
        line: 1,
    };
    let last = SessionLine {
        session: Session(3),
        line: 9,
    };
    let gate = Hold::new(first, last);
    let mut text = scripts_of_two(rt.alloc(), 1)?;
    text.extend_from_slice(THIRD)?;
    assert_eq!(rt; pool_commits(&rt, rt.alloc(), text, &gate)?, 3);
    assert!(rt; !gate.gave_up());
    Ok(())
}

// Sessions 2 and 4 have one worker, which goes on from the one to the other.
#[test]
fn a_worker_goes_on_while_another_session_is_held(rt: HostRuntime) -> Result<(), Fail> {
    let first = SessionLine {
        session: Session(1),
        line: 1,
    };
    let last = SessionLine {
        session: Session(4),
        line: 12,
    };
    let gate = Hold::new(first, last);
    let text = scripts_of_four(rt.alloc())?;
    assert_eq!(rt; commits(&rt, rt.alloc(), text, &gate)?, 4);
    assert!(rt; !gate.gave_up());
    Ok(())
}

// Sessions 1 and 3 have one worker, so the third waits until the first is through, although the other worker is idle.
#[test]
fn a_session_waits_for_its_own_worker(rt: HostRuntime) -> Result<(), Fail> {
    let first = SessionLine {
        session: Session(1),
        line: 1,
    };
    let last = SessionLine {
        session: Session(3),
        line: 9,
    };
    let gate = Hold::in_vain(first, last);
    let mut text = scripts_of_two(rt.alloc(), 1)?;
    text.extend_from_slice(THIRD)?;
    assert_eq!(rt; commits(&rt, rt.alloc(), text, &gate)?, 3);
    assert!(rt; gate.gave_up());
    Ok(())
}

// Four sessions meet at their first lines. Three workers would leave one of them out.
#[test]
fn four_workers_serve_four_sessions_at_once(rt: HostRuntime) -> Result<(), Fail> {
    let gate = Meeting::new(4);
    let input = input_of(rt.alloc(), scripts_of_four(rt.alloc())?)?;
    let served = serve_by_threads(&rt, rt.alloc(), input, 4, &gate)?;
    assert_eq!(rt; commits_in(&rt, served), 4);
    assert!(rt; !gate.gave_up());
    Ok(())
}

// The same where they take the sessions from a queue.
#[test]
fn four_workers_of_a_pool_serve_four_sessions_at_once(rt: HostRuntime) -> Result<(), Fail> {
    let gate = Meeting::new(4);
    let input = input_of(rt.alloc(), scripts_of_four(rt.alloc())?)?;
    let served = serve_by_pool(&rt, rt.alloc(), input, 4, &gate)?;
    assert_eq!(rt; commits_in(&rt, served), 4);
    assert!(rt; !gate.gave_up());
    Ok(())
}

#[test]
fn two_threads_commit_all_that_they_are_asked(rt: HostRuntime) -> Result<(), Fail> {
    let text = scripts_of_two(rt.alloc(), MANY)?;
    assert_eq!(rt; commits(&rt, rt.alloc(), text, &Unheld)?, 2 * MANY);
    Ok(())
}
