//! An agent that lasts, served over streams: its generations have all calls of its connections.

use crate::frames::LISTS;
use crate::serving::listener::{FlagStream, Streams, stream};
use crate::serving::locking::{Standstill, put_frame};
use sshc_agent::serve_generations;
use sshc_agent_shared::{CloseError, Keeper, Past};
use sshc_agent_words::FreshSigner;
use sshc_wire::NoMemory;
use std::alloc::Global;
use std::sync::Wait;
use std::sync::atomic::AtomicUsize;
use std::sync::atomic::Ordering::SeqCst;
use std::test::*;
use std::thread::Threads;

/// How many listings each connection asks for.
const LISTINGS: u32 = 50;

/// Counts the generations that are closed, and their calls.
#[derive(Drop)]
struct Counts {
    generations: AtomicUsize,
    calls: AtomicUsize,
    failures: AtomicUsize,
}

impl Counts {
    fn new() -> Counts {
        Counts {
            generations: AtomicUsize::new(0),
            calls: AtomicUsize::new(0),
            failures: AtomicUsize::new(0),
        }
    }
}

impl Keeper for Counts {
    fn keep(&self, past: Past) {
        self.generations.fetch_add(1, SeqCst);
        self.calls.fetch_add(past.len(), SeqCst);
    }

    fn keeps_on(&self, _why: CloseError) {
        self.failures.fetch_add(1, SeqCst);
    }
}

/// Two streams that ask for listings.
fn two_streams<'a>(alloc: Global) -> Result<Vec<FlagStream<'a>>, NoMemory> {
    let mut streams = Vec::new(alloc);
    for _ in 0..2 {
        let mut bytes = Vec::new(alloc);
        for _ in 0..LISTINGS {
            put_frame(&mut bytes, LISTS)?;
        }
        streams.push(stream(alloc, bytes, None))?;
    }
    Ok(streams)
}

/// How many calls the last generation has, of an agent whose journal has room for about ten calls of two connections.
fn last_calls<R: Threads + Wait + Sync>(rt: &R, alloc: Global, counts: &Counts) -> Option<usize> {
    let mut streams = Streams::new(two_streams(alloc).ok()?, false);
    let past = serve_generations(
        rt,
        alloc,
        &mut streams,
        &(),
        &FreshSigner::new(alloc),
        counts,
        &Standstill,
        800,
    )
    .ok()?;
    Some(past.len())
}

/// Each listing is two calls, the request and the user's answer, and the end of each connection is one.
#[test]
fn generations_have_the_calls_of_all_connections(rt: HostRuntime) {
    let counts = Counts::new();
    let last = last_calls(&rt, rt.alloc(), &counts);
    let kept = counts.calls.load(SeqCst);
    assert_eq!(rt; last.map(|last| last.saturating_add(kept)), Some(202));
    assert_eq!(rt; counts.failures.load(SeqCst), 0);
    assert!(rt; counts.generations.load(SeqCst) > 10);
}
