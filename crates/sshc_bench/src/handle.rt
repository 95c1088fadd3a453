//! A handle over a transport in memory: pings from one thread, or from eight.

use sshc_client::Error;
use sshc_handle::{Handle, HandleCalls};
use sshc_sample_fakes::{Host, Keeper, at_once, opened, run_beside};
use sshc_wire::Disconnect;
use std::sync::Wait;
use std::thread::Threads;
use std::time::Clock;

/// Sends so many pings, one after the other, and returns how many were answered.
fn pinged<R: Wait>(rt: &R, handle: &Handle<Keeper>, times: u64) -> u64 {
    let mut answered = 0u64;
    for _ in 0..times {
        if handle.send_ping(rt).is_ok() {
            answered = answered.saturating_add(1);
        }
    }
    answered
}

/// The same from two threads, each with half of them.
fn by_two<R: Threads + Wait + Sync>(rt: &R, handle: &Handle<Keeper>, times: u64) -> u64 {
    let (one, two) = at_once(
        rt,
        handle,
        |handle| pinged(rt, handle, times / 2),
        |handle| pinged(rt, handle, times / 2),
    );
    one.saturating_add(two)
}

fn by_four<R: Threads + Wait + Sync>(rt: &R, handle: &Handle<Keeper>, times: u64) -> u64 {
    let (one, two) = at_once(
        rt,
        handle,
        |handle| by_two(rt, handle, times / 2),
        |handle| by_two(rt, handle, times / 2),
    );
    one.saturating_add(two)
}

fn by_eight<R: Threads + Wait + Sync>(rt: &R, handle: &Handle<Keeper>, times: u64) -> u64 {
    let (one, two) = at_once(
        rt,
        handle,
        |handle| by_four(rt, handle, times / 2),
        |handle| by_four(rt, handle, times / 2),
    );
    one.saturating_add(two)
}

/// Pings from one thread or from eight, and leaves.
fn all_pinged<R: Threads + Wait + Sync>(
    rt: &R,
    handle: &Handle<Keeper>,
    is_eight: bool,
    times: u64,
) -> Result<u64, Error> {
    let answered = if is_eight {
        by_eight(rt, handle, times)
    } else {
        pinged(rt, handle, times)
    };
    handle.disconnect(rt, Disconnect::ByApplication, "", "")?;
    Ok(answered)
}

/// One run.
fn run<R: Threads + Wait + Sync + AllocGlobal + Clock>(
    rt: &R,
    is_eight: bool,
    times: u64,
) -> Result<u64, Error> {
    let alloc = rt.alloc();
    let (handle, runner) = opened(alloc, Host::new(alloc, 1))?;
    let (answered, _left) = run_beside(
        rt,
        &handle,
        runner,
        |handle| all_pinged(rt, handle, is_eight, times),
    );
    answered
}

/// The line of so many pings in all, from one thread or from eight.
pub fn line<R: Threads + Wait + Sync + AllocGlobal + Clock>(
    rt: &R,
    threads: u32,
    times: u32,
) -> anyhow::Result<String> {
    let answered = run(rt, threads == 8, u64::from(times))?;
    Ok(format!(in rt.alloc(); "{answered} answered")?)
}
