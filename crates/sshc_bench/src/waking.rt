//! A session over a transport that another thread fills: what a call costs, and what waiting costs. README.md says what
//! each run does.

use crossbeam_channel::{Receiver, Sender, unbounded};
use sshc_client::{Config, Error};
use sshc_handle::{Handle, HandleCalls, Runner, Waker, at_once, connect_stream};
use sshc_sample_fakes::{FarServer, FarTransport, Host, Keeper, StillClock, across_threads};
use sshc_toy::{RefusingVerifier, ToySigner};
use sshc_wire::{ChannelId, Disconnect};
use std::alloc::Global;
use std::sync::Wait;
use std::thread;
use std::thread::Threads;
use std::time::{Clock, Duration};

/// A runner over a server in another thread.
type FarRunner = Runner<Keeper, FarTransport, ToySigner, RefusingVerifier, StillClock>;

/// The server of such a runner.
type Server = FarServer<Host>;

/// A session that its first exchange opens, and its server.
fn session(alloc: Global) -> Result<(Handle<Keeper>, FarRunner, Server), Error> {
    let host = Host::granting(alloc, 1);
    let coming = host.greeting()?;
    let (transport, server) = across_threads(alloc, host, coming)?;
    let mut config = Config::default_in(alloc)?;
    config.anonymous = true;
    let (handle, runner) = connect_stream(
        alloc,
        config,
        transport,
        Keeper,
        ToySigner::new(alloc),
        RefusingVerifier,
        StillClock(0),
    )?;
    Ok((handle, runner, server))
}

/// Sends so many pings, one after the other, and returns how many were answered.
fn ping<R: Wait>(rt: &R, handle: &Handle<Keeper>, times: u64) -> u64 {
    let mut answered = 0u64;
    for _ in 0..times {
        if handle.send_ping(rt).is_ok() {
            answered = answered.saturating_add(1);
        }
    }
    answered
}

/// What the user of a session does, before it leaves.
#[derive(Clone, Copy)]
enum Use {
    Ping(u64),
    /// So many pings while so many threads wait for a channel each.
    Beside(u64, u64),
    /// Nothing for so many milliseconds.
    Idle(u64),
}

/// Waits for what happens on the channel of this number; nothing does before the end.
fn await_end<R: Wait>(rt: &R, handle: &Handle<Keeper>, number: u64) -> u64 {
    match handle.channel(ChannelId((number % 0x1_0000_0000) as u32)) {
        Ok(channel) => {
            let mut channel = channel;
            match channel.wait(rt) {
                Some(_) => 1,
                None => 0,
            }
        }
        Err(_) => 0,
    }
}

fn leave<R: Wait>(rt: &R, handle: &Handle<Keeper>) {
    let _ = handle.disconnect(rt, Disconnect::ByApplication, "", "");
}

/// What the first of many threads does, and the others.
fn do_one<R: Wait>(rt: &R, handle: &Handle<Keeper>, at: usize, times: u64) -> u64 {
    if at == 0 {
        let answered = ping(rt, handle, times);
        leave(rt, handle);
        answered
    } else {
        await_end(rt, handle, at as u64)
    }
}

fn use_and_leave<R: Threads + Wait + Sync + Clock>(
    rt: &R,
    alloc: Global,
    handle: &Handle<Keeper>,
    used: Use,
) -> u64 {
    match used {
        Use::Ping(times) => do_one(rt, handle, 0, times),
        Use::Beside(threads, times) => {
            let all = thread::map_indices(
                rt,
                alloc,
                (threads.min(4096) + 1) as usize,
                &|at| do_one(rt, handle, at, times),
            );
            match all {
                Ok(counts) => counts
                    .iter()
                    .fold(0u64, |sum, one| sum.saturating_add(*one)),
                Err(_) => 0,
            }
        }
        Use::Idle(ms) => {
            thread::sleep(rt, Duration::from_millis(ms));
            do_one(rt, handle, 0, 0)
        }
    }
}

/// Runs a session with such a use, and its server and its runner in threads of their own.
fn run<R: Threads + Wait + Sync + Clock>(
    rt: &R,
    alloc: Global,
    is_woken: bool,
    used: Use,
) -> Result<u64, Error> {
    let (handle, runner, server) = session(alloc)?;
    let mut runner = runner;
    let waker = if is_woken {
        Some(runner.waker()?)
    } else {
        None
    };
    let (answered, _served) = at_once(
        rt,
        &handle,
        |handle| use_and_leave(rt, alloc, handle, used),
        |_handle| thread::join(rt, || server.serve(rt, waker.as_ref()), || runner.run(rt)),
    );
    Ok(answered)
}

/// Sends back each number that comes, until the channel is closed.
fn echo<R: Wait>(rt: &R, from: Receiver<u64>, to: Sender<u64>) {
    for number in from.iter(rt) {
        if to.send(rt, number).is_err() {
            break;
        }
    }
}

/// Passes so many numbers to the other thread and back, one after the other.
fn pass<R: Wait>(rt: &R, to: Sender<u64>, from: Receiver<u64>, times: u64) -> u64 {
    let mut passed = 0u64;
    for number in 0..times {
        if to.send(rt, number).is_err() {
            break;
        }
        if from.recv(rt) == Ok(number) {
            passed = passed.saturating_add(1);
        }
    }
    passed
}

fn by_channel<R: Threads + Wait + Sync>(
    rt: &R,
    alloc: Global,
    times: u64,
) -> Result<u64, std::alloc::AllocError> {
    let (to, heard) = unbounded(alloc)?;
    let (output, from) = unbounded(alloc)?;
    let (passed, _echoed) = thread::join(
        rt,
        || pass(rt, to, from, times),
        || echo(rt, heard, output),
    );
    Ok(passed)
}

/// Makes a run of this name, and returns how many pings or numbers came back. An unknown name makes no run.
pub fn answered<R: Threads + Wait + Sync + AllocGlobal + Clock>(
    rt: &R,
    name: &str,
    first: u64,
    second: u64,
) -> anyhow::Result<u64> {
    let alloc = rt.alloc();
    match name {
        "woken" => Ok(run(rt, alloc, true, Use::Ping(first))?),
        "polled" => Ok(run(rt, alloc, false, Use::Ping(first))?),
        "beside" => Ok(run(rt, alloc, true, Use::Beside(first, second))?),
        "idle" => Ok(run(rt, alloc, true, Use::Idle(first))?),
        "idle-polled" => Ok(run(rt, alloc, false, Use::Idle(first))?),
        "channel" => Ok(by_channel(rt, alloc, first)?),
        _ => Ok(0),
    }
}
