//! Pairs served by `serve_pair` over a server in memory, each by threads of its own. A pair holds if its stream was
//! written just what is to come back to it.

use crate::answers::leave;
use crate::echo::{Echo, echoing};
use sshc_client::Error;
use sshc_forward::serve_pair;
use sshc_handle::{Handle, HandleCalls};
use sshc_sample_fakes::{Keeper, at_once, run_beside};
use sshc_wire::{MemSink, MemSource, NoMemory};
use std::alloc::Global;
use std::sync::Wait;
use std::test::*;
use std::thread::Threads;
use std::time::Clock;

/// A stream in memory: how many bytes it has, which they are, and which of its reads and writes fail, counted from 0.
#[derive(Clone, Copy)]
struct Stream {
    size: usize,
    seed: u8,
    failing_read: Option<u64>,
    failing_write: Option<u64>,
}

/// A stream of which no call fails.
const fn whole(size: usize, seed: u8) -> Stream {
    Stream {
        size,
        seed,
        failing_read: None,
        failing_write: None,
    }
}

fn bytes_of(alloc: Global, stream: Stream) -> Result<Vec<u8>, NoMemory> {
    let mut bytes = Vec::new(alloc);
    let mut byte = stream.seed;
    for _ in 0..stream.size {
        bytes.push(byte)?;
        byte = byte.wrapping_mul(5).wrapping_add(stream.seed);
    }
    Ok(bytes)
}

fn number_of(alloc: Global, number: Option<u64>) -> Result<Vec<u64>, NoMemory> {
    let mut numbers = Vec::new(alloc);
    if let Some(number) = number {
        numbers.push(number)?;
    }
    Ok(numbers)
}

/// Opens a channel and serves the stream with it. Returns how many of the stream's bytes came back to it, or `None` if
/// other bytes did.
fn forward<R: Threads + Wait + Sync>(
    rt: &R,
    alloc: Global,
    handle: &Handle<Keeper>,
    stream: Stream,
) -> Result<Option<usize>, Error> {
    let reads = number_of(alloc, stream.failing_read)?;
    let writes = number_of(alloc, stream.failing_write)?;
    let bytes = bytes_of(alloc, stream)?;
    let mut reader = MemSource::new(bytes_of(alloc, stream)?, reads);
    let mut writer = MemSink::new(Vec::new(alloc), writes);
    let channel = handle.channel_open_direct_tcpip(rt, "echo", 7, "127.0.0.1", 1000)?;
    serve_pair(rt, alloc, handle, channel, &mut reader, &mut writer)?;
    let came = writer.contents();
    if bytes.as_slice().starts_with(came) {
        Ok(Some(came.len()))
    } else {
        Ok(None)
    }
}

/// How many bytes came back to each of two streams.
#[derive(Clone, Copy, PartialEq, Eq)]
struct Both {
    first: Result<Option<usize>, Error>,
    second: Result<Option<usize>, Error>,
}

/// Serves two streams at once, each in a thread of its own, and leaves.
fn forward_both<R: Threads + Wait + Sync>(
    rt: &R,
    alloc: Global,
    handle: &Handle<Keeper>,
    first: Stream,
    second: Stream,
) -> Both {
    let (first, second) = at_once(
        rt,
        handle,
        |handle| forward(rt, alloc, handle, first),
        |handle| forward(rt, alloc, handle, second),
    );
    let _ = leave(rt, handle);
    Both { first, second }
}

/// The same over a server of this kind.
fn served<R: Threads + Wait + Sync + Clock>(
    rt: &R,
    alloc: Global,
    echo: Echo,
    first: Stream,
    second: Stream,
) -> Result<Both, Error> {
    let (handle, runner) = echoing(alloc, echo)?;
    let (both, _run) = run_beside(
        rt,
        &handle,
        runner,
        |handle| forward_both(rt, alloc, handle, first, second),
    );
    Ok(both)
}

/// Serves one stream, on a channel of a session that was left.
fn forward_late<R: Threads + Wait + Sync>(
    rt: &R,
    alloc: Global,
    handle: &Handle<Keeper>,
    stream: Stream,
) -> Result<Option<usize>, Error> {
    let mut reader = MemSource::new(bytes_of(alloc, stream)?, Vec::new(alloc));
    let mut writer = MemSink::new(Vec::new(alloc), Vec::new(alloc));
    let channel = handle.channel_open_direct_tcpip(rt, "echo", 7, "127.0.0.1", 1000)?;
    let _ = leave(rt, handle);
    serve_pair(rt, alloc, handle, channel, &mut reader, &mut writer)?;
    Ok(Some(writer.contents().len()))
}

fn served_late<R: Threads + Wait + Sync + Clock>(
    rt: &R,
    alloc: Global,
    stream: Stream,
) -> Result<Option<usize>, Error> {
    let (handle, runner) = echoing(alloc, Echo::Back)?;
    let (came, _run) = run_beside(
        rt,
        &handle,
        runner,
        |handle| forward_late(rt, alloc, handle, stream),
    );
    came
}

/// Whether a front of the stream's bytes came back.
fn is_front(came: Result<Option<usize>, Error>) -> bool {
    matches!(came, Ok(Some(_)))
}

/// Two streams of different lengths, each of which gets its own bytes back.
fn two_pairs<R: Threads + Wait + Sync + Clock>(rt: &R, alloc: Global) -> Result<bool, Error> {
    let both = served(rt, alloc, Echo::Back, whole(200_000, 1), whole(70_000, 3))?;
    Ok(both.first == Ok(Some(200_000)) && both.second == Ok(Some(70_000)))
}

/// A read fails after the first piece; the other pair isn't touched by it.
fn a_failed_read<R: Threads + Wait + Sync + Clock>(rt: &R, alloc: Global) -> Result<bool, Error> {
    let mut stream = whole(200_000, 1);
    stream.failing_read = Some(1);
    let both = served(rt, alloc, Echo::Back, stream, whole(70_000, 3))?;
    Ok(is_front(both.first) && both.second == Ok(Some(70_000)))
}

/// The first write fails, so that nothing is written; the other pair isn't touched by it.
fn a_failed_write<R: Threads + Wait + Sync + Clock>(rt: &R, alloc: Global) -> Result<bool, Error> {
    let mut stream = whole(200_000, 1);
    stream.failing_write = Some(0);
    let both = served(rt, alloc, Echo::Back, stream, whole(70_000, 3))?;
    Ok(both.first == Ok(Some(0)) && both.second == Ok(Some(70_000)))
}

/// The server closes each channel when the first bytes come, so that nothing is written.
fn closed_channels<R: Threads + Wait + Sync + Clock>(rt: &R, alloc: Global) -> Result<bool, Error> {
    let both = served(rt, alloc, Echo::Closes, whole(200_000, 1), whole(70_000, 3))?;
    Ok(both.first == Ok(Some(0)) && both.second == Ok(Some(0)))
}

/// The session has ended when the pair is served, or ends meanwhile.
fn an_ended_session<R: Threads + Wait + Sync + Clock>(
    rt: &R,
    alloc: Global,
) -> Result<bool, Error> {
    let came = served_late(rt, alloc, whole(200_000, 1))?;
    Ok(came.is_some())
}

/// A row that pairs make.
#[derive(Clone, Copy)]
enum Pairs {
    TwoPairs,
    AFailedRead,
    AFailedWrite,
    ClosedChannels,
    AnEndedSession,
}

/// The rows, by their names.
const PAIRS: &[(&str, Pairs)] = &[
    ("two_pairs", Pairs::TwoPairs),
    ("a_failed_read", Pairs::AFailedRead),
    ("a_failed_write", Pairs::AFailedWrite),
    ("closed_channels", Pairs::ClosedChannels),
    ("an_ended_session", Pairs::AnEndedSession),
];

/// Whether the row holds.
fn holds<R: Threads + Wait + Sync + Clock>(rt: &R, alloc: Global, pairs: Pairs) -> bool {
    let held = match pairs {
        Pairs::TwoPairs => two_pairs(rt, alloc),
        Pairs::AFailedRead => a_failed_read(rt, alloc),
        Pairs::AFailedWrite => a_failed_write(rt, alloc),
        Pairs::ClosedChannels => closed_channels(rt, alloc),
        Pairs::AnEndedSession => an_ended_session(rt, alloc),
    };
    held == Ok(true)
}

/// Each row holds.
#[test]
fn serves_pairs(rt: HostRuntime) -> Result<(), Fail> {
    for (name, pairs) in PAIRS {
        assert!(&rt; holds(&rt, rt.alloc(), *pairs), "{name}");
    }
    Ok(())
}
