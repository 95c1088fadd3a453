//! A fault of one connection beside others.

use crate::calls::let_go;
use crate::frames::LISTS;
use crate::serving::listener::{FlagStream, Streams, failing_stream, stream};
use crate::serving::locking::{has_answer, put_frame, served};
use sshc_agent_core::Entry;
use sshc_agent_shared::CloseError;
use sshc_wire::NoMemory;
use std::alloc::Global;
use std::test::*;

/// The length of a frame above the limit.
const TOO_LONG: &[u8] = b"\xff\xff\xff\xff";

/// The answer to a listing of no keys.
const NO_KEYS: &[u8] = b"\0\0\0\x05\x0c\0\0\0\0";

/// A stream that asks for a listing.
fn listing(alloc: Global) -> Result<Vec<u8>, NoMemory> {
    let mut bytes = Vec::new(alloc);
    put_frame(&mut bytes, LISTS)?;
    Ok(bytes)
}

/// Connection 1 sends what is no frame, a write to connection 2 fails, and connection 3 asks for a listing.
fn three_streams<'a>(alloc: Global) -> Result<Vec<FlagStream<'a>>, NoMemory> {
    let mut streams = Vec::new(alloc);
    streams.push(stream(alloc, listing(alloc)?, None))?;
    streams.push(failing_stream(alloc, listing(alloc)?)?)?;
    streams.push(stream(alloc, Vec::from_slice(alloc, TOO_LONG)?, None))?;
    Ok(streams)
}

/// Whether connection 3 got its listing.
fn is_served(answer: Result<Vec<Entry>, CloseError>) -> bool {
    match answer {
        Ok(history) => has_answer(&history, 3, 1, NO_KEYS),
        Err(why) => {
            let_go(why);
            false
        }
    }
}

#[test]
fn a_fault_of_one_connection_closes_no_other(rt: HostRuntime) -> Result<(), Fail> {
    let streams = Streams::new(three_streams(rt.alloc())?, false);
    let is_served = is_served(served(&rt, rt.alloc(), streams, &()));
    assert!(rt; is_served);
    Ok(())
}
