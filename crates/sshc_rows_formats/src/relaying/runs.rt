//! Runs over two streams. A row is: name | the policy's file | the client's bytes, the numbers of its reads and of its
//! writes that fail | the same of the agent | the bytes written to the client | those written to the agent | the
//! result. Bytes are in hexadecimal; `ok`, or the name of the error, is the result.

use crate::files::policy_of;
use crate::opener::{MemStream, stream_of};
use crate::row::{bytes_of, field_of};
use sshc_proxy::{Policy, ProxyError, proxy_run};
use sshc_toy::ToyVerifier;
use sshc_wire::NoMemory;
use std::alloc::Global;

/// Whether these bytes, in hexadecimal, were written.
pub fn is_written(alloc: Global, stream: &MemStream, bytes: &str) -> bool {
    stream.sink.contents() == bytes_of(alloc, bytes).as_slice()
}

fn is_said(alloc: Global, ended: Result<(), ProxyError>, text: &str) -> bool {
    match ended {
        Ok(()) => text == "ok",
        Err(error) => match format!(in alloc; "{error}") {
            Ok(name) => name.as_str() == text,
            Err(_) => false,
        },
    }
}

fn is_run(alloc: Global, policy: Policy, line: &str) -> Result<bool, NoMemory> {
    let mut client = stream_of(
        alloc,
        field_of(line, 2),
        field_of(line, 3),
        field_of(line, 4),
    )?;
    let mut agent = stream_of(
        alloc,
        field_of(line, 5),
        field_of(line, 6),
        field_of(line, 7),
    )?;
    let ended = proxy_run(policy, &mut client, &mut agent, &ToyVerifier::new(alloc));
    Ok(
        is_written(alloc, &client, field_of(line, 8))
            && is_written(alloc, &agent, field_of(line, 9))
            && is_said(alloc, ended, field_of(line, 10)),
    )
}

/// Whether the row holds.
pub fn is_right(rt: &HostRuntime, line: &str) -> anyhow::Result<bool> {
    match policy_of(rt, field_of(line, 1)) {
        Ok(policy) => Ok(is_run(rt.alloc(), policy, line)?),
        Err(_) => Ok(false),
    }
}
