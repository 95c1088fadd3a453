//! Worked calls of an agent's client. A row is: name | the call | the bytes of the agent's answer | the numbers of the
//! reads and of the writes that fail | the bytes that are written | those left to read | the call's result. Bytes are in
//! hexadecimal. The stream of a row whose name begins with `slow-` moves one byte at a time. The call `connect WAY` opens
//! a stream by a path that `opens`, is `missing` or `fails`, or by `no` path.

mod outcome;

use crate::opener::MemOpener;
use crate::row::{bytes_of, field_of, numbers_of};
use outcome::{Client, connected, returned};
use sshc_ask::{AgentClient, Duplex};
use sshc_key::Error;
use sshc_wire::{MemSink, MemSource, NoMemory, PieceSink, PieceSource, read_up_to};
use std::alloc::Global;

/// The maximal number of bytes that a row leaves unread.
const MOST: usize = 4096;

fn client_of(alloc: Global, line: &str) -> Result<Client, NoMemory> {
    let reads = numbers_of(alloc, field_of(line, 3))?;
    let writes = numbers_of(alloc, field_of(line, 4))?;
    let is_slow = line.starts_with("slow-");
    let source = PieceSource {
        source: MemSource::new(bytes_of(alloc, field_of(line, 2)), reads),
        is_slow,
    };
    let sink = PieceSink {
        sink: MemSink::new(Vec::new(alloc), writes),
        is_slow,
    };
    Ok(AgentClient::connect(alloc, Duplex { source, sink }))
}

/// Whether a call's result, or its error by name, is the text.
fn is_said(alloc: Global, answer: Result<String, Error>, text: &str) -> bool {
    match answer {
        Ok(output) => output.as_str() == text,
        Err(error) => match format!(in alloc; "{error}") {
            Ok(name) => name.as_str() == text,
            Err(_) => false,
        },
    }
}

/// Whether these bytes are left to read.
fn is_left(alloc: Global, source: &mut PieceSource, left: &[u8]) -> bool {
    match read_up_to(alloc, source, MOST) {
        Ok(rest) => rest.as_slice() == left,
        Err(_) => left.is_empty(),
    }
}

/// Whether an agent's client is connected as the row says.
fn is_connected(alloc: Global, line: &str, way: &str) -> anyhow::Result<bool> {
    let mut opener = MemOpener::new(alloc, way, "")?;
    let path = if way == "no" { None } else { Some("socket") };
    let answer = connected(alloc, path, &mut opener);
    Ok(is_said(alloc, answer, field_of(line, 7)))
}

/// Whether the call of the row comes to what the row says.
pub fn is_right(alloc: Global, line: &str) -> anyhow::Result<bool> {
    if let Some(way) = field_of(line, 1).strip_prefix("connect ") {
        return is_connected(alloc, line, way);
    }
    let client = client_of(alloc, line)?;
    let (client, answer) = returned(alloc, client, field_of(line, 1));
    let is_returned = is_said(alloc, answer, field_of(line, 7));
    let mut stream = client.into_inner();
    let is_left = is_left(
        alloc,
        &mut stream.source,
        &bytes_of(alloc, field_of(line, 6)),
    );
    let is_written = stream.sink.sink.contents() == bytes_of(alloc, field_of(line, 5)).as_slice();
    Ok(is_written && is_left && is_returned)
}
