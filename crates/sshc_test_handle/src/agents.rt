//! A login whose signature an agent makes: the agent's client as the signer of a handle's call.

ghost use Rattle.std.specs.Prelude.{◌≡◌, ◌≤◌, None, length};
ghost use Rattle.sshc_wire.specs.Beside.{side};

use crate::answers::leave;
use crate::packets::{PROBE, PROBE_OK};
use crate::script::{Line, scripted};
use sshc_ask::AgentClient;
use sshc_handle::{AuthResult, Handle, HandleCalls, WithError};
use sshc_key::Error;
use sshc_sample_fakes::{Keeper, fake_key, run_beside};
use sshc_wire::{AgentStream, Failed, NoMemory, Sink, Source};
use std::alloc::Global;
use std::sync::Wait;
use std::test::*;

/// The agent's answer to a request to sign (draft-miller-ssh-agent, section 3.6): an Ed25519 signature of 64 times 9.
const SIGNED: &[u8] =
    b"\0\0\0X\x0e\0\0\0S\0\0\0\x0bssh-ed\x32\x35\x35\x31\x39\0\0\0@\x09\x09\x09\x09\x09\x09\x09\
    \x09\x09\x09\x09\x09\x09\x09\x09\x09\x09\x09\x09\x09\x09\x09\x09\x09\x09\x09\x09\x09\x09\x09\
    \x09\x09\x09\x09\x09\x09\x09\x09\x09\x09\x09\x09\x09\x09\x09\x09\x09\x09\x09\x09\x09\x09\x09\
    \x09\x09\x09\x09\x09\x09\x09\x09\x09\x09\x09";

/// The request to sign: the key's blob, the bytes of RFC 4252, section 7, and no flags.
const REQUEST: &[u8] =
    b"\0\0\0\xbe\x0d\0\0\0\x33\0\0\0\x0bssh-ed\x32\x35\x35\x31\x39\0\0\0 \x08\x08\x08\x08\x08\x08\
    \x08\x08\x08\x08\x08\x08\x08\x08\x08\x08\x08\x08\x08\x08\x08\x08\x08\x08\x08\x08\x08\x08\x08\
    \x08\x08\x08\0\0\0~\0\0\0\x0asession-id\x32\0\0\0\x05alice\0\0\0\x0essh-connection\0\0\0\x09pu\
    blickey\x01\0\0\0\x0bssh-ed\x32\x35\x35\x31\x39\0\0\0\x33\0\0\0\x0bssh-ed\x32\x35\x35\x31\x39\
    \0\0\0 \x08\x08\x08\x08\x08\x08\x08\x08\x08\x08\x08\x08\x08\x08\x08\x08\x08\x08\x08\x08\x08\
    \x08\x08\x08\x08\x08\x08\x08\x08\x08\x08\x08\0\0\0\0";

/// The login that the server awaits: the key with the agent's signature (RFC 4252, section 7).
const LOGIN: &[u8] =
    b"\x32\0\0\0\x05alice\0\0\0\x0essh-connection\0\0\0\x09publickey\x01\0\0\0\x0bssh-ed\x32\x35\
    \x35\x31\x39\0\0\0\x33\0\0\0\x0bssh-ed\x32\x35\x35\x31\x39\0\0\0 \x08\x08\x08\x08\x08\x08\x08\
    \x08\x08\x08\x08\x08\x08\x08\x08\x08\x08\x08\x08\x08\x08\x08\x08\x08\x08\x08\x08\x08\x08\x08\
    \x08\x08\0\0\0S\0\0\0\x0bssh-ed\x32\x35\x35\x31\x39\0\0\0@\x09\x09\x09\x09\x09\x09\x09\x09\x09\
    \x09\x09\x09\x09\x09\x09\x09\x09\x09\x09\x09\x09\x09\x09\x09\x09\x09\x09\x09\x09\x09\x09\x09\
    \x09\x09\x09\x09\x09\x09\x09\x09\x09\x09\x09\x09\x09\x09\x09\x09\x09\x09\x09\x09\x09\x09\x09\
    \x09\x09\x09\x09\x09\x09\x09\x09\x09";

/// A stream to an agent that answers the first request. Contracts see no bytes of it.
#[derive(Drop)]
struct Agent {
    asked: Vec<u8>,
    /// How many bytes of the answer were read.
    read: usize,
    reads: u64,
    empty_reads: u64,
    writes: u64,
    empty_writes: u64,
}

impl Agent {
    fn new(alloc: Global) -> Agent {
        Agent {
            asked: Vec::new(alloc),
            read: 0,
            reads: 0,
            empty_reads: 0,
            writes: 0,
            empty_writes: 0,
        }
    }

    /// Whether it was asked once, to sign a login by the key.
    fn was_asked(&self) -> bool {
        self.asked.as_slice() == REQUEST
    }
}

/// Copies bytes of the answer that weren't read yet, and returns how many.
fn give(read: usize, buf: &mut [u8]) -> usize
    ensures bound { result ≤ length buf.new }
    ensures size { length buf.new ≡ length buf.old }
{
    let left = SIGNED.get(read..).unwrap_or(&[]);
    let count = left.len().min(buf.len());
    buf[..count].copy_from_slice(&left[..count]);
    count
}

impl Source for Agent {
    ghost left = { λ a. None };

    ghost faults = { λ a. 0 };

    ghost reads = { λ a. a.reads };

    ghost empty_reads = { λ a. a.empty_reads };

    ghost beside = { λ a. side None a.writes a.empty_writes 0 };

    fn read(&mut self, buf: &mut [u8]) -> Result<usize, Failed> {
        self.reads = self.reads.saturating_add(1);
        let count = give(self.read, buf);
        self.read = self.read.saturating_add(count);
        if count == 0 && !buf.is_empty() {
            self.empty_reads = self.empty_reads.saturating_add(1);
        }
        Ok(count)
    }
}

impl Sink for Agent {
    ghost contents = { λ a. None };

    ghost faults = { λ a. 0 };

    ghost writes = { λ a. a.writes };

    ghost empty_writes = { λ a. a.empty_writes };

    ghost beside = { λ a. side None a.reads a.empty_reads 0 };

    fn write(&mut self, piece: &[u8]) -> Result<usize, Failed> {
        self.writes = self.writes.saturating_add(1);
        match self.asked.extend_from_slice(piece) {
            Ok(()) => Ok(piece.len()),
            Err(_) => {
                self.empty_writes = self.empty_writes.saturating_add(1);
                Err(Failed::NoMemory)
            }
        }
    }
}

impl AgentStream for Agent {
    ghost use Rattle.std.specs.Prelude.{refl};

    ghost beside_reads = { λ a. refl };

    ghost beside_writes = { λ a. refl };
}

/// The server accepts the key, and then its signature.
const LOGIN_LINES: &[Line] = &[
    (b"\x05\0\0\0\x0cssh-userauth", b"\x06\0\0\0\x0cssh-userauth"),
    (PROBE, PROBE_OK),
    (LOGIN, b"\x34"),
];

/// Logs in by a key that the agent holds, and leaves. Returns whether the user is in, and the agent was asked.
fn log_in_and_leave<R: Wait>(rt: &R, alloc: Global, handle: &Handle<Keeper>) -> bool {
    let mut client = AgentClient::connect(alloc, Agent::new(alloc));
    let is_in = match fake_key(alloc) {
        Ok(key) => is_success(handle.authenticate_publickey_with(
            rt,
            "alice",
            key,
            None,
            &mut client,
        )),
        Err(NoMemory) => false,
    };
    let _ = leave(rt, handle);
    is_in && client.into_inner().was_asked()
}

fn is_success(answer: Result<AuthResult, WithError<Error>>) -> bool {
    matches!(answer, Ok(AuthResult::Success))
}

/// An agent's client signs a login: the agent is asked for the bytes of RFC 4252, and its signature reaches the server.
#[test]
fn logs_in_by_an_agent(rt: HostRuntime) -> Result<(), Fail> {
    let alloc = rt.alloc();
    let (handle, runner) = scripted(alloc, false, LOGIN_LINES)?;
    let (is_in, _left) = run_beside(
        &rt,
        &handle,
        runner,
        |handle| log_in_and_leave(&rt, alloc, handle),
    );
    assert!(&rt; is_in);
    Ok(())
}
