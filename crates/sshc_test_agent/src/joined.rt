//! An agent's client over a stream whose other end is an agent.

ghost use Rattle.std.specs.Prelude.{◌≡◌, ◌≤◌, None, length};
ghost use Rattle.sshc_wire.specs.Beside.{side};

use crate::frames::PAIR;
use sshc_agent_core::{AgentCore, AgentInput, AgentOutput};
use sshc_ask::AgentClient;
use sshc_key::{
    AgentIdentity, Constraint, Error, PrivateKey, PublicKey, Signature, Verifier, read_key_pair,
};
use sshc_toy::{ToySigner, ToyVerifier};
use sshc_wire::{AgentStream, Cursor, Failed, NoMemory, Octets, Sink, Source};
use std::alloc::Global;

/// An agent that answers frames as they are written.
#[derive(Drop)]
struct Answering {
    alloc: Global,
    agent: AgentCore,
    signer: ToySigner,
    /// Bytes that were written and are no whole frame yet.
    asked: Vec<u8>,
    /// Answers, and how many of their bytes were read.
    answers: Vec<u8>,
    read: usize,
}

/// The frame at the front of the bytes, without its length; `None` if it isn't whole.
fn whole_frame(bytes: &[u8]) -> Option<&[u8]> {
    Cursor::new(bytes).bytes().ok()
}

impl Answering {
    fn new(alloc: Global) -> Answering {
        Answering {
            alloc,
            agent: AgentCore::new(alloc, false),
            signer: ToySigner::new(alloc),
            asked: Vec::new(alloc),
            answers: Vec::new(alloc),
            read: 0,
        }
    }

    /// Has the agent answer the frame that was written, if it is whole.
    fn answer(&mut self) -> Result<(), NoMemory> {
        let Some(frame) = whole_frame(&self.asked) else {
            return Ok(());
        };
        let input = AgentInput::Frame(Octets::from_slice(self.alloc, frame)?);
        self.asked.clear();
        let output = self.agent.step(0, 1, &input, &mut self.signer);
        match output {
            AgentOutput::Answer(answer) => {
                self.answers.extend_from_slice(answer.as_slice())?;
                Ok(())
            }
            _ => Ok(()),
        }
    }

    fn take(&mut self, piece: &[u8]) -> Result<(), NoMemory> {
        self.asked.extend_from_slice(piece)?;
        self.answer()
    }

    /// Copies bytes of answers that weren't read yet, and returns how many.
    fn give(&mut self, buf: &mut [u8]) -> usize
        ensures bound { result ≤ length buf.new }
        ensures size { length buf.new ≡ length buf.old }
    {
        let left = self.answers.get(self.read..).unwrap_or(&[]);
        let count = left.len().min(buf.len());
        buf[..count].copy_from_slice(&left[..count]);
        self.read = self.read.saturating_add(count);
        count
    }
}

/// A stream in memory to an agent: a frame that is written whole is answered, and the answer is read. Contracts see no
/// bytes of it, since a write changes what there is to read.
#[derive(Drop)]
struct Joined {
    other: Answering,
    reads: u64,
    empty_reads: u64,
    writes: u64,
    empty_writes: u64,
}

impl Joined {
    fn new(alloc: Global) -> Joined {
        Joined {
            other: Answering::new(alloc),
            reads: 0,
            empty_reads: 0,
            writes: 0,
            empty_writes: 0,
        }
    }
}

impl Source for Joined {
    ghost left = { λ s. None };

    ghost faults = { λ s. 0 };

    ghost reads = { λ s. s.reads };

    ghost empty_reads = { λ s. s.empty_reads };

    ghost beside = { λ s. side None s.writes s.empty_writes 0 };

    fn read(&mut self, buf: &mut [u8]) -> Result<usize, Failed> {
        self.reads = self.reads.saturating_add(1);
        let count = self.other.give(buf);
        if count == 0 && !buf.is_empty() {
            self.empty_reads = self.empty_reads.saturating_add(1);
        }
        Ok(count)
    }
}

impl Sink for Joined {
    ghost contents = { λ s. None };

    ghost faults = { λ s. 0 };

    ghost writes = { λ s. s.writes };

    ghost empty_writes = { λ s. s.empty_writes };

    ghost beside = { λ s. side None s.reads s.empty_reads 0 };

    fn write(&mut self, piece: &[u8]) -> Result<usize, Failed> {
        self.writes = self.writes.saturating_add(1);
        match self.other.take(piece) {
            Ok(()) => Ok(piece.len()),
            Err(NoMemory) => {
                self.empty_writes = self.empty_writes.saturating_add(1);
                Err(Failed::NoMemory)
            }
        }
    }
}

impl AgentStream for Joined {
    ghost use Rattle.std.specs.Prelude.{refl};

    ghost beside_reads = { λ s. refl };

    ghost beside_writes = { λ s. refl };
}

type Client = AgentClient<Joined>;

fn pair_of(alloc: Global) -> Result<PrivateKey, Error> {
    read_key_pair(alloc, &mut Cursor::new(PAIR))
}

/// Adds the pair for a minute.
fn added(alloc: Global, client: &mut Client) -> Result<(), Error> {
    let pair = pair_of(alloc)?;
    let answer = client.add_identity(&pair, &[Constraint::KeyLifetime { seconds: 60 }]);
    drop(pair);
    answer
}

/// Whether the key is the only one that the agent lists.
fn is_listed(client: &mut Client, key: &PublicKey) -> Result<bool, Error> {
    let found = client.request_identities()?;
    let is_alone = match found.as_slice() {
        [AgentIdentity::PublicKey { key: listed, .. }] => listed.key == key.key,
        _ => false,
    };
    drop(found);
    Ok(is_alone)
}

fn is_accepted(alloc: Global, key: &PublicKey, signature: &Signature) -> bool {
    ToyVerifier::new(alloc).verifies(&key.key, b"bytes", signature) == Ok(true)
}

/// Whether the agent signs with the key, and the signature is accepted.
fn is_signed(alloc: Global, client: &mut Client, key: &PublicKey) -> Result<bool, Error> {
    let signature = client.sign_request_signature(key, None, b"bytes")?;
    let is_accepted = is_accepted(alloc, key, &signature);
    drop(signature);
    Ok(is_accepted)
}

/// Whether an agent without a lock lists and signs, and a locked one does neither.
fn is_locked_between(alloc: Global, client: &mut Client, key: &PublicKey) -> Result<bool, Error> {
    let before = is_listed(client, key)? && is_signed(alloc, client, key)?;
    client.lock(b"pw")?;
    let meanwhile = !is_listed(client, key)?
        && is_signed(alloc, client, key) == Err(Error::AgentProtocolError);
    client.unlock(b"pw")?;
    let afterwards = is_listed(client, key)? && is_signed(alloc, client, key)?;
    client.remove_all_identities()?;
    Ok(before && meanwhile && afterwards && !is_listed(client, key)?)
}

/// Whether all calls come out as they should.
fn agree(alloc: Global) -> Result<bool, Error> {
    let mut client = AgentClient::connect(alloc, Joined::new(alloc));
    added(alloc, &mut client)?;
    let pair = pair_of(alloc)?;
    let answer = is_locked_between(alloc, &mut client, &pair.public);
    drop(pair);
    answer
}

#[test]
fn a_client_of_this_agent(rt: HostRuntime) {
    assert!(rt; agree(rt.alloc()) == Ok(true));
}
