//! The bytes of one call that wait.

ghost use Rattle.std.specs.Prelude.{◌≡◌, ◌<◌, ◌≤◌, ◌-◌, length, take, drop, IfOk};

use bytes::Bytes;
use sshc_wire::NoMemory;
use std::alloc::Global;
use std::marker::Model;

/// The kind of a channel's bytes, with the code of extended data (RFC 4254, section 5.2).
#[derive(Clone, Copy, PartialEq, Eq)]
pub enum Stream {
    /// Plain data.
    Data,
    /// Extended data of this type.
    Extended(u32),
}

/// The bytes of one call that still wait, with their kind: a part of a block that may have other owners.
#[derive(Drop)]
pub(crate) struct Chunk {
    stream: Stream,
    body: Bytes,
}

impl Model for Chunk {
    ghost use Rattle.sshc_mux.specs.ChannelState.{Waiting};

    ghost Value = { Waiting };

    ghost view = { λ k. record { stream = k.stream; bytes = k.body } };
}

impl Chunk {
    /// A copy of the bytes.
    pub(crate) fn new(alloc: Global, stream: Stream, body: &[u8]) -> Result<Chunk, NoMemory>
        ensures { IfOk result (λ k. k ≡ record { stream = stream; bytes = body.now }) }
    {
        Ok(Chunk {
            stream,
            body: Bytes::copy_from_slice(alloc, body)?,
        })
    }

    pub(crate) fn stream(&self) -> Stream
        ensures { result ≡ self.now.stream }
    {
        self.stream
    }

    /// The bytes that wait.
    pub(crate) fn bytes(&self) -> &[u8]
        ensures { result.now ≡ self.now.bytes }
    {
        self.body.as_slice()
    }

    /// The same, to be shared.
    pub(crate) fn body(&self) -> &Bytes
        ensures { result.now ≡ self.now.bytes }
    {
        &self.body
    }

    /// Counts bytes at the front as sent.
    pub(crate) fn skip(&mut self, count: usize)
        requires { count ≤ length self.old.bytes }
        ensures { self.new ≡ record { stream = self.old.stream; bytes = drop count self.old.bytes } }
    {
        self.body.advance(count);
    }
}
