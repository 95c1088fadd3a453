//! Frames of a connection, from bytes that come in pieces of any size (draft-miller-ssh-agent, section 3).

ghost use Rattle.std.specs.Prelude.{◌≡◌, ◌≤◌, OnErr, OnOk, drop, length};
ghost use Rattle.sshc_agent_core.specs.AgentFrames.{NextBy, no_bytes, pushed};

use crate::input::AgentInput;
use sshc_key::agent_msg::MAX_AGENT_FRAME_LEN;
use sshc_wire::{Cursor, NoMemory, Octets};
use std::alloc::Global;
use std::marker::Model;

/// The bytes of a connection that belong to no whole frame yet. After a length above 262144, all later bytes are
/// dropped.
#[derive(Drop)]
pub struct Frames {
    bytes: Vec<u8>,
    at: usize,
    is_over: bool,
}

impl Model for Frames {
    ghost use Rattle.std.specs.Prelude.{drop, length, ◌≤◌};
    ghost use Rattle.sshc_agent_core.specs.AgentFrames.{FrameBytes};

    ghost Value = { FrameBytes };

    ghost view = { λ f. record { bytes = drop f.at f.bytes.items; over = f.is_over } };

    ghost invariant = { λ f. f.at ≤ length f.bytes.items };
}

impl Frames {
    /// Holds no bytes yet.
    pub fn new(alloc: Global) -> Frames
        ensures { result ≡ no_bytes }
    {
        Frames {
            bytes: Vec::new(alloc),
            at: 0,
            is_over: false,
        }
    }

    /// Appends the connection's next bytes.
    pub fn push(&mut self, piece: &[u8]) -> Result<(), NoMemory>
        ensures ok { OnOk result (self.new ≡ pushed self.old piece.now) }
        ensures err { OnErr result (self.new ≡ self.old) }
    {
        if self.is_over {
            return Ok(());
        }
        // Frames already returned are dropped first, so that the bytes don't pile up.
        drop_front(&mut self.bytes, self.at);
        self.at = 0;
        self.bytes.extend_from_slice(piece)?;
        Ok(())
    }

    /// The next whole frame, or a length above the limit, which is returned once.
    #[tactic(auto, unfolding(crate::specs::AgentFrames::next_in))]
    pub fn next(&mut self) -> Result<Option<AgentInput>, NoMemory>
        ensures { NextBy self.old self.new result }
    {
        if self.is_over {
            return Ok(None);
        }
        let alloc = *self.bytes.allocator();
        let mut c = Cursor::new(&self.bytes[self.at..]);
        let Ok(length) = c.u32() else {
            return Ok(None);
        };
        if length > MAX_AGENT_FRAME_LEN {
            self.bytes.clear();
            self.at = 0;
            self.is_over = true;
            return Ok(Some(AgentInput::Oversize { length }));
        }
        let count = length as usize;
        let rest = c.rest();
        if rest.len() < count {
            return Ok(None);
        }
        let frame = Octets::from_slice(alloc, &rest[..count])?;
        self.at += 4 + count;
        Ok(Some(AgentInput::Frame(frame)))
    }
}

/// Drops the first `count` bytes.
#[tactic(auto, using(crate::proofs::Fronts::turned_cut))]
fn drop_front(bytes: &mut Vec<u8>, count: usize)
    requires { count ≤ length bytes.old.items }
    ensures { bytes.new.items ≡ drop count bytes.old.items }
{
    let left = bytes.len() - count;
    bytes.rotate_left(count);
    bytes.truncate(left);
}
