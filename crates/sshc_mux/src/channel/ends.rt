//! What a channel takes to send, and its ends (RFC 4254, sections 5.2 and 5.3).

ghost use Rattle.std.specs.Prelude.{◌≡◌, ◌<◌, ◌++◌, ◌&&◌, ◌==◌, not, length, [], true, false, IsOk, IfOk, OnOk, OnErr};
ghost use Rattle.std.specs.VecDeque.{deque_len, deque_capacity};
ghost use Rattle.sshc_wire.specs.Outgoing.{listed, shown};
ghost use Rattle.sshc_mux.specs.Packets.{payloads};
ghost use Rattle.sshc_mux.specs.ChannelTable.{Turned, last_packets, in_flow, data_turn, eof_turn, close_turn};
ghost use Rattle.sshc_mux.specs.ChannelTable.Ends.{takes, waiting_of, flush_with};

use crate::channel::Channel;
use crate::chunk::{Chunk, Stream};
use crate::packets::{push_close, push_pieces};
use sshc_wire::{NoMemory, Outbox};
use std::alloc::Global;
use std::collections::VecDeque;

impl Channel {
    /// Whether bytes are taken.
    fn takes(&self) -> bool
        ensures { result ≡ takes self.now.flow }
    {
        self.eof.is_unasked() && self.close.is_unasked()
    }

    /// Takes bytes, and sends what may be sent.
    pub(crate) fn data(
        &mut self,
        alloc: Global,
        stream: Stream,
        body: &[u8],
        exchanging: bool,
        out: &mut Outbox,
    ) -> Result<(), NoMemory>
        ensures turn { Turned (data_turn stream body.now exchanging self.old) self.old self.new out.old out.new result }
        ensures succeeds { (takes self.old.flow && not (length body.now == 0)) ≡ false → IsOk result }
    {
        if !self.takes() || body.len() == 0 {
            return Ok(());
        }
        if self.pending.len() == 0 {
            self.send_front(alloc, stream, body, exchanging, out)
        } else {
            self.send_behind(alloc, stream, body, exchanging, out)
        }
    }

    /// Takes bytes when none wait: what there is room for is sent directly, and only the rest is copied.
    #[tactic(auto, unfolding(crate::specs::Packets::adding), using(crate::proofs::AddingLemmas::cut_back))]
    fn send_front(
        &mut self,
        alloc: Global,
        stream: Stream,
        body: &[u8],
        exchanging: bool,
        out: &mut Outbox,
    ) -> Result<(), NoMemory>
        requires taken { takes self.old.flow ≡ true }
        requires alone { self.old.flow.pending ≡ [] }
        ensures { Turned (in_flow (flush_with stream body.now exchanging) self.old)
            self.old self.new out.old out.new result }
    {
        let room = self.room(exchanging);
        let (front, rest) = body.split_at(body.len().min(room as usize));
        let waiting = waiting_of(alloc, stream, rest)?;
        self.pending.reserve(1)?;
        let count = out.len();
        match push_pieces(self.recipient, self.packet_size, stream, front, out) {
            Ok(()) => {
                keep(&mut self.pending, waiting);
                self.window -= front.len() as u32;
                Ok(())
            }
            Err(error) => {
                out.truncate(count);
                Err(error)
            }
        }
    }

    /// Takes bytes that wait after the others, and sends what may be sent.
    fn send_behind(
        &mut self,
        alloc: Global,
        stream: Stream,
        body: &[u8],
        exchanging: bool,
        out: &mut Outbox,
    ) -> Result<(), NoMemory>
        ensures { Turned (in_flow (flush_with stream body.now exchanging) self.old)
            self.old self.new out.old out.new result }
    {
        self.pending.push_back(Chunk::new(alloc, stream, body)?)?;
        match self.flush(exchanging, out) {
            Ok(()) => Ok(()),
            Err(error) => {
                let _ = self.pending.pop_back();
                Err(error)
            }
        }
    }

    /// Asks for EOF, and sends it where no bytes wait.
    pub(crate) fn ask_eof(&mut self, out: &mut Outbox) -> Result<(), NoMemory>
        ensures turn { Turned (eof_turn self.old) self.old self.new out.old out.new result }
        ensures succeeds { (eof_turn self.old).packets ≡ [] → IsOk result }
    {
        let before = self.eof;
        if !self.close.is_sent() {
            self.eof = before.asked();
        }
        match self.flush(true, out) {
            Ok(()) => Ok(()),
            Err(error) => {
                self.eof = before;
                Err(error)
            }
        }
    }

    /// Asks for our close, and sends it where no bytes wait.
    pub(crate) fn ask_close(&mut self, out: &mut Outbox) -> Result<(), NoMemory>
        ensures turn { Turned (close_turn self.old) self.old self.new out.old out.new result }
        ensures succeeds { (close_turn self.old).packets ≡ [] → IsOk result }
    {
        let before = self.close;
        self.close = before.asked();
        match self.flush(true, out) {
            Ok(()) => Ok(()),
            Err(error) => {
                self.close = before;
                Err(error)
            }
        }
    }

    /// Answers the peer's close by ours, unless ours was sent.
    #[tactic(auto, unfolding(crate::specs::Packets::adding))]
    pub(crate) fn push_last(&self, out: &mut Outbox) -> Result<(), NoMemory>
        ensures ok { OnOk result (out.new.records ≡ out.old.records
            ++ shown out.old.muted (payloads self.now.head.recipient (last_packets self.now))) }
        ensures err { OnErr result (out.new.records ≡ out.old.records) }
        ensures succeeds { last_packets self.now ≡ [] → IsOk result }
        ensures same { out.new.muted ≡ out.old.muted }
    {
        if self.close.is_sent() {
            return Ok(());
        }
        push_close(self.recipient, out)
    }
}

/// The bytes as an entry that waits; `None` for no bytes.
fn waiting_of(alloc: Global, stream: Stream, rest: &[u8]) -> Result<Option<Chunk>, NoMemory>
    ensures { IfOk result (λ w. listed w ≡ waiting_of stream rest.now) }
{
    if rest.len() == 0 {
        return Ok(None);
    }
    Ok(Some(Chunk::new(alloc, stream, rest)?))
}

/// Adds the bytes, if there are any, to those that wait, where there is room for them.
fn keep(pending: &mut VecDeque<Chunk>, waiting: Option<Chunk>)
    requires { deque_len pending.old < deque_capacity pending.old }
    ensures { pending.new.items ≡ pending.old.items ++ listed waiting }
{
    if let Some(chunk) = waiting {
        pending.push_back_reserved(chunk);
    }
}
