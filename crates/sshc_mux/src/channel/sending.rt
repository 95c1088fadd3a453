//! What a channel sends: its waiting bytes, and then EOF and close if they are due (RFC 4254, sections 5.2 and 5.3).

ghost use Rattle.std.specs.Prelude.{◌≡◌, ◌<◌, ◌≤◌, ◌++◌, [], ◌&&◌, if◌then◌else◌, OnOk, OnErr, IsOk};
ghost use Rattle.sshc_wire.specs.Outgoing.{Grows};
ghost use Rattle.sshc_mux.specs.Packets.{adding, payloads, Eof, Close};
ghost use Rattle.sshc_mux.specs.ChannelTable.{Turned, in_flow};
ghost use Rattle.sshc_mux.specs.ChannelTable.Sending.{room_of, emptied, ended, flushed, due_of};

use crate::channel::Channel;
use crate::packets::{push_close, push_eof};
use crate::waiting::{drop_sent, push_sent};
use sshc_wire::{NoMemory, Outbox};

impl Channel {
    /// For how many bytes there is room now.
    pub(super) fn room(&self, exchanging: bool) -> u32
        ensures room { result ≡ room_of exchanging self.now.head self.now.flow }
        ensures within { result ≤ self.now.flow.window }
        ensures size { 0 < result → 0 < self.now.head.packet_size }
    {
        if self.is_established && !exchanging && self.packet_size > 0 {
            self.window
        } else {
            0
        }
    }

    /// Adds EOF and close if they are due, unless bytes wait.
    #[tactic(auto, unfolding(crate::specs::Packets::adding))]
    fn push_ends(&self, is_empty: bool, out: &mut Outbox) -> Result<(), NoMemory>
        ensures output { OnOk result (out.new ≡ adding out.old (payloads self.now.head.recipient
            (if self.now.head.established && is_empty then due_of self.now.flow else []))) }
        ensures some { OnErr result (Grows out.old.records out.new.records) }
        ensures same { out.new.muted ≡ out.old.muted }
        ensures succeeds { (if self.now.head.established && is_empty then due_of self.now.flow else []) ≡ []
            → IsOk result }
    {
        if !self.is_established || !is_empty {
            return Ok(());
        }
        if self.eof.is_due() {
            push_eof(self.recipient, out)?;
        }
        if self.close.is_due() {
            push_close(self.recipient, out)?;
        }
        Ok(())
    }

    /// Adds what the channel may send now. Out of memory, some of it may be added.
    pub(crate) fn push_flushed(&self, exchanging: bool, out: &mut Outbox) -> Result<(), NoMemory>
        ensures output { OnOk result (out.new ≡ adding out.old
            (payloads self.now.head.recipient (flushed exchanging self.now.head self.now.flow).packets)) }
        ensures some { OnErr result (Grows out.old.records out.new.records) }
        ensures same { out.new.muted ≡ out.old.muted }
        ensures succeeds { (flushed exchanging self.now.head self.now.flow).packets ≡ [] → IsOk result }
    {
        let room = self.room(exchanging);
        let is_empty = push_sent(
            self.recipient,
            self.packet_size,
            room as usize,
            &self.pending,
            out,
        )?;
        self.push_ends(is_empty, out)?;
        Ok(())
    }

    /// Removes the bytes that there is room for.
    fn empty(&mut self, room: u32)
        requires { room ≤ self.old.flow.window }
        ensures { self.new ≡ record self.old { flow = emptied room self.old.flow } }
    {
        let left = drop_sent(&mut self.pending, room as usize);
        self.window -= room - left as u32;
    }

    /// Marks EOF and close as sent if they are due, unless bytes wait.
    fn end(&mut self)
        ensures { self.new ≡ record self.old { flow = ended self.old.head self.old.flow } }
    {
        if self.is_established && self.pending.len() == 0 {
            self.eof = self.eof.done();
            self.close = self.close.done();
        }
    }

    /// Marks as sent what the channel may send now.
    #[tactic(auto, unfolding(crate::specs::ChannelTable::Sending::flushed))]
    pub(crate) fn count_flushed(&mut self, exchanging: bool)
        ensures { self.new ≡ (in_flow (flushed exchanging) self.old).channel }
    {
        let room = self.room(exchanging);
        self.empty(room);
        self.end();
    }

    /// Sends what the channel may send now, or changes nothing.
    #[tactic(auto, unfolding(crate::specs::Packets::adding), using(crate::proofs::AddingLemmas::cut_back))]
    pub(crate) fn flush(&mut self, exchanging: bool, out: &mut Outbox) -> Result<(), NoMemory>
        ensures turn { Turned (in_flow (flushed exchanging) self.old) self.old self.new out.old out.new result }
        ensures succeeds { (flushed exchanging self.old.head self.old.flow).packets ≡ [] → IsOk result }
    {
        let count = out.len();
        match self.push_flushed(exchanging, out) {
            Ok(()) => {
                self.count_flushed(exchanging);
                Ok(())
            }
            Err(error) => {
                out.truncate(count);
                Err(error)
            }
        }
    }
}
