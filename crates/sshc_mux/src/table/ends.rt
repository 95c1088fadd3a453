//! EOF and close, ours and the peer's (RFC 4254, section 5.3).

ghost use Rattle.std.specs.Prelude.{◌≡◌, OnOk, IfOk, IsOk, None, false};
ghost use Rattle.sshc_mux.specs.ChannelState.{channel_of};
ghost use Rattle.sshc_mux.specs.ChannelAccount.{called, Did, DidItsPart, WritesNothing, AskEof, AskClose, PeerClose};
ghost use Rattle.sshc_mux.specs.ChannelTable.{is_established};

use crate::table::{ChannelTable, place, recounted, remove};
use sshc_wire::{ChannelId, NoMemory, Outbox};

impl ChannelTable {
    /// Asks for EOF, which is sent once, after all bytes that were taken.
    #[tactic(auto, using(crate::proofs::LegalLemmas::did_part))]
    pub fn eof(&mut self, id: ChannelId, out: &mut Outbox) -> Result<(), NoMemory>
        ensures did { Did (AskEof id.0) self.old self.new out.old out.new result }
        ensures part { OnOk result (DidItsPart (AskEof id.0) self.old self.new) }
        ensures succeeds { WritesNothing (AskEof id.0) self.old → IsOk result }
    {
        let Some(at) = place(self.slots.as_slice(), &self.index, id.0) else {
            return Ok(());
        };
        let Some(channel) = &mut self.slots[at] else {
            return Ok(());
        };
        let waited = channel.waits();
        let result = channel.ask_eof(out);
        self.waiting = recounted(self.waiting, waited, channel.waits());
        result
    }

    /// Asks for our close, which is sent once, after all bytes that were taken and EOF.
    #[tactic(auto, using(crate::proofs::LegalLemmas::did_part))]
    pub fn close_own(&mut self, id: ChannelId, out: &mut Outbox) -> Result<(), NoMemory>
        ensures did { Did (AskClose id.0) self.old self.new out.old out.new result }
        ensures part { OnOk result (DidItsPart (AskClose id.0) self.old self.new) }
        ensures succeeds { WritesNothing (AskClose id.0) self.old → IsOk result }
    {
        let Some(at) = place(self.slots.as_slice(), &self.index, id.0) else {
            return Ok(());
        };
        let Some(channel) = &mut self.slots[at] else {
            return Ok(());
        };
        let waited = channel.waits();
        let result = channel.ask_close(out);
        self.waiting = recounted(self.waiting, waited, channel.waits());
        result
    }

    /// The peer's close, which is answered by ours and removes the channel. Returns false if the channel isn't
    /// established.
    #[tactic(auto, using(crate::proofs::LegalLemmas::did_part))]
    pub fn close_peer(&mut self, id: ChannelId, out: &mut Outbox) -> Result<bool, NoMemory>
        ensures closed { Did (PeerClose id.0) self.old self.new out.old out.new result }
        ensures part { OnOk result (DidItsPart (PeerClose id.0) self.old self.new) }
        ensures answer { IfOk result (λ known. known ≡ is_established id.0 self.old) }
        ensures succeeds { WritesNothing (PeerClose id.0) self.old → IsOk result }
    {
        let Some(at) = place(self.slots.as_slice(), &self.index, id.0) else {
            return Ok(false);
        };
        let Some(channel) = &self.slots[at] else {
            return Ok(false);
        };
        if !channel.is_established() {
            return Ok(false);
        }
        channel.push_last(out)?;
        self.waiting = recounted(self.waiting, channel.waits(), false);
        remove(&mut self.slots, &mut self.index, id.0, at);
        Ok(true)
    }
}
