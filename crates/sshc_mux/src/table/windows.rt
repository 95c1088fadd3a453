//! Grants of the peer's, and what it uses of our windows (RFC 4254, section 5.2).

ghost use Rattle.std.specs.Prelude.{◌≡◌, OnOk, IfOk, IsOk, false};
ghost use Rattle.sshc_mux.specs.ChannelAccount.{called, Did, DidItsPart, WritesNothing, Grant, Received};
ghost use Rattle.sshc_mux.specs.ChannelTable.{is_established, granted_at, adjusted_at};

use crate::table::{ChannelTable, place, recounted};
use sshc_wire::{ChannelId, NoMemory, Outbox};

impl ChannelTable {
    /// A grant of the peer's. Returns the window after it, or `None` if the channel isn't established.
    #[tactic(auto, using(crate::proofs::LegalLemmas::did_part))]
    pub fn grant(
        &mut self,
        id: ChannelId,
        amount: u32,
        exchanging: bool,
        out: &mut Outbox,
    ) -> Result<Option<u32>, NoMemory>
        ensures granted { Did (Grant id.0 amount exchanging) self.old self.new out.old out.new result }
        ensures part { OnOk result (DidItsPart (Grant id.0 amount exchanging) self.old self.new) }
        ensures answer { IfOk result (λ left. left ≡ granted_at id.0 amount exchanging self.old) }
        ensures succeeds { WritesNothing (Grant id.0 amount exchanging) self.old → IsOk result }
    {
        let Some(at) = place(self.slots.as_slice(), &self.index, id.0) else {
            return Ok(None);
        };
        let Some(channel) = &mut self.slots[at] else {
            return Ok(None);
        };
        let waited = channel.waits();
        let left = channel.grant(amount, exchanging, out);
        self.waiting = recounted(self.waiting, waited, channel.waits());
        left
    }

    /// Bytes of the peer's, which use up our window. Returns whether an adjust packet was written.
    #[tactic(auto, using(crate::proofs::LegalLemmas::did_part))]
    pub fn received(
        &mut self,
        id: ChannelId,
        len: u64,
        target: u32,
        out: &mut Outbox,
    ) -> Result<bool, NoMemory>
        ensures received { Did (Received id.0 len target) self.old self.new out.old out.new result }
        ensures part { OnOk result (DidItsPart (Received id.0 len target) self.old self.new) }
        ensures answer { IfOk result (λ wrote. wrote ≡ adjusted_at id.0 len target self.old) }
        ensures succeeds { WritesNothing (Received id.0 len target) self.old → IsOk result }
    {
        let Some(at) = place(self.slots.as_slice(), &self.index, id.0) else {
            return Ok(false);
        };
        let Some(channel) = &mut self.slots[at] else {
            return Ok(false);
        };
        channel.receive(len, target, out)
    }
}
