//! Opens of channels and their answers (RFC 4254, section 5.1). Each is one call of the table with its packet or its
//! ticket's answer.

ghost use Rattle.std.specs.Prelude.{◌≡◌, ◌++◌, IfOk, OnErr, OnOk, Some, is_some, false, true};
ghost use Rattle.sshc_mux.specs.ChannelTable.Opens.{awaited, next_number, unsettled_at};
ghost use Rattle.sshc_client_packets.specs.ChannelOpens.{channel_open};
ghost use Rattle.sshc_client_table.specs.Moves.{Accepts, Confirms, Fails, Moved, Opens, Rejects, accept_packet};
ghost use Rattle.sshc_client_table.specs.Moves.{our_side, reject_packet};
ghost use Rattle.sshc_client_table.specs.SessionState.{is_live};

use super::Connection;
use crate::ask::ticket_or_none;
use sshc_auth::resolved;
use sshc_client_packets::{
    ChannelOpen, Confirmation, Sender, channel_open_packet, confirmation_packet,
    open_failure_packet,
};
use sshc_wire::{ChannelId, ChannelOpenFailure, NoMemory, Record, Resolution, Ticket};

impl Connection {
    /// Our side of a channel under this number.
    fn side(&self, number: u32) -> Sender
        ensures { result ≡ our_side self.now number }
    {
        Sender {
            channel: number,
            window_size: self.opening.settings().window_size,
            max_packet_size: self.settings.max_packet_size,
        }
    }

    /// An open of ours, with its packet. Returns its number, or `NoMemory` also if every number is taken.
    #[tactic(auto, using(crate::proofs::Hints::opens))]
    pub fn open(
        &mut self,
        asked: &ChannelOpen<'_>,
        ticket: Option<Ticket>,
    ) -> Result<ChannelId, NoMemory>
        requires { is_live self.old ≡ true }
        ensures moved { Moved (Opens (channel_open asked.now) ticket) self.old self.new result }
        ensures number { IfOk result (λ id. next_number self.old.table ≡ Some id.0) }
    {
        let Some(next) = self.table.next_id() else {
            return Err(NoMemory);
        };
        let side = self.side(next.0);
        let packet = channel_open_packet(self.alloc, asked, side)?;
        let _id = self.table.open_user_with(
            side.window_size,
            side.max_packet_size,
            ticket,
            packet,
            &mut self.outbox,
        )?;
        Ok(next)
    }

    /// The peer confirms an open of ours that waits, whose ticket is resolved. Returns false if none waits under the
    /// number, and changes nothing then.
    #[tactic(auto, using(crate::proofs::Hints::confirm))]
    pub fn confirm(&mut self, c: Confirmation) -> Result<bool, NoMemory>
        requires { is_live self.old ≡ true }
        ensures moved { Moved (Confirms c) self.old self.new result }
        ensures awaited { IfOk result (λ known. known ≡ is_some (awaited c.recipient self.old.table)) }
        ensures same { IfOk result (λ known. known ≡ false → self.new ≡ self.old) }
    {
        let id = ChannelId(c.recipient);
        let Some(ticket) = self.table.awaited(id) else {
            return Ok(false);
        };
        let answer = resolved(ticket_or_none(ticket), Resolution::ChannelOpened { id });
        self.push_if(answer)?;
        let _ticket = self.table.confirm(
            id,
            c.sender.channel,
            c.sender.window_size,
            c.sender.max_packet_size,
        );
        Ok(true)
    }

    /// The peer refuses an open of ours that waits, whose ticket is resolved. Returns false if none waits under the
    /// number, and changes nothing then.
    #[tactic(auto, using(crate::proofs::Hints::fail))]
    pub fn fail(&mut self, id: ChannelId, reason: ChannelOpenFailure) -> Result<bool, NoMemory>
        requires { is_live self.old ≡ true }
        ensures moved { Moved (Fails id.0 reason) self.old self.new result }
        ensures awaited { IfOk result (λ known. known ≡ is_some (awaited id.0 self.old.table)) }
        ensures same { IfOk result (λ known. known ≡ false → self.new ≡ self.old) }
    {
        let Some(ticket) = self.table.awaited(id) else {
            return Ok(false);
        };
        let answer = resolved(
            ticket_or_none(ticket),
            Resolution::ChannelOpenFailed { reason },
        );
        self.push_if(answer)?;
        let _ticket = self.table.fail(id);
        Ok(true)
    }

    /// Accepts an open of the peer's that waits, with the packet. Any other number is ignored.
    #[tactic(auto, using(crate::proofs::Hints::accept))]
    pub fn accept(&mut self, id: ChannelId) -> Result<(), NoMemory>
        ensures { Moved (Accepts id.0) self.old self.new result }
    {
        if !self.is_live() {
            return Ok(());
        }
        self.push_accepted(id)?;
        let _known = self.table.settle_server(id, true);
        Ok(())
    }

    #[tactic(auto, using(crate::proofs::Hints::opens_nothing))]
    fn push_accepted(&mut self, id: ChannelId) -> Result<(), NoMemory>
        requires { is_live self.old ≡ true }
        ensures ok { OnOk result
            (self.new ≡ record self.old {
              records = self.old.records
                  ++ accept_packet (unsettled_at id.0 self.old.table) (our_side self.old id.0);
            }) }
        ensures err { OnErr result (self.new ≡ self.old) }
    {
        let Some(recipient) = self.table.unsettled(id) else {
            return Ok(());
        };
        let sender = self.side(id.0);
        let packet = confirmation_packet(self.alloc, Confirmation { recipient, sender })?;
        self.outbox.push(Record::Payload(packet))
    }

    /// Refuses an open of the peer's that waits, with the packet, and removes it. Any other number is ignored.
    #[tactic(auto, using(crate::proofs::Hints::reject))]
    pub fn reject(&mut self, id: ChannelId, reason: ChannelOpenFailure) -> Result<(), NoMemory>
        ensures { Moved (Rejects id.0 reason) self.old self.new result }
    {
        if !self.is_live() {
            return Ok(());
        }
        self.push_rejected(id, reason)?;
        let _known = self.table.settle_server(id, false);
        Ok(())
    }

    #[tactic(auto, using(crate::proofs::Hints::opens_nothing))]
    fn push_rejected(&mut self, id: ChannelId, reason: ChannelOpenFailure) -> Result<(), NoMemory>
        requires { is_live self.old ≡ true }
        ensures ok { OnOk result
            (self.new ≡ record self.old
            { records = self.old.records ++ reject_packet (unsettled_at id.0 self.old.table) reason }) }
        ensures err { OnErr result (self.new ≡ self.old) }
    {
        let Some(recipient) = self.table.unsettled(id) else {
            return Ok(());
        };
        let packet = open_failure_packet(self.alloc, recipient, reason)?;
        self.outbox.push(Record::Payload(packet))
    }
}
