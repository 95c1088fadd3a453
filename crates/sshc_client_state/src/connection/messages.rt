//! Messages that don't change the state of a session: requests on channels, replies to the peer's, and the
//! disconnection (RFC 4254, sections 4 and 5.4; RFC 4253, section 11.1).

ghost use Rattle.std.specs.Prelude.{◌≡◌, ◌++◌, ◌∷◌, [], OnErr, OnOk, true};
ghost use Rattle.sshc_wire.specs.declared.record.Record.TheVariants.{Payload};
ghost use Rattle.sshc_client_packets.specs.ChannelRequests.{channel_request};
ghost use Rattle.sshc_client_table.specs.Moves.{Answers, AnswersOn, Disconnects, Moved, RequestsOn, askable_at};
ghost use Rattle.sshc_client_table.specs.SessionState.{is_live};

use super::Connection;
use sshc_auth_request::disconnect_packet;
use sshc_client_packets::{
    ChannelRequest, channel_failure_packet, channel_request_packet, channel_success_packet,
    request_failure_packet, request_success_packet,
};
use sshc_wire::{ChannelId, Disconnect, NoMemory, Octets, Record, Text};

impl Connection {
    /// Adds a packet to the records of a live session.
    #[tactic(auto, using(crate::proofs::LiveLemmas::live_unmuted, crate::proofs::LiveLemmas::shown_open))]
    fn push_packet(&mut self, packet: Octets) -> Result<(), NoMemory>
        requires { is_live self.old ≡ true }
        ensures ok { OnOk result (self.new ≡ record self.old { records = self.old.records ++ Payload packet ∷ [] }) }
        ensures err { OnErr result (self.new ≡ self.old) }
    {
        self.outbox.push(Record::Payload(packet))
    }

    /// The peer's number of an established channel on which our close wasn't sent.
    fn askable(&self, id: ChannelId) -> Option<u32>
        ensures { result ≡ askable_at id.0 self.now.table }
    {
        if self.table.close_sent(id) {
            return None;
        }
        self.table.recipient(id)
    }

    /// A request on a channel. On one that isn't established, or on which our close was sent, nothing is written.
    #[tactic(auto, using(sshc_client_table::specs::MoveLaws::is_done, sshc_client_table::specs::MoveLaws::not_done))]
    pub fn request_on(
        &mut self,
        id: ChannelId,
        request: &ChannelRequest<'_>,
    ) -> Result<(), NoMemory>
        ensures { Moved (RequestsOn id.0 (channel_request request.now)) self.old self.new result }
    {
        if !self.is_live() {
            return Ok(());
        }
        let Some(recipient) = self.askable(id) else {
            return Ok(());
        };
        let packet = channel_request_packet(self.alloc, recipient, request)?;
        self.push_packet(packet)
    }

    /// The reply to the peer's request on a channel: success or failure.
    #[tactic(auto, using(sshc_client_table::specs::MoveLaws::is_done, sshc_client_table::specs::MoveLaws::not_done))]
    pub fn answer_on(&mut self, id: ChannelId, done: bool) -> Result<(), NoMemory>
        ensures { Moved (AnswersOn id.0 done) self.old self.new result }
    {
        if !self.is_live() {
            return Ok(());
        }
        let Some(recipient) = self.table.recipient(id) else {
            return Ok(());
        };
        let packet = if done {
            channel_success_packet(self.alloc, recipient)?
        } else {
            channel_failure_packet(self.alloc, recipient)?
        };
        self.push_packet(packet)
    }

    /// The reply to the peer's global request: success or failure.
    #[tactic(auto, using(sshc_client_table::specs::MoveLaws::is_done, sshc_client_table::specs::MoveLaws::not_done))]
    pub fn answer(&mut self, done: bool) -> Result<(), NoMemory>
        ensures { Moved (Answers done) self.old self.new result }
    {
        if !self.is_live() {
            return Ok(());
        }
        let packet = if done {
            request_success_packet(self.alloc)?
        } else {
            request_failure_packet(self.alloc)?
        };
        self.push_packet(packet)
    }

    /// The user's disconnection.
    #[tactic(auto, using(sshc_client_table::specs::MoveLaws::is_done, sshc_client_table::specs::MoveLaws::not_done))]
    pub fn write_disconnect(
        &mut self,
        reason: Disconnect,
        description: &Text,
        language: &Text,
    ) -> Result<(), NoMemory>
        ensures { Moved (Disconnects reason description.now language.now) self.old self.new result }
    {
        if !self.is_live() {
            return Ok(());
        }
        let packet = disconnect_packet(self.alloc, reason, description, language)?;
        self.push_packet(packet)
    }
}
