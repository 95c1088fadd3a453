//! Global requests of ours, which wait for their replies in the order in which they were written (RFC 4254, section 4).

ghost use Rattle.std.specs.Prelude.{◌≡◌, ◌++◌, ◌∷◌, [], OnErr, OnOk, Some, true};
ghost use Rattle.sshc_wire.specs.declared.record.Record.TheVariants.{Payload};
ghost use Rattle.sshc_wire.specs.Outgoing.{listed};
ghost use Rattle.sshc_client_table.specs.Moves.{Asks, Moved, Replied, reply_answer};
ghost use Rattle.sshc_client_table.specs.SessionState.{is_live};
ghost use Rattle.sshc_client_state.specs.Asks.{ask_of};

use super::Connection;
use crate::ask::{Ask, ticket_or_none};
use crate::ring::{drop_first, make_room, queue};
use sshc_auth::resolved;
use sshc_client_packets::global_request_packet;
use sshc_client_table::ReplyEntry;
use sshc_wire::{NoMemory, Octets, Record, Resolution};

impl Connection {
    /// A global request. If it wants a reply it waits after the others.
    #[tactic(auto, using(crate::proofs::MoveLemmas::after_asks, sshc_client_table::specs::MoveLaws::not_done))]
    pub fn ask(&mut self, ask: &Ask<'_>) -> Result<(), NoMemory>
        ensures { Moved (Asks (ask_of ask.now)) self.old self.new result }
    {
        if !self.is_live() {
            return Ok(());
        }
        let packet = global_request_packet(self.alloc, ask.wants_answer(), &ask.request())?;
        let entry = ask.queued(self.alloc)?;
        self.push_asked(packet, entry)
    }

    /// Adds a request's packet and its entry. A full ring is doubled before anything else changes.
    #[tactic(auto, using(crate::proofs::LiveLemmas::live_unmuted, crate::proofs::LiveLemmas::shown_open))]
    fn push_asked(&mut self, packet: Octets, entry: Option<ReplyEntry>) -> Result<(), NoMemory>
        requires { is_live self.old ≡ true }
        ensures ok { OnOk result
            (self.new
            ≡ record self.old
            { replies = self.old.replies ++ listed entry; records = self.old.records ++ Payload packet ∷ [] }) }
        ensures err { OnErr result (self.new ≡ self.old) }
    {
        make_room(&mut self.replies)?;
        self.outbox.push(Record::Payload(packet))?;
        queue(&mut self.replies, entry);
        Ok(())
    }

    /// The oldest request is answered: its ticket is resolved, if the answer is for the user. No reply answers an open
    /// of a channel.
    #[tactic(auto, using(crate::proofs::Hints::reply))]
    pub fn reply(&mut self, resolution: Option<Resolution>) -> Result<(), NoMemory>
        ensures { Moved (Replied resolution) self.old self.new result }
    {
        if !self.is_live() {
            return Ok(());
        }
        let output = self.reply_record(resolution);
        self.push_if(output)?;
        drop_first(&mut self.replies);
        Ok(())
    }

    /// The record that answers the oldest request.
    fn reply_record(&self, resolution: Option<Resolution>) -> Option<Record>
        ensures { listed result ≡ reply_answer self.now.replies resolution }
    {
        match (self.first_reply(), resolution) {
            (Some(first), Some(resolution)) => replied(first, resolution),
            _ => None,
        }
    }
}

fn replied(first: &ReplyEntry, resolution: Resolution) -> Option<Record>
    ensures { listed result ≡ reply_answer (first.now ∷ []) (Some resolution) }
{
    match resolution {
        Resolution::ChannelOpened { .. } | Resolution::ChannelOpenFailed { .. } => None,
        resolution => resolved(ticket_or_none(first.ticket), resolution),
    }
}
