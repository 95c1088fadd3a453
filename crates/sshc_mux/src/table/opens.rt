//! Numbers, opens, confirmations and failures (RFC 4254, section 5.1).

ghost use Rattle.std.specs.Prelude.{◌≡◌, Some, None, IfOk, OnErr, Err, MatchResult, MatchOption, OnOk, IsErr, is_some};
ghost use Rattle.std.specs.Prelude.{true, ◌<◌, ◌^◌, ◌++◌, ◌∷◌, [], ℕ};
ghost use Rattle.sshc_wire.specs.declared.record.Record.TheVariants.{Payload};
ghost use Rattle.sshc_wire.specs.Outgoing.{shown};
ghost use Rattle.sshc_mux.specs.ChannelState.{channel_of};
ghost use Rattle.sshc_mux.specs.ChannelAccount.{called, DidItsPart, OpenUser, ReserveServer, SettleServer, Confirm};
ghost use Rattle.sshc_mux.specs.ChannelAccount.{Fail};
ghost use Rattle.sshc_mux.specs.Places.{IsIndexed, present};
ghost use Rattle.sshc_mux.specs.ChannelTable.Opens.{next_number, IsNew, made_in, opened_by_user, reserved_by_server};
ghost use Rattle.sshc_mux.specs.ChannelTable.Opens.{awaited, reserved_by};

use crate::channel::Channel;
use crate::error::MuxError;
use crate::table::{ChannelTable, place, recounted, remove};
use sshc_wire::{ChannelId, NoMemory, Octets, Outbox, Record, Ticket};
use std::collections::HashMap;

impl ChannelTable {
    /// The number that the next channel will have; `None` if every number is taken.
    pub fn next_id(&self) -> Option<ChannelId>
        ensures next { MatchOption result (next_number self.now ≡ None) (λ id. next_number self.now ≡ Some id.0) }
    {
        match next_number(self.slots.as_slice(), &self.index, self.last) {
            Ok(number) => Some(ChannelId(number)),
            Err(_) => None,
        }
    }

    /// Adds a channel for an open of ours, with our initial window and the answer's ticket. Returns `NoMemory` also if
    /// every number is taken.
    #[tactic(auto, using(crate::proofs::LegalLemmas::did_part))]
    pub fn open_user(
        &mut self,
        window: u32,
        packet: u32,
        ticket: Option<Ticket>,
    ) -> Result<ChannelId, NoMemory>
        ensures number { IfOk result (λ id. IsNew self.old id.0) }
        ensures made { IfOk result (λ id. self.new ≡ made_in (opened_by_user id.0 window packet ticket) self.old) }
        ensures called { OnOk result (self.new ≡ (called (OpenUser window packet ticket) self.old).table) }
        ensures part { OnOk result (DidItsPart (OpenUser window packet ticket) self.old self.new) }
        ensures full { ((n : ℕ) → n < 2 ^ 32 → is_some (channel_of n self.old.channels) ≡ true) → IsErr result }
        ensures err { OnErr result (self.new ≡ self.old) }
    {
        let number = next_number(self.slots.as_slice(), &self.index, self.last)?;
        let channel = Channel::opened_by_user(self.alloc, number, window, packet, ticket);
        self.slots.reserve(1)?;
        self.index.insert(number, self.slots.len())?;
        self.slots.push_reserved(Some(channel));
        self.last = number;
        Ok(ChannelId(number))
    }

    /// Adds a channel for an open of ours, as `open_user`, and the open's packet to the outbox. The table's memory is
    /// taken before the packet goes out, so that nothing changes where either is out of memory.
    #[tactic(auto, using(crate::proofs::LegalLemmas::did_part))]
    pub fn open_user_with(
        &mut self,
        window: u32,
        packet_size: u32,
        ticket: Option<Ticket>,
        packet: Octets,
        out: &mut Outbox,
    ) -> Result<ChannelId, NoMemory>
        ensures called { OnOk result (self.new ≡ (called (OpenUser window packet_size ticket) self.old).table) }
        ensures part { OnOk result (DidItsPart (OpenUser window packet_size ticket) self.old self.new) }
        ensures written { OnOk result
            (out.new.records ≡ out.old.records ++ shown out.old.muted (Payload packet ∷ [])) }
        ensures err { OnErr result (self.new ≡ self.old) }
        ensures unwritten { OnErr result (out.new.records ≡ out.old.records) }
        ensures same { out.new.muted ≡ out.old.muted }
    {
        let number = next_number(self.slots.as_slice(), &self.index, self.last)?;
        self.slots.reserve(1)?;
        self.index.reserve(1)?;
        out.push(Record::Payload(packet))?;
        let channel = Channel::opened_by_user(self.alloc, number, window, packet_size, ticket);
        // There is room for one more entry, so no memory is taken.
        let _ = self.index.insert(number, self.slots.len());
        self.slots.push_reserved(Some(channel));
        self.last = number;
        Ok(ChannelId(number))
    }

    /// Adds a channel for an open of the peer's, with the peer's number, window and packet size and our initial window.
    /// Returns `NoMemory` also if every number is taken.
    #[tactic(auto, using(crate::proofs::LegalLemmas::did_part))]
    pub fn reserve_server(
        &mut self,
        recipient: u32,
        window: u32,
        packet: u32,
        own: u32,
    ) -> Result<ChannelId, NoMemory>
        ensures number { IfOk result (λ id. IsNew self.old id.0) }
        ensures made { IfOk result
            (λ id. self.new ≡ made_in (reserved_by_server id.0 recipient window packet own) self.old) }
        ensures called { OnOk result (self.new ≡ (called (ReserveServer recipient window packet own) self.old).table) }
        ensures part { OnOk result (DidItsPart (ReserveServer recipient window packet own) self.old self.new) }
        ensures full { ((n : ℕ) → n < 2 ^ 32 → is_some (channel_of n self.old.channels) ≡ true) → IsErr result }
        ensures err { OnErr result (self.new ≡ self.old) }
    {
        let number = next_number(self.slots.as_slice(), &self.index, self.last)?;
        let channel = Channel::reserved_by_server(
            self.alloc, number, recipient, window, packet, own,
        );
        self.slots.reserve(1)?;
        self.index.insert(number, self.slots.len())?;
        self.slots.push_reserved(Some(channel));
        self.last = number;
        Ok(ChannelId(number))
    }

    /// Accepts an open of the peer's, or removes it. Returns false if no open of the peer's with this number waits.
    #[tactic(auto, using(crate::proofs::LegalLemmas::did_part))]
    pub fn settle_server(&mut self, id: ChannelId, accept: bool) -> bool
        ensures answer { result ≡ reserved_by (channel_of id.0 self.old.channels) }
        ensures settled { self.new ≡ (called (SettleServer id.0 accept) self.old).table }
        ensures part { DidItsPart (SettleServer id.0 accept) self.old self.new }
    {
        let Some(at) = place(self.slots.as_slice(), &self.index, id.0) else {
            return false;
        };
        let Some(channel) = &mut self.slots[at] else {
            return false;
        };
        if !channel.is_reserved() {
            return false;
        }
        if accept {
            channel.accept();
            return true;
        }
        self.waiting = recounted(self.waiting, channel.waits(), false);
        remove(&mut self.slots, &mut self.index, id.0, at);
        true
    }

    /// The peer's confirmation of an open of ours. Returns the open's ticket.
    #[tactic(auto, using(crate::proofs::LegalLemmas::did_part))]
    pub fn confirm(
        &mut self,
        id: ChannelId,
        recipient: u32,
        window: u32,
        packet: u32,
    ) -> Result<Option<Ticket>, MuxError>
        ensures answer { MatchResult result
            (λ ticket. awaited id.0 self.old ≡ Some ticket) (λ error. awaited id.0 self.old ≡ None) }
        ensures confirmed { self.new ≡ (called (Confirm id.0 recipient window packet) self.old).table }
        ensures part { DidItsPart (Confirm id.0 recipient window packet) self.old self.new }
    {
        let Some(at) = place(self.slots.as_slice(), &self.index, id.0) else {
            return Err(MuxError::Inconsistent);
        };
        let Some(channel) = &mut self.slots[at] else {
            return Err(MuxError::Inconsistent);
        };
        let Some(ticket) = channel.awaited() else {
            return Err(MuxError::Inconsistent);
        };
        channel.confirm(recipient, window, packet);
        Ok(ticket)
    }

    /// The peer's refusal of an open of ours, which is removed. Returns the open's ticket, or `None` if no open of ours
    /// with this number waits.
    #[tactic(auto, using(crate::proofs::LegalLemmas::did_part))]
    pub fn fail(&mut self, id: ChannelId) -> Option<Option<Ticket>>
        ensures answer { result ≡ awaited id.0 self.old }
        ensures failed { self.new ≡ (called (Fail id.0) self.old).table }
        ensures part { DidItsPart (Fail id.0) self.old self.new }
    {
        let Some(at) = place(self.slots.as_slice(), &self.index, id.0) else {
            return None;
        };
        let Some(channel) = &self.slots[at] else {
            return None;
        };
        let Some(ticket) = channel.awaited() else {
            return None;
        };
        self.waiting = recounted(self.waiting, channel.waits(), false);
        remove(&mut self.slots, &mut self.index, id.0, at);
        Some(ticket)
    }
}

/// The next number that no channel has.
fn next_number(
    slots: &[Option<Channel>],
    index: &HashMap<u32, usize>,
    last: u32,
) -> Result<u32, NoMemory>
    requires { IsIndexed index.now.entries slots.now }
    ensures new { IfOk result (λ n. IsNew (record { channels = present slots.now; last = last }) n) }
    ensures full { OnErr result (next_number (record { channels = present slots.now; last = last }) ≡ None) }
{
    let mut number = last.wrapping_add(1);
    for _tried in 0..index.len() {
        let Some(_) = place(slots, index, number) else {
            return Ok(number);
        };
        number = number.wrapping_add(1);
    }
    match place(slots, index, number) {
        Some(_) => Err(NoMemory),
        None => Ok(number),
    }
}
