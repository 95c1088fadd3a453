//! The table of channels.

mod ends;
mod opens;
mod sending;
mod windows;

ghost use Rattle.std.specs.Prelude.{◌≡◌, ◌≤◌, ◌<◌, ◌+◌, ◌-◌, [], true, false, MatchOption, None, option_copied};
ghost use Rattle.std.specs.Prelude.{slice_get, if◌then◌else◌};
ghost use Rattle.std.specs.List.{concat};
ghost use Rattle.sshc_mux.specs.WaitingPieces.{AreFull, bytes_waiting, pieces_in};
ghost use Rattle.sshc_mux.specs.ChannelState.{channel_of, without};
ghost use Rattle.sshc_mux.specs.ChannelAccount.{no_channels};
ghost use Rattle.sshc_mux.specs.ChannelTable.{is_established, waits_in, any_waits, window_in, recipient_in};
ghost use Rattle.sshc_mux.specs.ChannelTable.{close_sent_in};
ghost use Rattle.sshc_mux.specs.ChannelTable.Opens.{awaited, unsettled_at};
ghost use Rattle.sshc_mux.specs.Places.{IsPlace, IsIndexed, HasNumbers, Apart, numbers, present};

use crate::channel::Channel;
use bytes::Bytes;
use sshc_wire::{ChannelId, Ticket};
use std::alloc::Global;
use std::collections::HashMap;
use std::marker::Model;

/// The channels of a connection, which contracts see in the order in which they were opened, with the last number
/// assigned.
#[derive(Drop)]
pub struct ChannelTable {
    /// In the order in which they were opened. The slot of a channel that was removed is empty.
    slots: Vec<Option<Channel>>,
    /// The slot of each number.
    index: HashMap<u32, usize>,
    /// On how many channels bytes wait.
    waiting: usize,
    last: u32,
    alloc: Global,
}

impl Model for ChannelTable {
    ghost use Rattle.std.specs.Prelude.{◌≡◌};
    ghost use Rattle.sshc_mux.specs.ChannelState.{TableState};
    ghost use Rattle.sshc_mux.specs.Places.{present, IsStored};
    ghost use Rattle.sshc_mux.specs.ChannelAccount.{IsLegal};

    ghost Value = { TableState };

    ghost view = { λ t. record { channels = present t.slots.items; last = t.last } };

    ghost invariant = { λ t. IsStored t.index.entries t.slots.items t.waiting
        × IsLegal (record { channels = present t.slots.items; last = t.last }) };
}

impl ChannelTable {
    /// No channels. The first number is 1.
    pub fn new(alloc: Global) -> ChannelTable
        ensures { result ≡ no_channels 0 }
    {
        ChannelTable::numbered_after(alloc, ChannelId(0))
    }

    /// No channels. The first number is the next above this one; after the last u32 it is 0.
    pub fn numbered_after(alloc: Global, last: ChannelId) -> ChannelTable
        ensures { result ≡ no_channels last.0 }
    {
        ChannelTable {
            slots: Vec::new(alloc),
            index: HashMap::new(alloc),
            waiting: 0,
            last: last.0,
            alloc,
        }
    }

    /// Whether the peer has confirmed the channel, or the user accepted it.
    pub fn is_established(&self, id: ChannelId) -> bool
        ensures { result ≡ is_established id.0 self.now }
    {
        match self.find(id.0) {
            Some(channel) => channel.is_established(),
            None => false,
        }
    }

    /// Whether bytes wait on the channel.
    pub fn has_pending_data(&self, id: ChannelId) -> bool
        ensures { result ≡ waits_in (channel_of id.0 self.now.channels) }
    {
        match self.find(id.0) {
            Some(channel) => channel.waits(),
            None => false,
        }
    }

    /// The piece at this place, from 0, of the bytes that wait on the channel: one piece for each call whose bytes
    /// wait. `None` beyond the last piece, and for a number that no channel has. Takes no memory; a `clone` of the
    /// piece shares its bytes.
    #[tactic(auto, using(crate::proofs::PiecesLemmas::filled_in, crate::proofs::PiecesLemmas::joined_in))]
    pub fn waiting(&self, id: ChannelId, at: usize) -> Option<&Bytes>
        ensures piece { option_copied result ≡ slice_get (pieces_in (channel_of id.0 self.now.channels)) at }
        ensures full { AreFull (pieces_in (channel_of id.0 self.now.channels)) }
        ensures joined { concat (pieces_in (channel_of id.0 self.now.channels))
            ≡ bytes_waiting (channel_of id.0 self.now.channels) }
    {
        // The table's invariant says that no piece is empty.
        let _last = self.last;
        match self.find(id.0) {
            Some(channel) => channel.waiting(at),
            None => None,
        }
    }

    /// Whether bytes wait on any channel.
    pub fn has_any_pending_data(&self) -> bool
        ensures { result ≡ any_waits self.now.channels }
    {
        self.waiting > 0
    }

    /// How many bytes may still be sent to the peer.
    pub fn sender_window_size(&self, id: ChannelId) -> usize
        ensures { result ≡ window_in (channel_of id.0 self.now.channels) }
    {
        match self.find(id.0) {
            Some(channel) => channel.window() as usize,
            None => 0,
        }
    }

    /// The peer's number of an established channel.
    pub fn recipient(&self, id: ChannelId) -> Option<u32>
        ensures { result ≡ recipient_in (channel_of id.0 self.now.channels) }
    {
        match self.find(id.0) {
            Some(channel) if channel.is_established() => Some(channel.recipient()),
            _ => None,
        }
    }

    /// The peer's number of a channel that it opened, if the open hasn't been accepted or refused yet.
    pub fn unsettled(&self, id: ChannelId) -> Option<u32>
        ensures { result ≡ unsettled_at id.0 self.now }
    {
        match self.find(id.0) {
            Some(channel) if channel.is_reserved() => Some(channel.recipient()),
            _ => None,
        }
    }

    /// The ticket of an open of ours that waits for the peer's answer, if it has one. `None` if no open of ours with
    /// this number waits.
    pub fn awaited(&self, id: ChannelId) -> Option<Option<Ticket>>
        ensures { result ≡ awaited id.0 self.now }
    {
        match self.find(id.0) {
            Some(channel) => channel.awaited(),
            None => None,
        }
    }

    /// Whether our close was sent on the channel.
    pub fn close_sent(&self, id: ChannelId) -> bool
        ensures { result ≡ close_sent_in (channel_of id.0 self.now.channels) }
    {
        match self.find(id.0) {
            Some(channel) => channel.is_close_sent(),
            None => false,
        }
    }

    fn find(&self, number: u32) -> Option<&Channel>
        ensures { option_copied result ≡ channel_of number self.now.channels }
    {
        let at = place(self.slots.as_slice(), &self.index, number)?;
        self.slots[at].as_ref()
    }
}

/// The slot of the channel of this number.
pub(crate) fn place(
    slots: &[Option<Channel>],
    index: &HashMap<u32, usize>,
    number: u32,
) -> Option<usize>
    requires { IsIndexed index.now.entries slots.now }
    ensures { MatchOption result (channel_of number (present slots.now) ≡ None) (λ at. IsPlace number slots.now at) }
{
    index.get(&number).copied()
}

/// The count of the channels on which bytes wait, after one of them has changed.
pub(crate) fn recounted(waiting: usize, waited: bool, waits: bool) -> usize
    requires some { waited ≡ true → 0 < waiting }
    requires room { waited ≡ false → waiting < usize.MAX }
    ensures { result + (if waited then 1 else 0) ≡ waiting + (if waits then 1 else 0) }
{
    match (waited, waits) {
        (true, false) => waiting - 1,
        (false, true) => waiting + 1,
        _ => waiting,
    }
}

/// Takes the channel of this number out of its slot.
pub(crate) fn remove(
    slots: &mut Vec<Option<Channel>>,
    index: &mut HashMap<u32, usize>,
    number: u32,
    at: usize,
)
    requires place { IsPlace number slots.old.items at }
    requires indexed { IsIndexed index.old.entries slots.old.items }
    requires apart { Apart (numbers (present slots.old.items)) }
    ensures left { present slots.new.items ≡ without number (present slots.old.items) }
    ensures indexed { IsIndexed index.new.entries slots.new.items }
{
    slots[at] = None;
    let _ = index.remove(&number);
    compact(slots, index);
}

/// Removes the empty slots once they are more than half of all.
fn compact(slots: &mut Vec<Option<Channel>>, index: &mut HashMap<u32, usize>)
    requires indexed { IsIndexed index.old.entries slots.old.items }
    requires apart { Apart (numbers (present slots.old.items)) }
    ensures left { present slots.new.items ≡ present slots.old.items }
    ensures indexed { IsIndexed index.new.entries slots.new.items }
{
    if slots.len() / 2 <= index.len() {
        return;
    }
    slots.retain(|slot| slot.is_some());
    renumber(slots.as_slice(), index);
}

/// Stores the slot of each channel.
fn renumber(slots: &[Option<Channel>], index: &mut HashMap<u32, usize>)
    requires apart { Apart (numbers (present slots.now)) }
    requires known { HasNumbers index.old.entries (present slots.now) }
    ensures { IsIndexed index.new.entries slots.now }
{
    for at in 0..slots.len() {
        if let Some(channel) = &slots[at] {
            // The number is there, so no memory is taken.
            let _ = index.insert(channel.number(), at);
        }
    }
}
