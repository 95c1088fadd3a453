//! Data, and the flush of all channels (RFC 4254, section 5.2).

ghost use Rattle.std.specs.Prelude.{◌≡◌, ◌&&◌, ◌==◌, not, length, [], ◌∷◌, ◌++◌, map, OnOk, OnErr, IsOk, false};
ghost use Rattle.sshc_wire.specs.Outgoing.{Grows, shown};
ghost use Rattle.sshc_mux.specs.ChannelAccount.{called, Did, DidItsPart, WritesNothing, Bytes, FlushAll};
ghost use Rattle.sshc_mux.specs.ChannelTable.{all_said, any_waits, records_of, takes_at};
ghost use Rattle.sshc_mux.specs.Packets.{adding};
ghost use Rattle.sshc_mux.specs.Places.{present, flushed_slot, waiting_of};

use crate::channel::Channel;
use crate::chunk::Stream;
use crate::table::{ChannelTable, place, recounted};
use sshc_wire::{ChannelId, NoMemory, Outbox};

impl ChannelTable {
    /// Takes bytes to send. They are ignored if EOF or our close was asked for.
    pub fn data(
        &mut self,
        id: ChannelId,
        body: &[u8],
        exchanging: bool,
        out: &mut Outbox,
    ) -> Result<(), NoMemory>
        ensures did { Did (Bytes id.0 Stream.Data body.now exchanging) self.old self.new out.old out.new result }
        ensures part { OnOk result (DidItsPart (Bytes id.0 Stream.Data body.now exchanging) self.old self.new) }
        ensures succeeds { (takes_at id.0 self.old && not (length body.now == 0)) ≡ false → IsOk result }
    {
        self.take(id, Stream::Data, body, exchanging, out)
    }

    /// Takes bytes to send as extended data of this type.
    pub fn extended_data(
        &mut self,
        id: ChannelId,
        ext: u32,
        body: &[u8],
        exchanging: bool,
        out: &mut Outbox,
    ) -> Result<(), NoMemory>
        ensures did { Did (Bytes id.0 (Stream.Extended ext) body.now exchanging)
            self.old self.new out.old out.new result }
        ensures part { OnOk result
            (DidItsPart (Bytes id.0 (Stream.Extended ext) body.now exchanging) self.old self.new) }
        ensures succeeds { (takes_at id.0 self.old && not (length body.now == 0)) ≡ false → IsOk result }
    {
        self.take(id, Stream::Extended(ext), body, exchanging, out)
    }

    #[tactic(auto, using(crate::proofs::LegalLemmas::did_part))]
    fn take(
        &mut self,
        id: ChannelId,
        stream: Stream,
        body: &[u8],
        exchanging: bool,
        out: &mut Outbox,
    ) -> Result<(), NoMemory>
        ensures did { Did (Bytes id.0 stream body.now exchanging) self.old self.new out.old out.new result }
        ensures part { OnOk result (DidItsPart (Bytes id.0 stream body.now exchanging) self.old self.new) }
        ensures succeeds { (takes_at id.0 self.old && not (length body.now == 0)) ≡ false → IsOk result }
    {
        let alloc = self.alloc;
        let Some(at) = place(self.slots.as_slice(), &self.index, id.0) else {
            return Ok(());
        };
        let Some(channel) = &mut self.slots[at] else {
            return Ok(());
        };
        let waited = channel.waits();
        let result = channel.data(alloc, stream, body, exchanging, out);
        self.waiting = recounted(self.waiting, waited, channel.waits());
        result
    }

    /// Sends what may be sent on each channel, after an exchange.
    #[tactic(auto, using(crate::proofs::LegalLemmas::did_part))]
    pub fn flush_all(&mut self, out: &mut Outbox) -> Result<(), NoMemory>
        ensures did { Did FlushAll self.old self.new out.old out.new result }
        ensures part { OnOk result (DidItsPart FlushAll self.old self.new) }
        ensures succeeds { WritesNothing FlushAll self.old → IsOk result }
    {
        say_flushed(self.slots.as_slice(), out)?;
        self.waiting = count_all_flushed(&mut self.slots);
        Ok(())
    }
}

/// Says what each channel may send now, or nothing.
#[tactic(auto, unfolding(crate::specs::Packets::adding), using(crate::proofs::AddingLemmas::cut_back))]
fn say_flushed(slots: &[Option<Channel>], out: &mut Outbox) -> Result<(), NoMemory>
    ensures ok { OnOk result (out.new.records ≡ out.old.records
        ++ shown out.old.muted (records_of (all_said (present slots.now)))) }
    ensures err { OnErr result (out.new.records ≡ out.old.records) }
    ensures same { out.new.muted ≡ out.old.muted }
    ensures succeeds { all_said (present slots.now) ≡ [] → IsOk result }
{
    let count = out.len();
    match push_flushed(slots, out) {
        Ok(()) => Ok(()),
        Err(error) => {
            out.truncate(count);
            Err(error)
        }
    }
}

/// Adds what each channel may send now. Out of memory, some of it may be added.
#[tactic(auto, unfolding(crate::specs::Packets::adding))]
fn push_flushed(slots: &[Option<Channel>], out: &mut Outbox) -> Result<(), NoMemory>
    ensures output { OnOk result (out.new ≡ adding out.old (records_of (all_said (present slots.now)))) }
    ensures some { OnErr result (Grows out.old.records out.new.records) }
    ensures same { out.new.muted ≡ out.old.muted }
    ensures succeeds { all_said (present slots.now) ≡ [] → IsOk result }
{
    for slot in slots {
        push_slot(slot, out)?;
    }
    Ok(())
}

#[tactic(auto, unfolding(crate::specs::Packets::adding))]
fn push_slot(slot: &Option<Channel>, out: &mut Outbox) -> Result<(), NoMemory>
    ensures output { OnOk result (out.new ≡ adding out.old (records_of (all_said (present (slot.now ∷ []))))) }
    ensures some { OnErr result (Grows out.old.records out.new.records) }
    ensures same { out.new.muted ≡ out.old.muted }
    ensures succeeds { all_said (present (slot.now ∷ [])) ≡ [] → IsOk result }
{
    match slot {
        Some(channel) => channel.push_flushed(false, out),
        None => Ok(()),
    }
}

/// Marks as sent what each channel may send now. Returns on how many channels bytes wait afterwards.
fn count_all_flushed(slots: &mut Vec<Option<Channel>>) -> usize
    ensures flushed { slots.new.items ≡ map flushed_slot slots.old.items }
    ensures waiting { result ≡ waiting_of (present slots.new.items) }
{
    count_flushed(slots.as_mut_slice())
}

fn count_flushed(slots: &mut [Option<Channel>]) -> usize
    ensures flushed { slots.new ≡ map flushed_slot slots.old }
    ensures waiting { result ≡ waiting_of (present slots.new) }
{
    let mut waiting = 0;
    for slot in slots.iter_mut() {
        waiting += usize::from(count_slot(slot));
    }
    waiting
}

fn count_slot(slot: &mut Option<Channel>) -> bool
    ensures flushed { slot.new ≡ flushed_slot slot.old }
    ensures waits { result ≡ any_waits (present (slot.new ∷ [])) }
{
    match slot {
        Some(channel) => {
            channel.count_flushed(false);
            channel.waits()
        }
        None => false,
    }
}
