//! A channel's waiting bytes: what is sent of them, and what remains (RFC 4254, section 5.2).

ghost use Rattle.std.specs.Prelude.{◌≡◌, ◌-◌, ◌++◌, ◌<◌, ◌≤◌, ◌==◌, length, slice_index_or, [], IfOk, OnOk, OnErr, IsOk};
ghost use Rattle.sshc_wire.specs.Outgoing.{Grows};
ghost use Rattle.sshc_mux.specs.ChannelState.{Waiting};
ghost use Rattle.sshc_mux.specs.Packets.{adding, payloads};
ghost use Rattle.sshc_mux.specs.ChannelTable.Sending.{sent_of, left_of, count_of};

use crate::chunk::Chunk;
use crate::packets::push_pieces;
use sshc_wire::{NoMemory, Outbox};
use std::collections::VecDeque;

/// Adds what there is room for. Returns whether no bytes remain. Out of memory, some of it may be added.
#[tactic(auto, unfolding(crate::specs::Packets::adding))]
pub(crate) fn push_sent(
    recipient: u32,
    size: u32,
    room: usize,
    pending: &VecDeque<Chunk>,
    out: &mut Outbox,
) -> Result<bool, NoMemory>
    requires { 0 < room → 0 < size }
    ensures output { OnOk result (out.new ≡ adding out.old (payloads recipient (sent_of size room pending.now.items))) }
    ensures some { OnErr result (Grows out.old.records out.new.records) }
    ensures same { out.new.muted ≡ out.old.muted }
    ensures succeeds { sent_of size room pending.now.items ≡ [] → IsOk result }
    ensures all { IfOk result (λ all. all ≡ (length (left_of room pending.now.items) == 0)) }
{
    let mut left = room;
    let mut at = 0;
    while at < pending.len() {
        let chunk = &pending[at];
        let bytes = chunk.bytes();
        if bytes.len() > left {
            push_pieces(recipient, size, chunk.stream(), bytes.split_at(left).0, out)?;
            return Ok(false);
        }
        push_pieces(recipient, size, chunk.stream(), bytes, out)?;
        left -= bytes.len();
        at += 1;
    }
    Ok(true)
}

/// Removes the whole chunks that there is room for. Returns the room after them.
fn drop_whole(pending: &mut VecDeque<Chunk>, room: usize) -> usize
    ensures left { left_of room pending.old.items ≡ left_of result pending.new.items }
    ensures used { room - count_of pending.old.items ≡ result - count_of pending.new.items }
    ensures short { 0 < length pending.new.items →
        (d : Waiting) → result < length (slice_index_or pending.new.items 0 d).bytes }
{
    let mut left = room;
    while pending.len() > 0 && pending[0].bytes().len() <= left {
        left -= pending[0].bytes().len();
        let _ = pending.pop_front();
    }
    left
}

/// Removes the bytes that there is room for. Returns the room after them.
pub(crate) fn drop_sent(pending: &mut VecDeque<Chunk>, room: usize) -> usize
    ensures left { pending.new.items ≡ left_of room pending.old.items }
    ensures used { result ≡ room - count_of pending.old.items }
{
    let rest = drop_whole(pending, room);
    if pending.len() > 0 {
        let chunk = &mut pending[0];
        chunk.skip(rest);
        0
    } else {
        rest
    }
}
