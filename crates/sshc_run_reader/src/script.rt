//! Takes the events of a script from a source, one at a time.

ghost use Rattle.std.specs.Prelude.{◌≡◌, ◌≤◌, ◌<◌, ◌+◌, ◌⊎◌, ℕ, List, length, drop, option_map, Result, IfOk, IfSome};
ghost use Rattle.std.specs.Prelude.{IsNone, Err};
ghost use Rattle.std.specs.Int.{w32, from_be_bytes};
ghost use Rattle.sshc_wire.specs.Faults.{Rose};
ghost use Rattle.sshc_run_reader.specs.Gives.{GivesAll};
ghost use Rattle.sshc_run_reader.specs.Script.{head_at, size_of};
ghost use Rattle.sshc_run_reader.specs.Reading.{NextGives};

use crate::error::{EventError, NextError, not_read, read_failed};
use crate::event_kind::EventKind;
use sshc_wire::{Cursor, Source, read_front};
use std::marker::Model;

/// The fewest bytes of an event after its length: a moment and a kind.
pub const SHORTEST_EVENT: usize = 9;

/// The most bytes of an event after its length.
pub const LONGEST_EVENT: usize = 262144;

/// An event before its fields are read, which contracts see as its moment, its kind and the fields' bytes.
#[derive(Drop)]
pub struct RawEvent<'a> {
    moment: u64,
    kind: EventKind,
    body: &'a [u8],
}

impl<'a> Model for RawEvent<'a> {
    ghost use Rattle.std.specs.Prelude.{◌≤◌, drop, length};
    ghost use Rattle.sshc_run_reader.specs.Script.{Head};

    ghost Value = { Head };

    ghost view = { λ e. (e.moment, (e.kind, drop 9 e.body.now)) };

    ghost invariant = { λ e. (9 ≤ length e.body.now) × (length e.body.now ≤ 262144) };
}

impl<'a> RawEvent<'a> {
    /// Milliseconds.
    pub fn moment(&self) -> u64
        ensures { result ≡ self.now.0 }
    {
        self.moment
    }

    pub fn kind(&self) -> EventKind
        ensures { result ≡ self.now.1.0 }
    {
        self.kind
    }

    /// The bytes of the fields.
    pub fn fields(&self) -> &'a [u8]
        ensures { result.now ≡ self.now.1.1 }
    {
        &self.body[9..]
    }

    /// How many bytes the event has, with its length field.
    pub fn size(&self) -> u64
        ensures size { result ≡ size_of self.now }
        ensures within { result ≤ 262148 }
    {
        4 + self.body.len() as u64
    }
}

/// The length that four bytes encode, if an event may have that length.
fn length_of(head: &[u8]) -> Option<usize>
    ensures within { IfSome result (λ n. (9 ≤ n) × (n ≤ 262144)) }
    ensures some { IfSome result (λ n. n ≡ from_be_bytes w32 head.now) }
    ensures size { IfSome result (λ n. 4 ≤ length head.now) }
    ensures none { IsNone result → (length head.now < 4) ⊎ (from_be_bytes w32 head.now < 9)
        ⊎ (262144 < from_be_bytes w32 head.now) }
{
    if head.len() < 4 {
        return None;
    }
    let length = u32::from_be_bytes([head[0], head[1], head[2], head[3]]) as usize;
    if length < SHORTEST_EVENT || length > LONGEST_EVENT {
        return None;
    }
    Some(length)
}

/// The moment and the kind of an event's bytes.
#[tactic(auto, unfolding(crate::specs::Script::head_at))]
fn moment_and_kind(last: u64, body: &[u8]) -> Result<(u64, EventKind), EventError>
    ensures { GivesAll (λ h. (h.0, (h.1, drop 9 body.now))) result (head_at last body.now) }
{
    let mut c = Cursor::new(body);
    let moment = c.u64()?;
    let number = c.u8()?;
    let Some(kind) = EventKind::from_u8(number) else {
        return Err(EventError::Bad);
    };
    if moment < last {
        return Err(EventError::Bad);
    }
    Ok((moment, kind))
}

/// The event of these bytes, which follow its length.
fn raw_event(last: u64, body: &[u8]) -> Result<RawEvent<'_>, EventError>
    requires low { 9 ≤ length body.now }
    requires high { length body.now ≤ 262144 }
    ensures head { GivesAll (λ e. e) result (head_at last body.now) }
    ensures size { IfOk result (λ e. size_of e ≡ 4 + length body.now) }
{
    let (moment, kind) = moment_and_kind(last, body)?;
    Ok(RawEvent { moment, kind, body })
}

/// Returns the next event, or `None` at the script's end. The event's moment must not be below `last`. The event is
/// read to the front of this memory, which is only ever made longer; no clause says so.
pub fn next_event<'a, S: Source>(
    memory: &'a mut Vec<u8>,
    source: &mut S,
    last: u64,
) -> Result<Option<RawEvent<'a>>, NextError>
    ensures gives { NextGives last (S.left source.old) (S.left source.new) (S.reads source.old)
        (S.reads source.new) result }
    ensures later { S.faults source.old ≤ S.faults source.new }
    ensures fault { result ≡ Err NextError.ReadFault → Rose (S.faults source.old) (S.faults source.new) }
    ensures told { (result ≡ Err NextError.ReadFault → ⊥) → S.faults source.new ≡ S.faults source.old }
    // If a whole event is returned, each read returned at least one byte; otherwise at most one read returned none.
    ensures moving { IfOk result (λ taken. IfSome taken (λ _. S.empty_reads source.new ≡ S.empty_reads source.old)) }
    ensures last { S.empty_reads source.new ≤ S.empty_reads source.old + 1 }
{
    let head = match read_front(memory, source, 4) {
        Ok(head) => head,
        Err(failed) => return Err(read_failed(failed)),
    };
    if head.is_empty() {
        return Ok(None);
    }
    let Some(length) = length_of(head) else {
        return Err(NextError::Bad);
    };
    let body = match read_front(memory, source, length) {
        Ok(body) => body,
        Err(failed) => return Err(read_failed(failed)),
    };
    if body.len() < length {
        return Err(NextError::Bad);
    }
    match raw_event(last, body) {
        Ok(event) => Ok(Some(event)),
        Err(e) => Err(not_read(e)),
    }
}
