//! The records that a step says, in order, as one list of bytes.

ghost use Rattle.std.specs.Prelude.{◌≡◌, ◌<◌, ◌^◌, [], ◌∷◌, ◌++◌, length, map, drop, take, slice_get, OnOk, OnErr, IfOk};
ghost use Rattle.std.specs.Prelude.{IfSome, IsOk, option_copied, Some, true, false};
ghost use Rattle.std.specs.Option.{option_map};
ghost use Rattle.sshc_wire.specs.Wire.{IsBytes};
ghost use Rattle.sshc_wire.specs.Records.{record_text};
ghost use Rattle.sshc_wire.specs.Outgoing.{listed, kept, shown, text_in, texts, packet_in, Takes};
ghost use Rattle.sshc_wire.specs.Telling.{AllTold, IsTold, record_of};

use crate::cursor::Cursor;
use crate::error::{NoMemory, RecordError};
use crate::fitting::fits;
use crate::reading::read_record;
use crate::record::Record;
use crate::texts::Texts;
use std::alloc::Global;
use std::marker::Model;

/// Records in order, which contracts see as that list. They are kept as their texts, in one buffer: a record that is
/// added is written there, and one that is taken is read again. A muted outbox drops packets.
///
/// Two records count as out of memory where they are added, since other records have their texts too: a list of
/// signature algorithms in which a name is empty or has a comma, and a signal of its own under a standard name. No
/// session reports either.
#[derive(Drop)]
pub struct Outbox {
    texts: Texts,
    is_muted: bool,
}

impl Model for Outbox {
    ghost use Rattle.sshc_wire.specs.Outgoing.{Outgoing};
    ghost use Rattle.sshc_wire.specs.Telling.{AreTold, records_of};

    ghost Value = { Outgoing };

    ghost view = { λ o. record { records = records_of o.texts; muted = o.is_muted } };

    ghost invariant = { λ o. AreTold o.texts };
}

impl Outbox {
    /// No records.
    pub fn new(alloc: Global) -> Outbox
        ensures empty { result.records ≡ [] }
        ensures open { result.muted ≡ false }
    {
        Outbox {
            texts: Texts::new(alloc),
            is_muted: false,
        }
    }

    /// Drops packets from now on.
    pub fn mute(&mut self)
        ensures { self.new ≡ record self.old { muted = true } }
    {
        self.is_muted = true;
    }

    /// As it was made, but for its memory, which it keeps.
    pub fn clear(&mut self)
        ensures empty { self.new.records ≡ [] }
        ensures open { self.new.muted ≡ false }
    {
        self.texts.clear();
        self.is_muted = false;
    }

    /// Keeps the first records, so many of them. Takes no memory.
    #[tactic(auto, using(crate::proofs::OutboxLemmas::first_records, crate::proofs::OutboxLemmas::first_told))]
    pub fn truncate(&mut self, count: usize)
        ensures { (self.new.records ≡ take count self.old.records) × (self.new.muted ≡ self.old.muted) }
    {
        self.texts.truncate(count);
    }

    /// How many records are held.
    #[tactic(auto, using(crate::proofs::OutboxLemmas::records_len))]
    pub fn len(&self) -> usize
        ensures { result ≡ length self.now.records }
    {
        self.texts.len()
    }

    /// The texts of the records, joined in order. Takes no memory.
    #[tactic(auto, using(crate::proofs::OutboxLemmas::told_joined))]
    pub fn as_bytes(&self) -> &[u8]
        ensures { result.now ≡ texts self.now.records }
    {
        self.texts.as_bytes()
    }

    /// Adds a record, or changes nothing.
    #[tactic(auto, using(crate::proofs::OutboxLemmas::one_pushed, crate::proofs::OutboxLemmas::more_told))]
    pub fn push(&mut self, output: Record) -> Result<(), NoMemory>
        ensures ok { OnOk result (self.new.records ≡ self.old.records ++ shown self.old.muted (output ∷ [])) }
        ensures err { OnErr result (self.new.records ≡ self.old.records) }
        ensures same { self.new.muted ≡ self.old.muted }
    {
        let added = add(&mut self.texts, self.is_muted, &output);
        drop(output);
        added
    }

    /// Adds a packet of these two parts, one after the other, or changes nothing. Each part is copied once. More than
    /// 2^32 - 1 bytes count as out of memory.
    #[tactic(auto, using(crate::proofs::OutboxLemmas::packet_added, crate::proofs::OutboxLemmas::packet_told))]
    pub fn push_packet(&mut self, head: &[u8], body: &[u8]) -> Result<(), NoMemory>
        ensures ok { OnOk result
            (self.new.records ≡ self.old.records ++ shown self.old.muted (Record.Payload (head.now ++ body.now) ∷ [])) }
        ensures err { OnErr result (self.new.records ≡ self.old.records) }
        ensures same { self.new.muted ≡ self.old.muted }
    {
        if self.is_muted {
            return Ok(());
        }
        if head.len().saturating_add(body.len()) >= 1 << 32 {
            return Err(NoMemory);
        }
        self.texts.push_packet(head, body)
    }

    /// Adds no record, one or two, or changes nothing.
    #[tactic(auto, using(crate::proofs::OutboxLemmas::more_records, crate::proofs::OutboxLemmas::more_told))]
    pub fn push_both(
        &mut self,
        first: Option<Record>,
        second: Option<Record>,
    ) -> Result<(), NoMemory>
        ensures ok { OnOk result
            (self.new.records ≡ self.old.records ++ shown self.old.muted (listed first ++ listed second)) }
        ensures err { OnErr result (self.new.records ≡ self.old.records) }
        ensures same { self.new.muted ≡ self.old.muted }
    {
        let added = add_both(&mut self.texts, self.is_muted, &first, &second);
        drop(first);
        drop(second);
        added
    }

    /// Adds the records, which leave their list and its memory behind, or changes nothing. Adding none takes no memory.
    #[tactic(auto, using(crate::proofs::OutboxLemmas::more_records, crate::proofs::OutboxLemmas::more_told))]
    pub fn append(&mut self, output: &mut Vec<Record>) -> Result<(), NoMemory>
        ensures ok { OnOk result (self.new.records ≡ self.old.records ++ shown self.old.muted output.old.items) }
        ensures taken { OnOk result (output.new.items ≡ []) }
        ensures err { OnErr result (self.new.records ≡ self.old.records) }
        ensures left { OnErr result (output.new.items ≡ output.old.items) }
        ensures same { self.new.muted ≡ self.old.muted }
        ensures succeeds { output.old.items ≡ [] → IsOk result }
    {
        if output.len() == 0 {
            return Ok(());
        }
        add_all(&mut self.texts, self.is_muted, output.as_slice())?;
        output.clear();
        Ok(())
    }

    /// The text of the record at this place.
    #[tactic(auto, using(crate::proofs::OutboxLemmas::text_lent))]
    pub fn text(&self, at: usize) -> Option<&[u8]>
        ensures { option_copied result ≡ option_map record_text (slice_get self.now.records at) }
    {
        self.texts.text(at)
    }

    /// Writes the text of the record at this place; nothing behind the last record.
    #[tactic(auto, using(crate::proofs::OutboxLemmas::text_held, crate::proofs::OutboxLemmas::no_text))]
    pub fn put_text(&self, at: usize, out: &mut Vec<u8>) -> Result<(), NoMemory>
        ensures ok { OnOk result (out.new.items ≡ out.old.items ++ text_in (slice_get self.now.records at)) }
        ensures err { OnErr result (out.new.items ≡ out.old.items) }
    {
        if let Some(text) = self.texts.text(at) {
            out.extend_from_slice(text)?;
        }
        Ok(())
    }

    /// The packet at this place, if that record is a packet.
    #[tactic(auto, using(crate::proofs::OutboxLemmas::packet_held, crate::proofs::OutboxLemmas::no_packet))]
    pub fn packet(&self, at: usize) -> Option<&[u8]>
        ensures same { option_copied result ≡ packet_in (slice_get self.now.records at) }
        ensures bytes { IfSome result (λ p. IsBytes p.now) }
    {
        match self.texts.text(at) {
            Some(text) => packet_of(text),
            None => None,
        }
    }

    /// Lets the first record go, if there is one.
    #[tactic(auto, using(crate::proofs::OutboxLemmas::rest_records, crate::proofs::OutboxLemmas::rest_told))]
    pub fn drop_first(&mut self)
        ensures { (self.new.records ≡ drop 1 self.old.records) × (self.new.muted ≡ self.old.muted) }
    {
        self.texts.drop_first();
    }

    /// Takes the first record, or changes nothing.
    #[tactic(auto, using(crate::proofs::Hints::take_first))]
    pub fn take_first(&mut self) -> Result<Option<Record>, NoMemory>
        ensures ok { IfOk result (λ first. Takes first self.old.records self.new.records) }
        ensures err { OnErr result (self.new.records ≡ self.old.records) }
        ensures same { self.new.muted ≡ self.old.muted }
    {
        let Some(output) = first_of(&self.texts)? else {
            return Ok(None);
        };
        self.texts.drop_first();
        Ok(Some(output))
    }
}

/// Adds the text of a record that it tells, or changes nothing.
#[tactic(auto, using(crate::proofs::ToldRecords::told))]
fn add_told(held: &mut Texts, output: &Record) -> Result<(), NoMemory>
    ensures ok { OnOk result (held.new ≡ held.old ++ record_text output.now ∷ []) }
    ensures told { OnOk result (IsTold output.now) }
    ensures err { OnErr result (held.new ≡ held.old) }
{
    if !fits(output) {
        return Err(NoMemory);
    }
    held.push(output)
}

/// Adds a record's text, but for a packet of a muted outbox, or changes nothing.
#[tactic(auto, using(crate::proofs::OutboxLemmas::nothing_more))]
fn add(held: &mut Texts, is_muted: bool, output: &Record) -> Result<(), NoMemory>
    ensures ok { OnOk result (held.new ≡ held.old ++ map record_text (kept is_muted output.now)) }
    ensures told { OnOk result (AllTold (kept is_muted output.now)) }
    ensures err { OnErr result (held.new ≡ held.old) }
{
    match output {
        Record::Payload(_) if is_muted => Ok(()),
        output => add_told(held, output),
    }
}

/// Adds a record's text, if there is a record, or changes nothing.
#[tactic(auto, using(crate::proofs::Hints::add_if_some))]
fn add_if_some(held: &mut Texts, is_muted: bool, output: &Option<Record>) -> Result<(), NoMemory>
    ensures ok { OnOk result (held.new ≡ held.old ++ map record_text (shown is_muted (listed output.now))) }
    ensures told { OnOk result (AllTold (shown is_muted (listed output.now))) }
    ensures err { OnErr result (held.new ≡ held.old) }
{
    match output {
        Some(output) => add(held, is_muted, output),
        None => Ok(()),
    }
}

/// Adds the texts of both records, where there are any, or changes nothing.
#[tactic(auto, using(crate::proofs::Hints::add_both))]
fn add_both(
    held: &mut Texts,
    is_muted: bool,
    first: &Option<Record>,
    second: &Option<Record>,
) -> Result<(), NoMemory>
    ensures ok { OnOk result
        (held.new ≡ held.old ++ map record_text (shown is_muted (listed first.now ++ listed second.now))) }
    ensures told { OnOk result (AllTold (shown is_muted (listed first.now ++ listed second.now))) }
    ensures err { OnErr result (held.new ≡ held.old) }
{
    let count = held.len();
    add_if_some(held, is_muted, first)?;
    if add_if_some(held, is_muted, second).is_err() {
        held.truncate(count);
        return Err(NoMemory);
    }
    Ok(())
}

/// Adds the texts of records, or changes nothing.
#[tactic(auto, using(crate::proofs::Hints::add_all))]
fn add_all(held: &mut Texts, is_muted: bool, output: &[Record]) -> Result<(), NoMemory>
    ensures ok { OnOk result (held.new ≡ held.old ++ map record_text (shown is_muted output.now)) }
    ensures told { OnOk result (AllTold (shown is_muted output.now)) }
    ensures err { OnErr result (held.new ≡ held.old) }
{
    let count = held.len();
    for one in output {
        if add(held, is_muted, one).is_err() {
            held.truncate(count);
            return Err(NoMemory);
        }
    }
    Ok(())
}

/// The record of the first text, if there is one.
fn first_of(held: &Texts) -> Result<Option<Record>, NoMemory>
    ensures { IfOk result (λ first. first ≡ option_map record_of (slice_get held.now 0)) }
{
    let Some(text) = held.text(0) else {
        return Ok(None);
    };
    match read_record(held.allocator(), text) {
        Ok(output) => Ok(Some(output)),
        Err(RecordError::NoMemory | RecordError::NotARecord) => Err(NoMemory),
    }
}

/// The packet of a text, if it is a packet's.
#[tactic(auto, unfolding(crate::specs::Telling::record_of), using(crate::proofs::OutboxLemmas::other_number))]
fn packet_of(text: &[u8]) -> Option<&[u8]>
    ensures same { option_copied result ≡ packet_in (Some (record_of text.now)) }
    ensures bytes { IfSome result (λ p. IsBytes p.now) }
{
    match text {
        [] => None,
        // A cursor's clauses say that what it reads are bytes.
        [0x01, packet @ ..] => Some(Cursor::new(packet).rest()),
        _ => None,
    }
}
