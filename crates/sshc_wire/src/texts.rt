//! Texts of records in one buffer.

ghost use Rattle.std.specs.Prelude.{◌≡◌, ◌+◌, ◌-◌, ◌<◌, ◌≤◌, [], ◌∷◌, ◌++◌, OnErr, OnOk, drop, length, option_copied};
ghost use Rattle.std.specs.Prelude.{slice_get, slice_range, take, Some};
ghost use Rattle.sshc_wire.specs.Extending.{Extends};
ghost use Rattle.sshc_wire.specs.Records.{record_text};
ghost use Rattle.sshc_wire.specs.declared.place.Place.{Place as Where};
ghost use Rattle.sshc_wire.specs.Packing.{IsPacked, joined, texts_in};

use crate::error::NoMemory;
use crate::place::Place;
use crate::record::{Record, put_record};
use std::alloc::Global;
use std::marker::Model;

/// Texts in order, which contracts see as that list. Their bytes are in one buffer, in a row, and each has its place
/// there. Those that were let go stay in the buffer until none is left, or all are cleared: the buffer has at most the
/// texts that were added since it was last empty.
#[derive(Drop)]
pub(crate) struct Texts {
    bytes: Vec<u8>,
    places: Vec<Place>,
    first: usize,
}

impl Model for Texts {
    ghost use Rattle.std.specs.Prelude.{ℕ, List, ◌≤◌, drop, length};
    ghost use Rattle.sshc_wire.specs.Packing.{IsPacked, texts_in};

    ghost Value = { List (List ℕ) };

    ghost view = { λ t. texts_in t.bytes.items (drop t.first t.places.items) };

    ghost invariant = { λ t. IsPacked t.bytes.items t.places.items × (t.first ≤ length t.places.items) };
}

impl Texts {
    /// No texts.
    #[tactic(auto, using(crate::proofs::PackingLemmas::none_packed))]
    pub(crate) fn new(alloc: Global) -> Texts
        ensures { result ≡ [] }
    {
        Texts {
            bytes: Vec::new(alloc),
            places: Vec::new(alloc),
            first: 0,
        }
    }

    /// The allocator of which the buffer is.
    pub(crate) fn allocator(&self) -> Global {
        *self.bytes.allocator()
    }

    /// Lets all texts go, but keeps the memory.
    #[tactic(auto, using(crate::proofs::PackingLemmas::none_packed))]
    pub(crate) fn clear(&mut self)
        ensures { self.new ≡ [] }
    {
        self.bytes.clear();
        self.places.clear();
        self.first = 0;
    }

    /// How many texts are held.
    #[tactic(auto, using(crate::proofs::PackingLemmas::held_len))]
    pub(crate) fn len(&self) -> usize
        ensures { result ≡ length self.now }
    {
        self.places.len() - self.first
    }

    /// The text at this place.
    pub(crate) fn text(&self, at: usize) -> Option<&[u8]>
        ensures { option_copied result ≡ slice_get self.now at }
    {
        text_at(
            self.bytes.as_slice(),
            self.places.as_slice(),
            self.first,
            at,
        )
    }

    /// All texts, one after the other.
    pub(crate) fn as_bytes(&self) -> &[u8]
        ensures { result.now ≡ joined self.now }
    {
        bytes_from(self.bytes.as_slice(), self.places.as_slice(), self.first)
    }

    /// Lets the first text go, if there is one. With the last one the buffer is empty again.
    #[tactic(auto, using(crate::proofs::PackingLemmas::held_rest, crate::proofs::PackingLemmas::last_goes))]
    pub(crate) fn drop_first(&mut self)
        ensures { self.new ≡ drop 1 self.old }
    {
        if self.places.len() - self.first > 1 {
            self.first += 1;
        } else {
            self.clear();
        }
    }

    /// Keeps the first texts, so many of them. Takes no memory.
    #[tactic(auto, using(crate::proofs::PackingLemmas::kept_all))]
    pub(crate) fn truncate(&mut self, count: usize)
        ensures { self.new ≡ take count self.old }
    {
        let keep = self.first.saturating_add(count);
        if keep < self.places.len() {
            cut_back(&mut self.bytes, &mut self.places, self.first, keep);
        }
    }

    /// Adds the record's text, or changes nothing.
    #[tactic(auto, using(crate::proofs::Hints::pushes))]
    pub(crate) fn push(&mut self, output: &Record) -> Result<(), NoMemory>
        ensures ok { OnOk result (self.new ≡ self.old ++ record_text output.now ∷ []) }
        ensures err { OnErr result (self.new ≡ self.old) }
    {
        self.places.reserve(1)?;
        let start = self.bytes.len();
        put_record(&mut self.bytes, output)?;
        self.places.push_reserved(Place {
            start,
            stop: self.bytes.len(),
        });
        Ok(())
    }

    /// Adds the text of a packet of these two parts, or changes nothing. Each part is copied once.
    #[tactic(auto, using(crate::proofs::Hints::pushes))]
    pub(crate) fn push_packet(&mut self, head: &[u8], body: &[u8]) -> Result<(), NoMemory>
        ensures ok { OnOk result (self.new ≡ self.old ++ (0x01 ∷ head.now ++ body.now) ∷ []) }
        ensures err { OnErr result (self.new ≡ self.old) }
    {
        self.places.reserve(1)?;
        let start = self.bytes.len();
        put_packet(&mut self.bytes, head, body)?;
        self.places.push_reserved(Place {
            start,
            stop: self.bytes.len(),
        });
        Ok(())
    }
}

/// Writes a packet's record: its number and both parts, or nothing.
#[tactic(auto, using(crate::proofs::Extended::cut_back))]
fn put_packet(out: &mut Vec<u8>, head: &[u8], body: &[u8]) -> Result<(), NoMemory>
    ensures ok { OnOk result (out.new.items ≡ out.old.items ++ (0x01 ∷ head.now ++ body.now)) }
    ensures err { OnErr result (out.new.items ≡ out.old.items) }
{
    let before = out.len();
    let written = put_packet_parts(out, head, body);
    if written.is_err() {
        out.truncate(before);
    }
    written
}

/// Writes the number and both parts. Out of memory, some of them may be written.
#[tactic(auto, using(crate::proofs::Extended::extended, crate::proofs::Extended::unextended))]
fn put_packet_parts(out: &mut Vec<u8>, head: &[u8], body: &[u8]) -> Result<(), NoMemory>
    ensures ok { OnOk result (out.new.items ≡ out.old.items ++ (0x01 ∷ head.now ++ body.now)) }
    ensures err { OnErr result (Extends out.old.items out.new.items) }
{
    out.reserve(head.len().saturating_add(body.len()).saturating_add(1))?;
    out.push(0x01)?;
    out.extend_from_slice(head)?;
    out.extend_from_slice(body)?;
    Ok(())
}

/// Lets the texts from this place on go.
#[tactic(auto, using(crate::proofs::Hints::cut_back))]
fn cut_back(bytes: &mut Vec<u8>, places: &mut Vec<Place>, first: usize, keep: usize)
    requires packed { IsPacked bytes.old.items places.old.items }
    requires held { first ≤ keep }
    requires within { keep < length places.old.items }
    ensures packed { IsPacked bytes.new.items places.new.items }
    ensures left { texts_in bytes.new.items (drop first places.new.items)
        ≡ take (keep - first) (texts_in bytes.old.items (drop first places.old.items)) }
    ensures within { first ≤ length places.new.items }
{
    let start = start_of(places.as_slice(), keep);
    bytes.truncate(start);
    places.truncate(keep);
}

/// Where the text at this place begins.
fn start_of(places: &[Place], at: usize) -> usize
    requires { at < length places.now }
    ensures { (q : Where) → slice_get places.now at ≡ Some q → result ≡ q.start }
{
    places[at].start
}

/// A place, counted from the first one that is held.
fn place_at(places: &[Place], first: usize, at: usize) -> Option<Place>
    requires { first ≤ length places.now }
    ensures { result ≡ slice_get (drop first places.now) at }
{
    match places.split_at(first).1.get(at) {
        Some(place) => Some(*place),
        None => None,
    }
}

/// The bytes between two places.
fn part(bytes: &[u8], start: usize, stop: usize) -> &[u8]
    requires order { start ≤ stop }
    requires within { stop ≤ length bytes.now }
    ensures { result.now ≡ slice_range bytes.now start stop }
{
    &bytes[start..stop]
}

/// The text at a place, counted from the first one that is held.
#[tactic(auto, using(crate::proofs::PackingLemmas::none_there))]
fn text_at<'a>(bytes: &'a [u8], places: &[Place], first: usize, at: usize) -> Option<&'a [u8]>
    requires packed { IsPacked bytes.now places.now }
    requires within { first ≤ length places.now }
    ensures { option_copied result ≡ slice_get (texts_in bytes.now (drop first places.now)) at }
{
    match place_at(places, first, at) {
        Some(place) => Some(part(bytes, place.start, place.stop)),
        None => None,
    }
}

/// The bytes from the first text on that is held.
#[tactic(auto, using(crate::proofs::Hints::bytes_from))]
fn bytes_from<'a>(bytes: &'a [u8], places: &[Place], first: usize) -> &'a [u8]
    requires packed { IsPacked bytes.now places.now }
    requires within { first ≤ length places.now }
    ensures { result.now ≡ joined (texts_in bytes.now (drop first places.now)) }
{
    match place_at(places, first, 0) {
        Some(place) => bytes.split_at(place.start).1,
        None => &[],
    }
}
