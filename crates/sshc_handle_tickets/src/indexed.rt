//! Things with their places, and the places of their numbers.

ghost use Rattle.std.specs.Prelude.{◌≡◌, ◌<◌, ◌^◌, ℕ, false, length, [], None, is_some, IfNone, IfSome, OnErr, OnOk};
ghost use Rattle.std.specs.BTreeMap.{insert_entry, is_at};
ghost use Rattle.std.specs.List.Sorted.{IsStrictlySortedBy};
ghost use Rattle.std.specs.Map.{keys_of, remove_entry, values_of};
ghost use Rattle.std.specs.Ordering.{nat_cmp};
ghost use Rattle.sshc_handle_tickets.specs.Lines.{has_number, has_some, number_in};
ghost use Rattle.sshc_handle_tickets.specs.Places.{Forgets, ForgetsHappened, IsAt, Keeps, KeepsHappened, Notes};
ghost use Rattle.sshc_handle_tickets.specs.Places.{NotesHappened, at_place, passes};

use crate::line::Numbered;
use crate::places::{first_happened, first_place, forget, forget_happened, note, note_happened};
use sshc_wire::NoMemory;
use std::alloc::Global;
use std::collections::btree_map::Values;
use std::collections::{BTreeMap, BTreeSet};
use std::marker::Model;

/// Things with their places, which contracts see as pairs of a place and a thing, by place; and the places of those
/// that have a number.
#[derive(Drop)]
pub(crate) struct Indexed<X: Numbered + Drop> {
    standing: BTreeMap<u64, X>,
    of_tickets: BTreeSet<(u32, u64)>,
    on_channels: BTreeSet<(u32, u64)>,
    happened: BTreeSet<u64>,
}

impl<X: Numbered + Drop> Model for Indexed<X> {
    ghost use Rattle.std.specs.Prelude.{ℕ, List};
    ghost use Rattle.sshc_handle_tickets.specs.Places.{IsIndexed};

    ghost Value = { List (ℕ × X) };

    ghost view = { λ s. s.standing.entries };

    ghost invariant = { λ s. IsIndexed X.ticket X.channel s.standing.entries s.of_tickets s.on_channels s.happened };
}

impl<X: Numbered + Drop> Indexed<X> {
    /// Nothing stands anywhere.
    pub(crate) fn new(alloc: Global) -> Indexed<X>
        ensures { result ≡ [] }
    {
        Indexed {
            standing: BTreeMap::new(alloc),
            of_tickets: BTreeSet::new(alloc),
            on_channels: BTreeSet::new(alloc),
            happened: BTreeSet::new(alloc),
        }
    }

    /// How many things there are.
    pub(crate) fn len(&self) -> usize
        ensures len { result ≡ length self.now }
        ensures small { result < 2 ^ 63 }
    {
        self.standing.len()
    }

    /// The things, by place.
    pub(crate) fn values(&self) -> Values<'_, u64, X>
        ensures { result ≡ values_of self.now }
    {
        self.standing.values()
    }

    /// The channel's number of what stands at this place.
    pub(crate) fn channel_at(&self, place: u64) -> Option<u32>
        ensures { result ≡ number_in X.channel (at_place place self.now) }
    {
        match self.standing.get(&place) {
            Some(one) => one.channel(),
            None => None,
        }
    }

    /// The first place of this ticket's number.
    pub(crate) fn first_of_ticket(&self, number: u32) -> Option<u64>
        ensures found { IfSome result
            (λ place. IsAt (λ p. passes (has_number X.ticket number) (at_place p self.now)) place) }
        ensures none { IfNone result ((p : ℕ) → passes (has_number X.ticket number) (at_place p self.now) ≡ false) }
        ensures sorted { IsStrictlySortedBy nat_cmp (keys_of self.now) }
    {
        let _count = self.standing.len();
        first_place(&self.of_tickets, number)
    }

    /// The first place of this channel's number.
    pub(crate) fn first_on_channel(&self, number: u32) -> Option<u64>
        ensures found { IfSome result
            (λ place. IsAt (λ p. passes (has_number X.channel number) (at_place p self.now)) place) }
        ensures none { IfNone result ((p : ℕ) → passes (has_number X.channel number) (at_place p self.now) ≡ false) }
        ensures sorted { IsStrictlySortedBy nat_cmp (keys_of self.now) }
    {
        let _count = self.standing.len();
        first_place(&self.on_channels, number)
    }

    /// The first place of some channel's number.
    pub(crate) fn first_happened(&self) -> Option<u64>
        ensures found { IfSome result (λ place. IsAt (λ p. passes (has_some X.channel) (at_place p self.now)) place) }
        ensures none { IfNone result ((p : ℕ) → passes (has_some X.channel) (at_place p self.now) ≡ false) }
        ensures sorted { IsStrictlySortedBy nat_cmp (keys_of self.now) }
    {
        let _count = self.standing.len();
        first_happened(&self.happened)
    }

    /// Takes what stands at this place.
    pub(crate) fn take(&mut self, place: u64) -> Option<X>
        ensures taken { result ≡ at_place place self.old }
        ensures rest { self.new ≡ remove_entry (is_at (nat_cmp place)) self.old }
    {
        let taken = self.standing.remove(&place);
        if let Some(one) = &taken {
            forget_all(
                &mut self.of_tickets,
                &mut self.on_channels,
                &mut self.happened,
                one.ticket(),
                one.channel(),
                place,
            );
        }
        taken
    }

    /// Puts a thing at a place where nothing stands.
    pub(crate) fn put(&mut self, place: u64, one: X) -> Result<(), NoMemory>
        requires { at_place place self.old ≡ None }
        ensures ok { OnOk result (self.new ≡ insert_entry nat_cmp self.old place one) }
        ensures err { OnErr result (self.new ≡ self.old) }
    {
        let ticket = one.ticket();
        let channel = one.channel();
        let noted = note_all(
            &mut self.of_tickets,
            &mut self.on_channels,
            &mut self.happened,
            ticket,
            channel,
            place,
        );
        if let Err(NoMemory) = noted {
            drop(one);
            forget_all(
                &mut self.of_tickets,
                &mut self.on_channels,
                &mut self.happened,
                ticket,
                channel,
                place,
            );
            return Err(NoMemory);
        }
        match self.standing.insert(place, one) {
            Ok(_none) => Ok(()),
            Err(refused) => {
                drop(refused);
                forget_all(
                    &mut self.of_tickets,
                    &mut self.on_channels,
                    &mut self.happened,
                    ticket,
                    channel,
                    place,
                );
                Err(NoMemory)
            }
        }
    }
}

/// Notes the place of one thing. Where memory runs out, some of it may be noted.
fn note_all(
    of_tickets: &mut BTreeSet<(u32, u64)>,
    on_channels: &mut BTreeSet<(u32, u64)>,
    happened: &mut BTreeSet<u64>,
    ticket: Option<u32>,
    channel: Option<u32>,
    place: u64,
) -> Result<(), NoMemory>
    ensures tickets { OnOk result (Notes ticket place of_tickets.old of_tickets.new) }
    ensures channels { OnOk result (Notes channel place on_channels.old on_channels.new) }
    ensures somewhere { OnOk result (NotesHappened (is_some channel) place happened.old happened.new) }
    ensures other_tickets { Keeps ticket place of_tickets.old of_tickets.new }
    ensures other_channels { Keeps channel place on_channels.old on_channels.new }
    ensures elsewhere { KeepsHappened (is_some channel) place happened.old happened.new }
{
    note(of_tickets, ticket, place)?;
    note(on_channels, channel, place)?;
    note_happened(happened, channel.is_some(), place)
}

/// Forgets the place of one thing.
fn forget_all(
    of_tickets: &mut BTreeSet<(u32, u64)>,
    on_channels: &mut BTreeSet<(u32, u64)>,
    happened: &mut BTreeSet<u64>,
    ticket: Option<u32>,
    channel: Option<u32>,
    place: u64,
)
    ensures tickets { Forgets ticket place of_tickets.old of_tickets.new }
    ensures channels { Forgets channel place on_channels.old on_channels.new }
    ensures somewhere { ForgetsHappened (is_some channel) place happened.old happened.new }
{
    forget(of_tickets, ticket, place);
    forget(on_channels, channel, place);
    forget_happened(happened, channel.is_some(), place);
}
