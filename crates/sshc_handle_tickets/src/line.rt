//! Things in the order in which they came.

ghost use Rattle.std.specs.Prelude.{◌≡◌, ◌+◌, ◌<◌, ◌≤◌, ◌^◌, ◌++◌, [], ◌∷◌, length, IfSome, OnErr, OnOk};
ghost use Rattle.std.specs.List.{list_any};
ghost use Rattle.sshc_handle_tickets.specs.Lines.{first_of, has_number, has_some, number_in, without_first};

use crate::indexed::Indexed;
use sshc_wire::NoMemory;
use std::alloc::Global;
use std::collections::btree_map::Values;
use std::marker::Model;

/// Something that may have the number of a ticket, or that of a channel on which it happened.
pub trait Numbered {
    ghost use Rattle.std.specs.Prelude.{◌≡◌, ℕ, Option};

    ghost ticket: { Self → Option ℕ };

    ghost channel: { Self → Option ℕ };

    /// The number of its ticket.
    fn ticket(&self) -> Option<u32>
        ensures { result ≡ ticket self.now };

    /// The number of its channel.
    fn channel(&self) -> Option<u32>
        ensures { result ≡ channel self.now };
}

/// Things in the order in which they came, which contracts see as a list. What has a number is found by it: no call
/// looks through the others.
#[derive(Drop)]
pub struct Line<X: Numbered + Drop> {
    indexed: Indexed<X>,
    /// The place of the thing that comes next.
    next: u64,
}

impl<X: Numbered + Drop> Model for Line<X> {
    ghost use Rattle.std.specs.Prelude.{◌<◌, List};
    ghost use Rattle.std.specs.List.{AllByRecursion};
    ghost use Rattle.std.specs.Map.{keys_of, values_of};

    ghost Value = { List X };

    ghost view = { λ l. values_of l.indexed };

    ghost invariant = { λ l. AllByRecursion (λ place. place < l.next) (keys_of l.indexed) };
}

impl<X: Numbered + Drop> Line<X> {
    /// Nothing has come.
    pub fn new(alloc: Global) -> Line<X>
        ensures { result ≡ [] }
    {
        Line {
            indexed: Indexed::new(alloc),
            next: 0,
        }
    }

    /// How many there are.
    pub fn len(&self) -> usize
        ensures len { result ≡ length self.now }
        ensures small { result < 2 ^ 63 }
    {
        self.indexed.len()
    }

    /// All of them, the oldest first.
    pub fn iter(&self) -> Values<'_, u64, X>
        ensures { result ≡ self.now }
    {
        self.indexed.values()
    }

    /// Adds one behind the others. `NoMemory` too once 2^64 - 1 have come.
    #[tactic(auto, using(crate::proofs::LineLemmas::free_behind, crate::proofs::LineLemmas::put_behind))]
    pub fn push(&mut self, one: X) -> Result<(), NoMemory>
        ensures ok { OnOk result (self.new ≡ self.old ++ one ∷ []) }
        ensures err { OnErr result (self.new ≡ self.old) }
    {
        let place = self.next;
        if place == u64::MAX {
            drop(one);
            return Err(NoMemory);
        }
        self.indexed.put(place, one)?;
        self.next = place + 1;
        Ok(())
    }

    /// Takes the first with this ticket's number.
    pub fn take_of_ticket(&mut self, number: u32) -> Option<X>
        ensures taken { result ≡ first_of (has_number X.ticket number) self.old }
        ensures rest { self.new ≡ without_first (has_number X.ticket number) self.old }
        ensures fewer { length self.new ≤ length self.old }
        ensures one { IfSome result (λ x. length self.new + 1 ≡ length self.old) }
    {
        match self.indexed.first_of_ticket(number) {
            Some(place) => self.indexed.take(place),
            None => None,
        }
    }

    /// Takes the first with this channel's number.
    pub fn take_on_channel(&mut self, number: u32) -> Option<X>
        ensures taken { result ≡ first_of (has_number X.channel number) self.old }
        ensures rest { self.new ≡ without_first (has_number X.channel number) self.old }
        ensures fewer { length self.new ≤ length self.old }
        ensures one { IfSome result (λ x. length self.new + 1 ≡ length self.old) }
    {
        match self.indexed.first_on_channel(number) {
            Some(place) => self.indexed.take(place),
            None => None,
        }
    }

    /// Whether there is one with this ticket's number.
    pub fn has_ticket(&self, number: u32) -> bool
        ensures { result ≡ list_any (has_number X.ticket number) self.now }
    {
        self.indexed.first_of_ticket(number).is_some()
    }

    /// Whether there is one with this channel's number.
    pub fn has_channel(&self, number: u32) -> bool
        ensures { result ≡ list_any (has_number X.channel number) self.now }
    {
        self.indexed.first_on_channel(number).is_some()
    }

    /// The number of the first that has a channel's number.
    pub fn first_channel(&self) -> Option<u32>
        ensures { result ≡ number_in X.channel (first_of (has_some X.channel) self.now) }
    {
        match self.indexed.first_happened() {
            Some(place) => self.indexed.channel_at(place),
            None => None,
        }
    }
}
