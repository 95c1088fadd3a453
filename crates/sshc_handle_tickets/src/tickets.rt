//! The tickets that are open, and the records that are held until someone asks for them.

ghost use Rattle.std.specs.Prelude.{◌≡◌, ◌+◌, ◌≤◌, ◌++◌, [], ◌∷◌, ℕ, Some, false, true, length, map, filter, not, take};
ghost use Rattle.std.specs.Prelude.{IfOk, IfSome, OnErr, OnOk};
ghost use Rattle.std.specs.List.{list_any};
ghost use Rattle.std.specs.Vec.{vec_capacity, vec_len};
ghost use Rattle.sshc_wire.specs.declared.channel_id.ChannelId.{ChannelId};
ghost use Rattle.sshc_handle_tickets.specs.Marks.{AreMarked, closed_by, has_room, is_close};
ghost use Rattle.sshc_handle_tickets.specs.Tickets.{answered, channel_in, closed_behind, closed_with, dropped};
ghost use Rattle.sshc_handle_tickets.specs.Tickets.{due_behind, first_of, free_within, is_channel, is_of, is_on};
ghost use Rattle.sshc_handle_tickets.specs.Tickets.{is_on_some, is_taken, is_ticket, number_after, opened_by};
ghost use Rattle.sshc_handle_tickets.specs.Tickets.{without_first};

use crate::line::Line;
use crate::marks::Marks;
use sshc_wire::{ChannelId, ChannelRecord, NoMemory, Record, Resolution, Ticket};
use std::alloc::Global;
use std::collections::btree_map::Values;
use std::marker::Model;

/// The tickets whose answer is due, and the records that nobody has taken yet, the oldest first. Once the session is
/// over the tickets that were open stand for their answers, that they were dropped. What is held and what is closed is
/// found by its number.
#[derive(Drop)]
pub struct Tickets {
    due: Line<Ticket>,
    held: Line<Record>,
    closed: Vec<ChannelId>,
    /// The numbers of the closed channels.
    marks: Marks,
    last: u32,
    is_over: bool,
}

impl Model for Tickets {
    ghost use Rattle.std.specs.Vec.{vec_capacity};
    ghost use Rattle.sshc_handle_tickets.specs.Marks.{IsKept};
    ghost use Rattle.sshc_handle_tickets.specs.Tickets.{TicketState, held_at, left_due};

    ghost Value = { TicketState };

    ghost view = { λ t. record {
      due = left_due t.is_over t.due;
      held = held_at t.is_over t.held t.due;
      closed = t.closed.items;
      last = t.last;
    } };

    ghost invariant = { λ t. IsKept t.held t.closed.items (vec_capacity t.closed) t.marks };
}

/// The number of the channel that a record opens.
fn opened_by(output: &Record) -> Option<u32>
    ensures { result ≡ opened_by output.now }
{
    match output {
        Record::Channel {
            id,
            happened: ChannelRecord::Open { .. },
        } => Some(id.0),
        Record::ServerOpened { id, .. } => Some(id.0),
        _ => None,
    }
}

/// The number of the channel that a record closes.
fn closed_by(output: &Record) -> Option<u32>
    ensures { result ≡ closed_by output.now }
{
    match output {
        Record::Channel {
            id,
            happened: ChannelRecord::Close,
        } => Some(id.0),
        _ => None,
    }
}

/// The number of the ticket that a record answers.
fn answered(output: &Record) -> Option<u32>
    ensures { result ≡ answered output.now }
{
    match output {
        Record::Resolved { ticket, .. } => Some(ticket.0),
        _ => None,
    }
}

/// The number after this one; 1 after the last.
fn number_after(number: u32) -> u32
    ensures { result ≡ number_after number }
{
    if number == u32::MAX { 1 } else { number + 1 }
}

impl Tickets {
    /// No ticket is open, and nothing is held.
    pub fn new(alloc: Global) -> Tickets
        ensures { result ≡ record { due = []; held = []; closed = []; last = 0 } }
    {
        Tickets {
            due: Line::new(alloc),
            held: Line::new(alloc),
            closed: Vec::new(alloc),
            marks: Marks::new(alloc),
            last: 0,
            is_over: false,
        }
    }

    /// Whether a ticket of this number is open.
    pub fn is_due(&self, number: u32) -> bool
        ensures { result ≡ list_any (is_ticket number) self.now.due }
    {
        !self.is_over && self.due.has_ticket(number)
    }

    /// Whether a record is held that names a ticket of this number.
    #[tactic(auto, using(crate::proofs::Over::named_over))]
    fn is_named(&self, number: u32) -> bool
        ensures { result ≡ list_any (is_of number) self.now.held }
    {
        self.held.has_ticket(number) || self.is_over && self.due.has_ticket(number)
    }

    fn is_taken(&self, number: u32) -> bool
        ensures { result ≡ is_taken self.now number }
    {
        self.is_due(number) || self.is_named(number)
    }

    #[tactic(auto, using(crate::proofs::Hints::free))]
    /// The first number after the last one opened that isn't taken.
    fn free(&self) -> Option<u32>
        ensures { result ≡ free_within (length self.now.due + length self.now.held + 1) self.now self.now.last }
    {
        let mut number = self.last;
        for _ in 0..self.due.len() + self.held.len() + 1 {
            number = number_after(number);
            if !self.is_taken(number) {
                return Some(number);
            }
        }
        None
    }

    /// Opens a ticket, with the room for its answer. Its number is the first after the last one opened that is neither
    /// open nor named by a held record; if no number is free, it returns `NoMemory`, and so it does behind `drop_open`.
    pub fn open_ticket(&mut self) -> Result<Ticket, NoMemory>
        ensures number { IfOk result
            (λ ticket. free_within (length self.old.due + length self.old.held + 1) self.old self.old.last
            ≡ Some ticket.0) }
        ensures opened { IfOk result
            (λ ticket. self.new ≡ record self.old { due = self.old.due ++ ticket ∷ []; last = ticket.0 }) }
        ensures err { OnErr result (self.new ≡ self.old) }
    {
        if self.is_over {
            return Err(NoMemory);
        }
        let Some(number) = self.free() else {
            return Err(NoMemory);
        };
        self.due.push(Ticket(number))?;
        self.last = number;
        Ok(Ticket(number))
    }
}

/// Takes the answer of a ticket that was dropped.
#[tactic(auto, using(crate::proofs::Hints::take_dropped))]
fn take_dropped(dropped_tickets: &mut Line<Ticket>, number: u32) -> Option<Record>
    ensures taken { result ≡ first_of (is_of number) (map dropped dropped_tickets.old) }
    ensures rest { map dropped dropped_tickets.new ≡ without_first (is_of number) (map dropped dropped_tickets.old) }
{
    match dropped_tickets.take_of_ticket(number) {
        Some(ticket) => Some(Record::Resolved {
            ticket,
            resolution: Resolution::Dropped,
        }),
        None => None,
    }
}

/// Takes the first record that names a ticket, or else the answer of one that was dropped.
#[tactic(auto, using(crate::proofs::Hints::take_behind))]
fn take_behind(
    held: &mut Line<Record>,
    dropped_tickets: &mut Line<Ticket>,
    number: u32,
) -> Option<Record>
    ensures taken { result ≡ first_of (is_of number) (held.old ++ map dropped dropped_tickets.old) }
    ensures rest { held.new ++ map dropped dropped_tickets.new
        ≡ without_first (is_of number) (held.old ++ map dropped dropped_tickets.old) }
    ensures fewer { length held.new ≤ length held.old }
    ensures closing { (n : ℕ) → list_any (is_close n) held.new ≡ true → list_any (is_close n) held.old ≡ true }
{
    match held.take_of_ticket(number) {
        Some(output) => Some(output),
        None => take_dropped(dropped_tickets, number),
    }
}

/// The channel of this number no longer counts as closed.
fn forget(closed: &mut Vec<ChannelId>, marks: &mut Marks, number: u32)
    requires marked { AreMarked marks.old closed.old.items }
    ensures rest { closed.new.items ≡ filter (λ (id : ChannelId). not (is_channel number id)) closed.old.items }
    ensures room { vec_capacity closed.new ≡ vec_capacity closed.old }
    ensures fewer { vec_len closed.new ≤ vec_len closed.old }
    ensures marked { AreMarked marks.new closed.new.items }
    ensures kept { (n : ℕ) → has_room marks.new n ≡ has_room marks.old n }
{
    if marks.has(number) {
        closed.retain(|id| id.0 != number);
        marks.clear(number);
    }
}

impl Tickets {
    /// The records that nobody has taken yet, the oldest first, but for those of tickets that were dropped.
    #[tactic(auto, using(crate::proofs::Over::front_held))]
    pub fn held(&self) -> Values<'_, u64, Record>
        ensures { take (length result) self.now.held ≡ result }
    {
        self.held.iter()
    }

    /// Takes the oldest record that is held for this ticket.
    pub fn poll(&mut self, ticket: Ticket) -> Option<Record>
        ensures taken { result ≡ first_of (is_of ticket.0) self.old.held }
        ensures rest { self.new ≡ record self.old { held = without_first (is_of ticket.0) self.old.held } }
    {
        if self.is_over {
            take_behind(&mut self.held, &mut self.due, ticket.0)
        } else {
            self.held.take_of_ticket(ticket.0)
        }
    }

    /// Takes the oldest record that is held of what happened on this channel. With its close the channel counts as
    /// closed.
    #[tactic(auto, using(crate::proofs::Over::on_first, crate::proofs::Over::on_rest))]
    pub fn poll_channel(&mut self, id: ChannelId) -> Option<Record>
        ensures taken { result ≡ first_of (is_on id.0) self.old.held }
        ensures rest { self.new
            ≡ record self.old {
              held = without_first (is_on id.0) self.old.held;
              closed = closed_with result self.old.closed;
            } }
    {
        let output = self.held.take_on_channel(id.0);
        if let Some(
            Record::Channel {
                id,
                happened: ChannelRecord::Close,
            },
        ) = &output
        {
            self.closed.push_reserved(*id);
            self.marks.mark(id.0);
        }
        output
    }

    /// Whether a record is held of what happened on this channel.
    #[tactic(auto, using(crate::proofs::Over::on_any))]
    pub fn holds_of(&self, id: ChannelId) -> bool
        ensures { result ≡ list_any (is_on id.0) self.now.held }
    {
        self.held.has_channel(id.0)
    }

    #[tactic(auto, using(crate::proofs::Over::channel_some, crate::proofs::Over::channel_none))]
    /// The channel of the oldest record that is held of what happened on a channel; `None` if none is held.
    pub fn first_channel(&self) -> Option<ChannelId>
        ensures { result ≡ channel_in (first_of is_on_some self.now.held) }
    {
        Some(ChannelId(self.held.first_channel()?))
    }

    /// Whether the close of this channel was taken.
    pub fn is_closed(&self, id: ChannelId) -> bool
        ensures { result ≡ list_any (is_channel id.0) self.now.closed }
    {
        self.marks.has(id.0)
    }

    /// A channel that a record opens no longer counts as closed.
    pub fn reopen(&mut self, output: &Record)
        ensures { self.new ≡ record self.old { closed = closed_behind (opened_by output.now) self.old.closed } }
    {
        if let Some(number) = opened_by(output) {
            forget(&mut self.closed, &mut self.marks, number);
        }
    }

    /// Holds a record; an answer settles its ticket. Behind `drop_open` it returns `NoMemory`.
    #[tactic(auto, using(crate::proofs::Over::settled, crate::proofs::Over::unsettled))]
    pub fn hold(&mut self, output: Record) -> Result<(), NoMemory>
        ensures ok { OnOk result
            (self.new ≡ record self.old {
              due = due_behind output self.old.due;
              held = self.old.held ++ output ∷ [];
              closed = closed_behind (opened_by output) self.old.closed;
            }) }
        ensures err { OnErr result (self.new ≡ self.old) }
    {
        if self.is_over {
            drop(output);
            return Err(NoMemory);
        }
        if let Err(refused) = self.closed.reserve(self.held.len() + 1) {
            drop(output);
            return Err(refused.into());
        }
        if let Some(number) = closed_by(&output) {
            if let Err(refused) = self.marks.make_room(number) {
                drop(output);
                return Err(refused);
            }
        }
        let opened = opened_by(&output);
        let answered = answered(&output);
        self.held.push(output)?;
        if let Some(number) = opened {
            forget(&mut self.closed, &mut self.marks, number);
        }
        if let Some(number) = answered {
            let _ticket = self.due.take_of_ticket(number);
        }
        Ok(())
    }

    /// Settles every open ticket as dropped, without taking memory. From then on no ticket is opened and nothing is
    /// held.
    #[tactic(auto, using(crate::proofs::Over::all_dropped))]
    pub fn drop_open(&mut self)
        ensures { self.new ≡ record self.old { due = []; held = self.old.held ++ map dropped self.old.due } }
    {
        self.is_over = true;
    }
}
