//! The events that were submitted and that no turn has taken yet.

ghost use Rattle.std.specs.Prelude.{◌≡◌, ◌<◌, ◌++◌, [], ◌∷◌, IfNone, OnOk};
ghost use Rattle.std.specs.List.{list_any};
ghost use Rattle.sshc_handle_tickets.specs.Tickets.{first_of, without_first};
ghost use Rattle.sshc_handle_state.specs.HandleAt.{SubmittedAt};
ghost use Rattle.sshc_handle_state.specs.Picking.{Pops, is_reply};

use sshc_auth::Event;
use sshc_wire::NoMemory;
use std::alloc::Global;
use std::collections::VecDeque;
use std::marker::Model;

/// The events that no turn has taken yet, the oldest first. They are looked through for a reply to a channel that the
/// server opens only while there may be one among them.
#[derive(Drop)]
pub(crate) struct Submitted {
    events: VecDeque<Event>,
    may_reply: bool,
}

impl Model for Submitted {
    ghost use Rattle.std.specs.Prelude.{◌≡◌, ◌-◌, true};
    ghost use Rattle.std.specs.List.{list_any};
    ghost use Rattle.std.specs.VecDeque.{deque_capacity, deque_len};
    ghost use Rattle.sshc_handle_state.specs.HandleAt.{SubmittedAt};
    ghost use Rattle.sshc_handle_state.specs.HandleCode.{submitted_code};
    ghost use Rattle.sshc_handle_state.specs.Picking.{is_reply};

    ghost Value = { SubmittedAt };

    ghost coded = { submitted_code };

    ghost view = { λ s. record { items = s.events.items; room = deque_capacity s.events - deque_len s.events } };

    ghost invariant = { λ s. list_any is_reply s.events.items ≡ true → s.may_reply ≡ true };
}

/// Whether the event answers a channel that the server opens.
fn is_reply(event: &Event) -> bool
    ensures { result ≡ is_reply event.now }
{
    matches!(event, Event::ServerChannelOpenReply { .. })
}

/// Takes the first reply to a channel that the server opens, where there is one.
#[tactic(auto, using(crate::proofs::Hints::first_reply))]
fn first_reply(events: &mut VecDeque<Event>) -> Option<Event>
    ensures taken { result ≡ first_of is_reply events.old.items }
    ensures rest { events.new.items ≡ without_first is_reply events.old.items }
    ensures none { IfNone result (events.new.items ≡ events.old.items) }
{
    for at in 0..events.len() {
        if is_reply(&events[at]) {
            return events.remove(at);
        }
    }
    None
}

impl Submitted {
    /// Nothing was submitted.
    pub(crate) fn new(alloc: Global) -> Submitted
        ensures { result.items ≡ [] }
    {
        Submitted {
            events: VecDeque::new(alloc),
            may_reply: false,
        }
    }

    /// Makes room for an event.
    pub(crate) fn make_room(&mut self) -> Result<(), NoMemory>
        ensures same { self.new.items ≡ self.old.items }
        ensures room { OnOk result (0 < self.new.room) }
    {
        self.events.reserve(1)?;
        Ok(())
    }

    /// Adds an event for which there is room.
    pub(crate) fn push_reserved(&mut self, event: Event)
        requires { 0 < self.old.room }
        ensures { self.new.items ≡ self.old.items ++ event ∷ [] }
    {
        self.may_reply = self.may_reply || is_reply(&event);
        self.events.push_back_reserved(event);
    }

    /// Takes the oldest event.
    pub(crate) fn pop(&mut self) -> Option<Event>
        ensures { Pops self.old.items self.new.items result }
    {
        self.events.pop_front()
    }

    /// Takes the oldest reply to a channel that the server opens, if there is one.
    pub(crate) fn take_reply(&mut self) -> Option<Event>
        ensures taken { result ≡ first_of is_reply self.old.items }
        ensures rest { self.new.items ≡ without_first is_reply self.old.items }
        ensures none { IfNone result (self.new.items ≡ self.old.items) }
    {
        if !self.may_reply {
            return None;
        }
        let reply = first_reply(&mut self.events);
        self.may_reply = reply.is_some();
        reply
    }
}
