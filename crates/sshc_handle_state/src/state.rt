//! What the threads of a handle share.

ghost use Rattle.std.specs.Prelude.{◌≡◌, ◌<◌, ◌++◌, Some, IfOk, OnErr, OnOk, is_some, length, take};
ghost use Rattle.std.specs.List.{list_any};
ghost use Rattle.sshc_wire.specs.Outgoing.{listed};
ghost use Rattle.sshc_mux.specs.ChannelState.{channel_of};
ghost use Rattle.sshc_mux.specs.ChannelTable.{waits_in, window_in};
ghost use Rattle.sshc_auth.specs.OpeningState.{is_awaiting};
ghost use Rattle.sshc_handle_tickets.specs.Tickets.{channel_in, closed_with, first_of, is_channel, is_of};
ghost use Rattle.sshc_handle_tickets.specs.Tickets.{is_on, is_on_some, is_ticket, without_first};
ghost use Rattle.sshc_handle_state.specs.Asked.{Admits, PromptsAt, Responds, TellsEnd, kept_prompts};
ghost use Rattle.sshc_handle_state.specs.Clocks.{due_in};
ghost use Rattle.sshc_handle_state.specs.HandleAt.{new_handle};
ghost use Rattle.sshc_handle_state.specs.Submitting.{Submits, SubmitsEvent};

use crate::end::End;
use crate::ending::ended_copied;
use crate::submission::{asks_answer, event_of};
use crate::submitted::Submitted;
use crate::timers::Timers;
use sshc_auth::{Ended, Error, Event, Method, SharedMethod};
use sshc_client::{Config, Msg, Session};
use sshc_handle_tickets::Tickets;
use sshc_key::AgentSessionBinding;
use sshc_wire::{ChannelId, List, NoMemory, Octets, Record, Text, Ticket};
use std::collections::btree_map::Values;
use std::marker::{Model, PhantomData};

/// A session with the events that are submitted to it, the records that are held for those who wait, and its timers.
/// None of its calls waits for anything.
#[derive(Drop)]
pub struct HandleState<H> {
    pub(crate) session: Session,
    pub(crate) submitted: Submitted,
    pub(crate) tickets: Tickets,
    pub(crate) prompts: Option<Ticket>,
    pub(crate) binding: Option<AgentSessionBinding>,
    pub(crate) timers: Timers,
    pub(crate) failed: bool,
    pub(crate) end: Option<End>,
    pub(crate) of: PhantomData<H>,
}

impl<H> Model for HandleState<H> {
    ghost use Rattle.sshc_handle_state.specs.HandleAt.{HandleAt};
    ghost use Rattle.sshc_handle_state.specs.HandleCode.{handle_code};

    ghost Value = { HandleAt };

    ghost coded = { handle_code };

    ghost view = { λ s. record {
      session = s.session;
      submitted = s.submitted.items;
      tickets = s.tickets;
      prompts = s.prompts;
      binding = s.binding;
      timers = s.timers;
      failed = s.failed;
      end = s.end;
    } };
}

/// Makes room for an event, and opens a ticket if an answer is asked for.
fn admitted(
    end: &Option<End>,
    submitted: &mut Submitted,
    tickets: &mut Tickets,
    asks: bool,
) -> Result<Option<Ticket>, Error>
    ensures admits { Admits end.now asks tickets.old tickets.new result }
    ensures same { submitted.new.items ≡ submitted.old.items }
    ensures room { OnOk result (0 < submitted.new.room) }
{
    if end.is_some() {
        return Err(Error::SendError);
    }
    submitted.make_room()?;
    if asks {
        Ok(Some(tickets.open_ticket()?))
    } else {
        Ok(None)
    }
}

/// Adds an event for which there is room, if there is an event.
fn add(submitted: &mut Submitted, event: Option<Event>)
    requires { 0 < submitted.old.room }
    ensures { submitted.new.items ≡ submitted.old.items ++ listed event }
{
    if let Some(event) = event {
        submitted.push_reserved(event);
    }
}

impl<H> HandleState<H> {
    /// A new session, to which nothing was submitted yet, over a transport whose peer's version line is this.
    pub fn new(config: Config, remote_sshid: Octets) -> Result<HandleState<H>, NoMemory>
        ensures { IfOk result (λ s. s ≡ new_handle config remote_sshid) }
    {
        let alloc = remote_sshid.allocator();
        let timers = Timers {
            inactivity_timeout: config.inactivity_timeout,
            keepalive_interval: config.keepalive_interval,
            heard: None,
            beat: 0,
        };
        let session = Session::new(config, remote_sshid)?;
        Ok(HandleState {
            session,
            submitted: Submitted::new(alloc),
            tickets: Tickets::new(alloc),
            prompts: None,
            binding: None,
            timers,
            failed: false,
            end: None,
            of: PhantomData,
        })
    }

    /// Submits that no user is left.
    pub fn gone(&mut self) -> Result<(), Error>
        ensures { SubmitsEvent Event.Gone self.old self.new result }
    {
        let _ticket = admitted(&self.end, &mut self.submitted, &mut self.tickets, false)?;
        self.submitted.push_reserved(Event::Gone);
        Ok(())
    }

    /// Submits a message. If it asks for an answer, its ticket is one that is neither open nor named by a held record;
    /// if no number is free, it returns `NoMemory`. A message that only reports what happened on a channel submits
    /// nothing.
    pub fn submit(&mut self, msg: Msg) -> Result<Option<Ticket>, Error>
        ensures { Submits msg self.old self.new result }
    {
        let asks = asks_answer(&msg);
        match admitted(&self.end, &mut self.submitted, &mut self.tickets, asks) {
            Ok(ticket) => {
                let event = event_of(ticket.unwrap_or(Ticket(0)), msg);
                add(&mut self.submitted, event);
                Ok(ticket)
            }
            Err(e) => {
                drop(msg);
                Err(e)
            }
        }
    }

    /// Submits a login with prompts (RFC 4256), whose ticket is the one that responses are for.
    pub fn start_prompts(&mut self, user: Text, submethods: Text) -> Result<Option<Ticket>, Error>
        ensures { PromptsAt user submethods self.old self.new result }
    {
        if self.end.is_some() {
            return Err(Error::SendError);
        }
        let alloc = user.allocator();
        let Ok(method) = SharedMethod::new(alloc, Method::KeyboardInteractive { submethods }) else {
            return Err(Error::NoMemory);
        };
        let begun = self.submit(Msg::Authenticate {
            user,
            method,
            ticket: Some(Ticket(0)),
        });
        self.keep_prompts(&begun);
        begun
    }

    /// Keeps the ticket of a login with prompts that was begun.
    fn keep_prompts(&mut self, begun: &Result<Option<Ticket>, Error>)
        ensures { self.new ≡ kept_prompts begun.now self.old }
    {
        if let Ok(Some(ticket)) = begun {
            self.prompts = Some(*ticket);
        }
    }

    /// Submits responses to prompts (RFC 4256, section 3.4), for the login with prompts that was begun last, while its
    /// ticket is open.
    pub fn respond(&mut self, responses: List<Text>) -> Result<Ticket, Error>
        ensures { Responds responses self.old self.new result }
    {
        let due = match self.prompts {
            Some(ticket) if self.tickets.is_due(ticket.0) => ticket,
            _ => {
                return Err(if self.end.is_some() {
                    Error::SendError
                } else {
                    Error::RecvError
                });
            }
        };
        let _none = admitted(&self.end, &mut self.submitted, &mut self.tickets, false)?;
        self.submitted
            .push_reserved(Event::AuthInfoResponse { responses });
        Ok(due)
    }

    /// The records that nobody has taken yet, the oldest first, but for those of tickets that were dropped at the end.
    pub fn held(&self) -> Values<'_, u64, Record>
        ensures { take (length result) self.now.tickets.held ≡ result }
    {
        self.tickets.held()
    }

    /// How many milliseconds after a moment the next timer runs out; 0 if one has run out, `None` if none is set.
    pub fn due_in(&self, now: u64) -> Option<u64>
        ensures { result ≡ due_in now self.now.timers }
    {
        self.timers.due_in(now)
    }

    /// Takes the oldest record that is held for this ticket.
    pub fn poll(&mut self, ticket: Ticket) -> Option<Record>
        ensures taken { result ≡ first_of (is_of ticket.0) self.old.tickets.held }
        ensures rest { self.new ≡ record self.old {
          tickets = record (self.old.tickets)
              { held = without_first (is_of ticket.0) self.old.tickets.held };
        } }
    {
        self.tickets.poll(ticket)
    }

    /// Takes the oldest record that is held of what happened on this channel. With its close the channel is marked
    /// closed, until one of its number opens again.
    pub fn poll_channel(&mut self, id: ChannelId) -> Option<Record>
        ensures taken { result ≡ first_of (is_on id.0) self.old.tickets.held }
        ensures rest { self.new ≡ record self.old {
          tickets = record (self.old.tickets) {
            held = without_first (is_on id.0) self.old.tickets.held;
            closed = closed_with result self.old.tickets.closed;
          };
        } }
    {
        self.tickets.poll_channel(id)
    }

    /// Whether a record is held of what happened on this channel.
    pub fn holds_of(&self, id: ChannelId) -> bool
        ensures { result ≡ list_any (is_on id.0) self.now.tickets.held }
    {
        self.tickets.holds_of(id)
    }

    /// The channel of the oldest record that is held of what happened on a channel; `None` if none is held.
    pub fn first_channel(&self) -> Option<ChannelId>
        ensures { result ≡ channel_in (first_of is_on_some self.now.tickets.held) }
    {
        self.tickets.first_channel()
    }

    /// Whether the close of this channel was taken.
    pub fn is_channel_closed(&self, id: ChannelId) -> bool
        ensures { result ≡ list_any (is_channel id.0) self.now.tickets.closed }
    {
        self.tickets.is_closed(id)
    }

    /// Whether bytes of ours wait on the channel.
    pub fn has_pending_data(&self, id: ChannelId) -> bool
        ensures { result ≡ waits_in (channel_of id.0 self.now.session.table.channels) }
    {
        self.session.has_pending_data(id)
    }

    /// How many bytes the peer's window allows; 0 if there is no such channel, or if an open of ours waits there.
    pub fn sender_window_size(&self, id: ChannelId) -> usize
        ensures { result ≡ window_in (channel_of id.0 self.now.session.table.channels) }
    {
        self.session.sender_window_size(id)
    }

    /// Whether an answer of the user is awaited, so that only submitted events are taken.
    pub fn awaits_answer(&self) -> bool
        ensures { result ≡ is_awaiting self.now.session.opening.phase }
    {
        self.session.awaits_answer()
    }

    /// Whether the session has ended.
    pub fn is_over(&self) -> bool
        ensures { result ≡ is_some self.now.end }
    {
        self.end.is_some()
    }

    /// How the session has ended, if it has; `Disconnect` if it was refused.
    pub fn ended(&self) -> Result<Option<Ended>, Error>
        ensures { TellsEnd self.now.end result }
    {
        match &self.end {
            None => Ok(None),
            Some(End::Ended(ended)) => Ok(Some(ended_copied(ended)?)),
            Some(End::Refused) => Err(Error::Disconnect),
        }
    }

    /// The first exchange's host key, session id and signature, once it is done.
    pub fn agent_session_binding(&self) -> Result<Option<AgentSessionBinding>, NoMemory>
        ensures { IfOk result (λ b. b ≡ self.now.binding) }
    {
        match &self.binding {
            Some(binding) => Ok(Some(binding.copy()?)),
            None => Ok(None),
        }
    }

    /// The peer's version line (RFC 4253, section 4.2).
    pub fn remote_sshid(&self) -> &[u8]
        ensures { result.now ≡ self.now.session.settings.remote_sshid }
    {
        self.session.remote_sshid()
    }
}
