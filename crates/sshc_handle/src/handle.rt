//! The handle of a session.

ghost use Rattle.std.specs.Prelude.{◌≡◌, Err, IfErr, IfSome, OnErr, true};
ghost use Rattle.sshc_handle_tickets.specs.Tickets.{is_of};
ghost use Rattle.sshc_handle_state.specs.Submission.{asks_answer};
ghost use Rattle.sshc_handle.specs.Answering.{IsEndError};
ghost use Rattle.sshc_handle_calls.specs.Lines.{Given, IsDeclined};

use crate::shared::Shared;
use sshc_auth::{Ended, Error};
use sshc_client::{Handler, Msg};
use sshc_key::AgentSessionBinding;
use sshc_wire::{ChannelId, Record, Ticket};
use std::alloc::Global;
use std::sync::{Arc, Wait};
use std::time::{Clock, Duration};

/// A session that a runner takes turns with. Threads share it by reference; each call submits its message, and waits
/// only for its own answer.
#[derive(Drop)]
pub struct Handle<H: Handler> {
    pub(crate) shared: Arc<Shared<H>, Global>,
}

impl<H: Handler> Handle<H> {
    /// Submits a message, and returns the ticket of its answer, if it asks for one. `SendError` if the session has
    /// ended.
    pub fn submit<R: Wait>(&self, rt: &R, msg: Msg) -> Result<Option<Ticket>, Error>
        ensures { Given (asks_answer msg) result }
    {
        self.shared.submit(rt, msg)
    }

    /// Takes the oldest record that is held for this ticket, if there is one now.
    #[tactic(auto, using(crate::proofs::AnsweringLemmas::first_passes))]
    pub fn poll_ticket<R: Wait>(&self, rt: &R, ticket: Ticket) -> Option<Record>
        ensures { IfSome result (λ output. is_of ticket.0 output ≡ true) }
    {
        self.shared.lock(rt).poll(ticket)
    }

    /// Submits that no user is left.
    #[tactic(auto, using(crate::proofs::AnsweringLemmas::event_declined))]
    pub fn gone<R: Wait>(self, rt: &R) -> Result<(), Error>
        ensures { IfErr result IsDeclined }
    {
        let submitted = self.shared.lock(rt).gone();
        self.shared.wake_runner();
        submitted
    }

    /// Waits until the session has ended, and returns how. `Disconnect` if it was refused.
    #[tactic(auto, using(crate::proofs::AnsweringLemmas::told_end))]
    pub fn wait_closed<R: Wait>(&self, rt: &R) -> Result<Ended, Error>
        ensures { IfErr result IsEndError }
    {
        let mut state = self.shared.lock(rt);
        for _ in rt.forever() {
            if let Some(ended) = state.ended()? {
                return Ok(ended);
            }
            state = self.shared.wait_for_end(rt, state);
        }
        unreachable!()
    }

    /// Whether the runner has come to its end.
    pub fn is_closed(&self) -> bool {
        self.shared.is_closed()
    }

    /// Waits until something is held of what happened on some channel, and returns the channel of what happened first;
    /// `poll` of that channel takes it. `None` if the session has ended and nothing more is held. So one thread serves
    /// many channels, and takes what is held of those that nobody else asks for.
    pub fn wait_any<R: Wait>(&self, rt: &R) -> Option<ChannelId> {
        let mut state = self.shared.look_for_some(rt);
        for _ in rt.forever() {
            let first = state.first_channel();
            if first.is_some() || state.is_over() {
                return first;
            }
            state = self.shared.wait_for_some(rt, state);
        }
        unreachable!()
    }

    /// The same, and `None` too if nothing is held after this time.
    pub fn wait_any_for<R: Wait + Clock>(&self, rt: &R, limit: Duration) -> Option<ChannelId> {
        let state = self.shared.look_for_some(rt);
        self.shared
            .wait_for_some_within(rt, state, limit)
            .first_channel()
    }

    /// Whether bytes of ours wait on the channel for the peer's window, or for the end of a key exchange.
    pub fn has_pending_data<R: Wait>(&self, rt: &R, id: ChannelId) -> bool {
        self.shared.lock(rt).has_pending_data(id)
    }

    /// How many bytes the peer's window allows on the channel; 0 if there is no such channel, or if an open of ours
    /// waits there.
    pub fn sender_window_size<R: Wait>(&self, rt: &R, id: ChannelId) -> usize {
        self.shared.lock(rt).sender_window_size(id)
    }

    /// The first exchange's host key, session id and signature; `None` before it is done.
    pub fn agent_session_binding<R: Wait>(
        &self,
        rt: &R,
    ) -> Result<Option<AgentSessionBinding>, Error>
        ensures { OnErr result (result ≡ Err Error.NoMemory) }
    {
        Ok(self.shared.lock(rt).agent_session_binding()?)
    }
}
