//! One channel of a handle, and what happens there. Its requests are the calls of `ChannelCalls`.

ghost use Rattle.std.specs.Prelude.{◌≡◌, IfSome};
ghost use Rattle.sshc_handle.specs.Answering.{IsReported};

use crate::shared::Shared;
use sshc_auth::ChannelMsg;
use sshc_client::Handler;
use sshc_handle_messages::channel_msg;
use sshc_handle_state::HandleState;
use sshc_wire::{ChannelId, Record};
use std::alloc::Global;
use std::marker::Model;
use std::sync::{Arc, Wait};
use std::time::{Clock, Duration};

/// A channel (RFC 4254, section 5), which contracts see as its number. Requests and bytes are submitted, without
/// waiting for an answer; what happens on the channel is returned in order.
#[derive(Drop)]
pub struct Channel<H: Handler> {
    pub(crate) shared: Arc<Shared<H>, Global>,
    pub(crate) id: ChannelId,
}

impl<H: Handler> Model for Channel<H> {
    ghost use Rattle.sshc_wire.specs.declared.channel_id.ChannelId.{ChannelId as Number};

    ghost Value = { Number };

    ghost view = { λ c. c.id };
}

impl<H: Handler> Channel<H> {
    /// Our number of the channel.
    pub fn id(&self) -> ChannelId
        ensures { result ≡ self.now }
    {
        self.id
    }

    /// Waits for what happens next on the channel, and returns it. `None` once its close was returned, and if the
    /// session has ended and nothing more is held.
    pub fn wait<R: Wait>(&mut self, rt: &R) -> Option<ChannelMsg>
        ensures reported { IfSome result (λ msg. IsReported self.old msg) }
        ensures same { self.new ≡ self.old }
    {
        let mut state = self.shared.look_on(rt, self.id);
        for _ in rt.forever() {
            if let Some(msg) = self.take(&mut state) {
                return Some(msg);
            }
            if state.is_channel_closed(self.id) || state.is_over() {
                return None;
            }
            state = self.shared.wait_on(rt, state, self.id);
        }
        unreachable!()
    }

    /// What happened next on the channel, if something is held now. It waits for nobody beyond the lock.
    pub fn poll<R: Wait>(&mut self, rt: &R) -> Option<ChannelMsg>
        ensures reported { IfSome result (λ msg. IsReported self.old msg) }
        ensures same { self.new ≡ self.old }
    {
        let mut state = self.shared.lock(rt);
        self.take(&mut state)
    }

    /// Waits for what happens next on the channel, and returns it. `None` where `wait` returns it, and if nothing is
    /// held after this time; `is_at_end` tells the two apart.
    pub fn wait_for<R: Wait + Clock>(&mut self, rt: &R, limit: Duration) -> Option<ChannelMsg>
        ensures reported { IfSome result (λ msg. IsReported self.old msg) }
        ensures same { self.new ≡ self.old }
    {
        let state = self.shared.look_on(rt, self.id);
        let mut state = self.shared.wait_for(rt, state, self.id, limit);
        self.take(&mut state)
    }

    /// Takes what happened next, if something is held. With its close it wakes the others that wait for the channel.
    fn take(&self, state: &mut HandleState<H>) -> Option<ChannelMsg>
        ensures { IfSome result (λ msg. IsReported self.now msg) }
    {
        match state.poll_channel(self.id) {
            Some(Record::Channel { happened, .. }) => {
                if state.is_channel_closed(self.id) {
                    self.shared.wake_channel(self.id);
                }
                Some(channel_msg(self.id, happened))
            }
            other => {
                drop(other);
                None
            }
        }
    }

    /// Whether nothing more can happen on the channel: its close was returned, or the session has ended and nothing is
    /// held any more where `poll` returns `None`.
    pub fn is_at_end<R: Wait>(&self, rt: &R) -> bool {
        let state = self.shared.lock(rt);
        state.is_channel_closed(self.id) || state.is_over()
    }
}
