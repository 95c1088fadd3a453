//! What a handle, its channels and its runner share: the value under its lock, and the means to wait for each other.

ghost use Rattle.std.specs.Prelude.{◌≡◌, IfErr, true};
ghost use Rattle.sshc_handle_tickets.specs.Tickets.{is_of};
ghost use Rattle.sshc_handle_state.specs.Submission.{asks_answer};
ghost use Rattle.sshc_handle_calls.specs.Lines.{CannotRespond, Given};

use crate::places::{Bell, Patience, Place};
use sshc_auth::Error;
use sshc_client::Msg;
use sshc_handle_state::HandleState;
use sshc_handle_tickets::{channel_of, ticket_of};
use sshc_wire::{ChannelId, List, NoMemory, Record, Resolution, Text, Ticket};
use std::alloc::Global;
use std::hint::spin_loop;
use std::sync::atomic::{AtomicBool, Ordering};
use std::sync::{Arc, Mutex, MutexGuard, Wait};
use std::thread::yield_now;
use std::time::{Clock, Duration};

/// Over how many places the calls that wait for tickets are spread, by their numbers, and over how many those that wait
/// for channels.
const PLACES: u32 = 1024;

/// How often a thread tries to take the lock before it rests: a turn holds it for some microseconds.
const TRIES: u32 = 200;

/// The session under its lock. A thread that submits wakes the runner, and the runner wakes those that wait for a
/// record of a ticket or a channel that it holds.
#[derive(Drop)]
pub(crate) struct Shared<H> {
    pub(crate) alloc: Global,
    pub(crate) state: Mutex<HandleState<H>>,
    /// Where the runner rests. It is woken when something was submitted, or the transport has something.
    runner: Arc<Bell, Global>,
    /// Each notified when a record of a ticket of its numbers is held, and at the runner's end.
    answered: Vec<Place>,
    /// Each notified when a record of a channel of its numbers is held, and at the runner's end.
    told: Vec<Place>,
    /// Notified when a record of any channel is held, and at the runner's end.
    happened: Place,
    /// Notified at the runner's end.
    ended: Place,
    closed: AtomicBool,
    /// Of the calls that wait.
    patience: Patience,
}

impl<H> Shared<H> {
    pub(crate) fn new(alloc: Global, state: HandleState<H>) -> Result<Shared<H>, NoMemory> {
        let mut answered = Vec::new(alloc);
        let mut told = Vec::new(alloc);
        for _ in 0..PLACES {
            answered.push(Place::new())?;
            told.push(Place::new())?;
        }
        Ok(Shared {
            alloc,
            state: Mutex::new(state),
            runner: Arc::new(alloc, Bell::new())?,
            answered,
            told,
            happened: Place::new(),
            ended: Place::new(),
            closed: AtomicBool::new(false),
            patience: Patience::new(),
        })
    }

    /// The value, under the lock, for which it looks for a moment before it rests.
    pub(crate) fn lock<R: Wait>(&self, rt: &R) -> MutexGuard<'_, HandleState<H>> {
        for _ in 0..TRIES {
            if let Some(state) = self.state.try_lock() {
                return state;
            }
            spin_loop();
        }
        self.state.lock(rt)
    }

    /// Whether the runner has come to its end.
    pub(crate) fn is_closed(&self) -> bool {
        self.closed.load(Ordering::SeqCst)
    }

    /// Marks that the runner has come to its end, and wakes those that wait.
    fn close(&self) {
        self.closed.store(true, Ordering::SeqCst);
        for place in self.answered.iter() {
            place.call();
        }
        for place in self.told.iter() {
            place.call();
        }
        self.happened.call();
        self.ended.call();
    }

    /// No turn will be taken any more: a session that hasn't ended is refused. It takes the lock without the means to
    /// wait for it, which a drop doesn't have, so it tries again until nobody else holds it.
    fn leave(&self) {
        for _ in 0..u64::MAX {
            if let Some(mut state) = self.state.try_lock() {
                state.leave();
                return;
            }
            yield_now();
        }
    }

    /// Wakes the runner: something was submitted, or the transport has something.
    pub(crate) fn wake_runner(&self) {
        self.runner.ring();
    }

    /// Where the runner rests, for one who wakes it.
    pub(crate) fn runner(&self) -> Result<Arc<Bell, Global>, NoMemory> {
        Ok(Arc::try_clone(&self.runner)?)
    }

    /// Where those wait that wait for a record of the ticket of this number.
    fn place_of_ticket(&self, number: u32) -> &Place {
        match self.answered.get((number % PLACES) as usize) {
            Some(place) => place,
            None => &self.ended,
        }
    }

    /// Where those wait that wait for a record of the channel of this number.
    fn place_of_channel(&self, number: u32) -> &Place {
        match self.told.get((number % PLACES) as usize) {
            Some(place) => place,
            None => &self.ended,
        }
    }

    /// Where those wait that wait for this record; none do for one that names neither.
    fn place_of(&self, output: &Record) -> Option<&Place> {
        match ticket_of(output) {
            Some(number) => Some(self.place_of_ticket(number)),
            None => match channel_of(output) {
                Some(number) => Some(self.place_of_channel(number)),
                None => None,
            },
        }
    }

    /// Wakes those that wait for the records that were held since there were so many.
    pub(crate) fn wake_behind(&self, state: MutexGuard<'_, HandleState<H>>, before: usize) {
        let fresh = state.held().len().saturating_sub(before);
        let mut last: Option<&Place> = None;
        let mut on_channel = false;
        for output in state.held().rev().take(fresh) {
            if let Some(place) = last {
                place.call();
            }
            last = self.place_of(output);
            on_channel = on_channel || channel_of(output).is_some();
        }
        drop(state);
        if let Some(place) = last {
            place.call();
        }
        if on_channel {
            self.happened.call();
        }
    }

    /// Wakes those that wait for what happens on this channel.
    pub(crate) fn wake_channel(&self, id: ChannelId) {
        self.place_of_channel(id.0).call();
    }

    /// Waits until a record may be held for this ticket.
    fn wait<'a, R: Wait>(
        &self,
        rt: &R,
        state: MutexGuard<'a, HandleState<H>>,
        ticket: Ticket,
    ) -> MutexGuard<'a, HandleState<H>> {
        self.place_of_ticket(ticket.0).wait(rt, state)
    }

    /// Waits until something may be held of what happened on this channel.
    pub(crate) fn wait_on<'a, R: Wait>(
        &self,
        rt: &R,
        state: MutexGuard<'a, HandleState<H>>,
        id: ChannelId,
    ) -> MutexGuard<'a, HandleState<H>> {
        self.place_of_channel(id.0).wait(rt, state)
    }

    /// Waits until a record is held of what happened on this channel, the session has ended, or the limit is over.
    pub(crate) fn wait_for<'a, R: Wait + Clock>(
        &self,
        rt: &R,
        state: MutexGuard<'a, HandleState<H>>,
        id: ChannelId,
        limit: Duration,
    ) -> MutexGuard<'a, HandleState<H>> {
        let (state, _is_over) = self.place_of_channel(id.0).condition().wait_timeout_while(
            rt,
            state,
            limit,
            |state| !state.holds_of(id) && !state.is_channel_closed(id) && !state.is_over(),
        );
        state
    }

    /// Waits until a record of some channel may be held.
    pub(crate) fn wait_for_some<'a, R: Wait>(
        &self,
        rt: &R,
        state: MutexGuard<'a, HandleState<H>>,
    ) -> MutexGuard<'a, HandleState<H>> {
        self.happened.wait(rt, state)
    }

    /// Waits until a record of some channel is held, the session has ended, or the limit is over.
    pub(crate) fn wait_for_some_within<'a, R: Wait + Clock>(
        &self,
        rt: &R,
        state: MutexGuard<'a, HandleState<H>>,
        limit: Duration,
    ) -> MutexGuard<'a, HandleState<H>> {
        let (state, _is_over) = self.happened.condition().wait_timeout_while(
            rt,
            state,
            limit,
            |state| state.first_channel().is_none() && !state.is_over(),
        );
        state
    }

    /// Waits until the session may have ended.
    pub(crate) fn wait_for_end<'a, R: Wait>(
        &self,
        rt: &R,
        state: MutexGuard<'a, HandleState<H>>,
    ) -> MutexGuard<'a, HandleState<H>> {
        self.ended.wait(rt, state)
    }

    /// How often the runner was called.
    pub(crate) fn calls_of_runner(&self) -> u64 {
        self.runner.calls()
    }

    /// Looks for a moment whether the runner is called, since there were so many calls.
    pub(crate) fn look_for_runner(&self, seen: u64) {
        self.runner.look(seen);
    }

    /// Rests the runner until something is submitted or the transport wakes it, and at most until this limit. It
    /// doesn't rest if it was woken since it rested last.
    pub(crate) fn rest<R: Wait>(&self, rt: &R, limit: Option<Duration>) {
        self.runner.rest(rt, limit);
    }

    /// The locked value, as soon as something may be held of this channel, or after a moment.
    pub(crate) fn look_on<R: Wait>(&self, rt: &R, id: ChannelId) -> MutexGuard<'_, HandleState<H>> {
        let state = self.lock(rt);
        if state.holds_of(id) || state.is_channel_closed(id) || state.is_over() {
            return state;
        }
        self.look_at(rt, state, self.place_of_channel(id.0))
    }

    /// The locked value, as soon as something may be held of some channel, or after a moment.
    pub(crate) fn look_for_some<R: Wait>(&self, rt: &R) -> MutexGuard<'_, HandleState<H>> {
        let state = self.lock(rt);
        if state.first_channel().is_some() || state.is_over() {
            return state;
        }
        self.look_at(rt, state, &self.happened)
    }

    /// Lets the lock go, and takes it again once those who wait at this place are called, or after a moment.
    fn look_at<'a, R: Wait>(
        &'a self,
        rt: &R,
        state: MutexGuard<'a, HandleState<H>>,
        place: &Place,
    ) -> MutexGuard<'a, HandleState<H>> {
        let seen = place.calls();
        drop(state);
        place.look(&self.patience, seen);
        self.lock(rt)
    }

    /// Submits a message. It returns a ticket if and only if the message asks for an answer.
    #[tactic(auto, using(crate::proofs::AnsweringLemmas::given))]
    pub(crate) fn submit<R: Wait>(&self, rt: &R, msg: Msg) -> Result<Option<Ticket>, Error>
        ensures { Given (asks_answer msg) result }
    {
        let submitted = self.lock(rt).submit(msg);
        self.wake_runner();
        submitted
    }

    /// Submits a login with prompts (RFC 4256), whose ticket is the one that responses are for.
    #[tactic(auto, using(crate::proofs::AnsweringLemmas::prompts_given))]
    pub(crate) fn start_prompts<R: Wait>(
        &self,
        rt: &R,
        user: Text,
        submethods: Text,
    ) -> Result<Option<Ticket>, Error>
        ensures { Given true result }
    {
        let begun = self.lock(rt).start_prompts(user, submethods);
        self.wake_runner();
        begun
    }

    /// Submits responses to prompts, and returns the ticket of the login that asked.
    #[tactic(auto, using(crate::proofs::AnsweringLemmas::responded))]
    pub(crate) fn respond<R: Wait>(&self, rt: &R, responses: List<Text>) -> Result<Ticket, Error>
        ensures { IfErr result CannotRespond }
    {
        let responded = self.lock(rt).respond(responses);
        self.wake_runner();
        responded
    }

    /// Waits for the next record of this ticket. If the session has ended and nothing is held for the ticket, the
    /// record is that it was dropped.
    #[tactic(auto, using(crate::proofs::AnsweringLemmas::first_passes, crate::proofs::AnsweringLemmas::own_number))]
    pub(crate) fn record<R: Wait>(&self, rt: &R, ticket: Ticket) -> Record
        ensures { is_of ticket.0 result ≡ true }
    {
        let place = self.place_of_ticket(ticket.0);
        let seen = place.calls();
        if let Some(output) = self.lock(rt).poll(ticket) {
            return output;
        }
        place.look(&self.patience, seen);
        let mut state = self.lock(rt);
        for _ in rt.forever() {
            if let Some(output) = state.poll(ticket) {
                return output;
            }
            if state.is_over() {
                return Record::Resolved {
                    ticket,
                    resolution: Resolution::Dropped,
                };
            }
            state = self.wait(rt, state, ticket);
        }
        unreachable!()
    }
}

/// A runner's part of what is shared. When it goes, no turn will be taken any more, and those that wait are told.
pub(crate) struct RunnersPart<H> {
    pub(crate) shared: Arc<Shared<H>, Global>,
}

impl<H> Drop for RunnersPart<H> {
    fn drop(self) {
        let RunnersPart { shared } = self;
        shared.leave();
        shared.close();
    }
}
