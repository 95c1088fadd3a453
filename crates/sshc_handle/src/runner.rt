//! The runner of a session.

ghost use Rattle.std.specs.Prelude.{◌≡◌};
ghost use Rattle.sshc_handle.specs.Refused.{reason_of};

use crate::places::Bell;
use crate::shared::{RunnersPart, Shared};
use sshc_auth::{Ended, Error};
use sshc_client::{DisconnectReason, Handler};
use sshc_handle_state::{HandleState, Turn};
use sshc_key::{LocalSigner, Verifier};
use sshc_transport::Transport;
use sshc_wire::{Clock, NoMemory};
use std::alloc::Global;
use std::sync::{Arc, Wait};
use std::time::Duration;

/// For how long a runner rests at most that asks its transport on its own, in milliseconds.
const PAUSE: u64 = 1;

/// For how long a runner rests at most that is woken, in milliseconds.
const LONGEST: u64 = 3_600_000;

/// Takes turns with a session until it has ended, in a thread of its own. It asks its transport once a millisecond, or
/// when it is woken, once a waker was made. Where a runner is dropped that hasn't run, its session is refused: calls
/// that wait return, and nothing more is submitted.
#[derive(Drop)]
pub struct Runner<
    H: Handler + Drop,
    T: Transport + Drop,
    S: LocalSigner + Drop,
    V: Verifier + Drop,
    C: Clock + Drop,
> {
    pub(crate) part: RunnersPart<H>,
    pub(crate) transport: T,
    pub(crate) handler: H,
    pub(crate) signer: S,
    pub(crate) verifier: V,
    pub(crate) clock: C,
    /// Whether a waker was made.
    pub(crate) is_woken: bool,
}

/// Wakes the runner of a session from the thread that fills its transport.
#[derive(Drop)]
pub struct Waker {
    runner: Arc<Bell, Global>,
}

impl Waker {
    /// The transport has something: the runner asks it at once. What `next` is to return has to be there before. It
    /// waits for nothing.
    pub fn wake(&self) {
        self.runner.ring();
    }
}

/// For how long a runner rests with nothing to take: until it is woken if an answer of the user is awaited; else a
/// millisecond, or until a timer runs out if its transport wakes it.
fn rest_of<H>(state: &HandleState<H>, now: u64, is_woken: bool) -> Option<Duration> {
    if state.awaits_answer() {
        return None;
    }
    if !is_woken {
        return Some(Duration::from_millis(PAUSE));
    }
    match state.due_in(now) {
        Some(left) => Some(Duration::from_millis(left.clamp(PAUSE, LONGEST))),
        None => None,
    }
}

/// The reason that the handler is passed, by the last turn.
fn reason_of<H: Handler>(last: Turn<H::Error>) -> DisconnectReason<H::Error>
    ensures { result ≡ reason_of H.told_as last }
{
    match last {
        Turn::Ended(Ended::RemoteDisconnect(info)) => DisconnectReason::ReceivedDisconnect(info),
        Turn::Refused(e) => DisconnectReason::Error(e),
        _ => DisconnectReason::Error(H::from_client(Error::Disconnect)),
    }
}

impl<H: Handler> Shared<H> {
    /// Takes turns until one ends the session.
    fn take_turns<T: Transport, S: LocalSigner, V: Verifier, C: Clock, R: Wait>(
        &self,
        rt: &R,
        transport: &mut T,
        handler: &mut H,
        signer: &mut S,
        verifier: &V,
        clock: &mut C,
        is_woken: bool,
    ) -> Turn<H::Error> {
        // It looks only behind a turn that took something, so that it does nothing while nothing happens.
        let mut took = false;
        for _ in rt.forever() {
            let seen = self.calls_of_runner();
            let now = clock.now();
            let mut state = self.lock(rt);
            if state.is_over() {
                return Turn::Ended(Ended::Closed);
            }
            let before = state.held().len();
            match state.turn(now, transport, handler, signer, verifier) {
                Turn::Took => {
                    took = true;
                    self.wake_behind(state, before);
                }
                Turn::Idle => {
                    let limit = rest_of(&state, now, is_woken);
                    drop(state);
                    if took {
                        self.look_for_runner(seen);
                    }
                    took = false;
                    self.rest(rt, limit);
                }
                last => return last,
            }
        }
        unreachable!()
    }
}

impl<
    H: Handler + Drop,
    T: Transport + Drop,
    S: LocalSigner + Drop,
    V: Verifier + Drop,
    C: Clock + Drop,
> Runner<H, T, S, V, C> {
    /// A waker for the thread that fills the transport. From then on the runner asks its transport only when it is
    /// woken, when something is submitted, and when a timer runs out, by a clock that counts real milliseconds. So the
    /// transport has to wake it for each event.
    pub fn waker(&mut self) -> Result<Waker, NoMemory> {
        let runner = self.part.shared.runner()?;
        self.is_woken = true;
        Ok(Waker { runner })
    }

    /// Takes turns until the session has ended, calls the handler's `disconnected` with the reason, and returns what
    /// that returns. The handler's callbacks are called under the handle's lock, so they may not call the handle.
    pub fn run<R: Wait>(self, rt: &R) -> Result<(), H::Error> {
        let Runner {
            part,
            transport,
            handler,
            signer,
            verifier,
            clock,
            is_woken,
        } = self;
        let mut transport = transport;
        let mut handler = handler;
        let mut signer = signer;
        let mut clock = clock;
        let last = part.shared.take_turns(
            rt,
            &mut transport,
            &mut handler,
            &mut signer,
            &verifier,
            &mut clock,
            is_woken,
        );
        drop(part);
        handler.disconnected(reason_of::<H>(last))
    }
}
