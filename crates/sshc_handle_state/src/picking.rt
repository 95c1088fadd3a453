//! Which event a turn takes.

ghost use Rattle.std.specs.Prelude.{◌≡◌};
ghost use Rattle.sshc_handle_state.specs.Picking.{Picks, Ruled, begun_at, heard, link_at, oldest, on_answer};
ghost use Rattle.sshc_handle_state.specs.Picking.{on_event, picked, users_event};

use crate::state::HandleState;
use sshc_auth::Event;
use sshc_client::Handler;
use sshc_transport::{Transport, TransportEvent};
use sshc_wire::Failed;

/// What a turn takes.
#[derive(Drop)]
pub(crate) enum Pick {
    Event(Event),
    Idle,
    /// The transport is at its end.
    Ended,
    NoMemory,
}

impl<H: Handler> HandleState<H> {
    /// Takes the oldest event that was submitted.
    fn oldest(&mut self) -> Pick
        ensures { picked result self.new ≡ oldest self.old }
    {
        match self.submitted.pop() {
            Some(event) => Pick::Event(event),
            None => Pick::Idle,
        }
    }

    /// Takes the oldest reply to a channel that the server opens, else the oldest event, where the session wants one.
    fn users_event(&mut self) -> Pick
        ensures { picked result self.new ≡ users_event self.old }
    {
        if !self.session.wants_user_events() {
            return Pick::Idle;
        }
        match self.submitted.take_reply() {
            Some(reply) => Pick::Event(reply),
            None => self.oldest(),
        }
    }

    /// An event of the transport, which is heard now.
    fn heard(&mut self, now: u64, event: Event) -> Pick
        ensures { picked result self.new ≡ heard now event self.old }
    {
        self.timers.hear(now);
        Pick::Event(event)
    }

    fn on_event(&mut self, now: u64, came: TransportEvent) -> Pick
        ensures { picked result self.new ≡ on_event now came self.old }
    {
        match came {
            TransportEvent::PeerKexinit => self.heard(now, Event::PeerKexinit),
            TransportEvent::Done(exchange) => self.heard(now, Event::ExchangeDone(exchange)),
            TransportEvent::Payload(packet) => self.heard(now, Event::Payload(packet)),
            TransportEvent::Failed => self.heard(now, Event::TransportFailed),
            TransportEvent::RekeyLimit => self.heard(now, Event::RekeyLimit),
            TransportEvent::Quiet => self.users_event(),
        }
    }

    fn on_answer(&mut self, now: u64, answer: Result<Option<TransportEvent>, Failed>) -> Pick
        ensures { picked result self.new ≡ on_answer now answer self.old }
    {
        match answer {
            Ok(Some(came)) => self.on_event(now, came),
            Ok(None) => Pick::Ended,
            Err(Failed::Fault) => self.heard(now, Event::TransportFailed),
            Err(Failed::NoMemory) => Pick::NoMemory,
        }
    }

    /// The result of the rules that come before the transport's; `None` if no such rule applies.
    fn ruled(&mut self, now: u64) -> Option<Pick>
        ensures { Ruled now self.old self.new result }
    {
        if self.session.awaits_answer() {
            return Some(self.oldest());
        }
        if self.timers.is_inactive(now) {
            return Some(Pick::Event(Event::InactivityTimer));
        }
        if self.timers.is_keepalive_due(now) {
            self.timers.strike(now);
            return Some(Pick::Event(Event::KeepaliveTimer));
        }
        if self.failed {
            return Some(self.heard(now, Event::TransportFailed));
        }
        None
    }

    fn begin(&mut self, now: u64)
        ensures { self.new ≡ begun_at now self.old }
    {
        self.timers.begin(now);
    }

    /// Takes what the first rule that applies yields.
    pub(crate) fn pick<T: Transport>(&mut self, now: u64, transport: &mut T) -> Pick
        ensures { Picks now self.old self.new
            (link_at (T.answers transport.old) (T.handed transport.old) (T.faults transport.old))
            (link_at (T.answers transport.new) (T.handed transport.new) (T.faults transport.new)) result }
    {
        self.begin(now);
        if let Some(pick) = self.ruled(now) {
            return pick;
        }
        let answer = transport.next();
        self.on_answer(now, answer)
    }
}
