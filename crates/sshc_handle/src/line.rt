//! The line of one call to the session that threads share.

ghost use Rattle.std.specs.Prelude.{◌≡◌};
ghost use Rattle.sshc_handle_calls.specs.Lines.{Calls};

use crate::channel::Channel;
use crate::handle::Handle;
use crate::shared::Shared;
use sshc_auth::Error;
use sshc_client::{Handler, Msg};
use sshc_handle_calls::Line;
use sshc_wire::{List, Record, Text, Ticket};
use std::alloc::Global;
use std::sync::Wait;

/// Who gives each of its calls a line of its own to a session: a reference to a `Handle` or to a `Channel`.
pub trait HasLine: Copy {
    type L: Line;

    /// The calls of a line that is given out.
    ghost at_first: { Self → Calls };

    /// Whether a line was given out with the first calls and given back with the second.
    ghost used: { Self → Calls → Calls → Type 0 };

    /// A line for one call.
    fn line(self) -> Self::L
        ensures { Self.L.calls result ≡ at_first self };

    /// Takes the line back.
    fn done(self, line: Self::L)
        ensures { used self (at_first self) (Self.L.calls line) };

    /// For the texts and bytes of a message.
    fn alloc(self) -> Global;
}

/// The line of one call to the shared session. Others submit meanwhile too, so the list of its calls isn't known.
#[derive(Drop)]
pub struct HandleLine<'a, H> {
    shared: &'a Shared<H>,
}

impl<H> Shared<H> {
    /// A line for one call.
    fn line(&self) -> HandleLine<'_, H> {
        HandleLine { shared: self }
    }
}

impl<'a, H> Line for HandleLine<'a, H> {
    ghost use Rattle.std.specs.Prelude.{None};

    ghost calls = { λ c. None };

    fn submit<R: Wait>(&mut self, rt: &R, msg: Msg) -> Result<Option<Ticket>, Error> {
        self.shared.submit(rt, msg)
    }

    fn start_prompts<R: Wait>(
        &mut self,
        rt: &R,
        user: Text,
        submethods: Text,
    ) -> Result<Option<Ticket>, Error> {
        self.shared.start_prompts(rt, user, submethods)
    }

    fn respond<R: Wait>(&mut self, rt: &R, responses: List<Text>) -> Result<Ticket, Error> {
        self.shared.respond(rt, responses)
    }

    fn record<R: Wait>(&mut self, rt: &R, ticket: Ticket) -> Record {
        self.shared.record(rt, ticket)
    }
}

impl<'a, H: Handler> HasLine for &'a Handle<H> {
    type L = HandleLine<'a, H>;

    ghost use Rattle.std.specs.Prelude.{None};

    ghost at_first = { λ h. None };

    ghost used = { λ h old new. Unit {0} };

    fn line(self) -> HandleLine<'a, H> {
        self.shared.line()
    }

    fn done(self, line: HandleLine<'a, H>) {
        drop(line);
    }

    fn alloc(self) -> Global {
        self.shared.alloc
    }
}

impl<'a, H: Handler> HasLine for &'a Channel<H> {
    type L = HandleLine<'a, H>;

    ghost use Rattle.std.specs.Prelude.{None};

    ghost at_first = { λ c. None };

    ghost used = { λ c old new. Unit {0} };

    fn line(self) -> HandleLine<'a, H> {
        self.shared.line()
    }

    fn done(self, line: HandleLine<'a, H>) {
        drop(line);
    }

    fn alloc(self) -> Global {
        self.shared.alloc
    }
}
