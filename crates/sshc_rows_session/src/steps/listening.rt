//! A handler that keeps the list of its calls, and in each call does and returns what its plan states.

ghost use Rattle.std.specs.Prelude.{◌≡◌, ◌≤◌, OnErr};
ghost use Rattle.sshc_wire.specs.Faults.{Rose};
ghost use Rattle.sshc_client_table.specs.Grown.{Grown};

mod callbacks;

use super::acting::follow;
use super::plan::answer;
use super::values::Values;
use crate::files::put_line;
use sshc_client::{Error, OpenAnswer, Session};
use sshc_wire::{ChannelOpenFailure, NoMemory};
use std::alloc::{AllocError, Global};
use std::marker::Model;

/// Why the handler refuses.
#[derive(Clone, Copy)]
pub enum Refused {
    /// An error of the session.
    Client(Error),
    /// The plan states it.
    Planned,
    /// Memory ran out for the list of calls.
    NoMemory,
}

impl Refused {
    /// The words of a refusal.
    pub fn output(&self, alloc: Global) -> Result<String, AllocError> {
        match self {
            Refused::Client(error) => format!(in alloc; "session {error}"),
            Refused::Planned => String::from_str(alloc, "handler"),
            Refused::NoMemory => String::from_str(alloc, "NoMemory"),
        }
    }
}

/// Keeps the list of its calls; contracts see how often it refused.
#[derive(Drop)]
pub struct Listening {
    alloc: Global,
    /// A line for each call, and a line for the result of each method that was called meanwhile.
    heard: String,
    /// What is to be done and returned, in lines.
    plan: String,
    refusals: u64,
}

impl Model for Listening {
    ghost use Rattle.std.specs.Prelude.{ℕ};

    ghost Value = { ℕ };

    ghost view = { λ h. h.refusals };
}

impl Listening {
    /// A handler without calls and plans so far.
    pub fn new(alloc: Global) -> Listening {
        Listening {
            alloc,
            heard: String::new(alloc),
            plan: String::new(alloc),
            refusals: 0,
        }
    }

    /// The calls so far.
    pub fn heard(&self) -> &str {
        self.heard.as_str()
    }

    /// The calls so far, to which lines may be added.
    pub fn heard_mut(&mut self) -> &mut String {
        &mut self.heard
    }

    /// Removes the calls so far and the plans.
    pub fn forget(&mut self) {
        self.heard = String::new(self.alloc);
        self.plan_nothing();
    }

    /// Plans a line.
    pub fn plan(&mut self, line: &str) -> Result<(), NoMemory> {
        put_line(&mut self.plan, line)
    }

    pub fn plan_nothing(&mut self) {
        self.plan = String::new(self.alloc);
    }

    /// Notes a call with its values.
    fn note(&mut self, call: &str, values: &Values) -> Result<(), NoMemory>
        ensures { self.new ≡ self.old }
    {
        let values = values.as_str()?;
        let line = format!(in self.alloc; "call {call}{values}")?;
        put_line(&mut self.heard, line.as_str())
    }

    /// Notes a call that can't refuse.
    fn hear_alone(&mut self, call: &str, values: &Values)
        ensures { self.new ≡ self.old }
    {
        let _ = self.note(call, values);
    }

    /// Notes a call, and does what is planned for it.
    #[tactic(auto, using(sshc_client_table::specs::GrownLaws::grown_same))]
    fn called(&mut self, call: &str, values: &Values, session: &mut Session) -> Result<(), NoMemory>
        ensures same { self.new ≡ self.old }
        ensures grown { Grown session.old session.new }
    {
        self.note(call, values)?;
        follow(
            self.alloc,
            session,
            self.plan.as_str(),
            call,
            &mut self.heard,
        )
    }

    /// Counts a refusal.
    fn refuse(&mut self, why: Refused) -> Refused
        ensures rose { Rose self.old self.new }
        ensures later { self.old ≤ self.new }
    {
        self.refusals = self.refusals.saturating_add(1);
        why
    }

    /// The result of a callback that returns nothing.
    fn answered(&mut self, call: &str, called: Result<(), NoMemory>) -> Result<(), Refused>
        ensures later { self.old ≤ self.new }
        ensures cause { OnErr result (Rose self.old self.new) }
    {
        match called {
            Ok(()) => match answer(self.plan.as_str(), call) {
                Some(_) => Err(self.refuse(Refused::Planned)),
                None => Ok(()),
            },
            Err(NoMemory) => Err(self.refuse(Refused::NoMemory)),
        }
    }

    /// The result of a callback for a channel that the server opens. If nothing is planned it is accepted.
    fn open_answered(
        &mut self,
        call: &str,
        called: Result<(), NoMemory>,
    ) -> Result<OpenAnswer, Refused>
        ensures later { self.old ≤ self.new }
        ensures cause { OnErr result (Rose self.old self.new) }
    {
        match called {
            Ok(()) => match open_answer(answer(self.plan.as_str(), call)) {
                Some(answer) => Ok(answer),
                None => Err(self.refuse(Refused::Planned)),
            },
            Err(NoMemory) => Err(self.refuse(Refused::NoMemory)),
        }
    }

    /// A callback that returns nothing.
    fn hear(&mut self, call: &str, values: &Values, session: &mut Session) -> Result<(), Refused>
        ensures grown { Grown session.old session.new }
        ensures later { self.old ≤ self.new }
        ensures cause { OnErr result (Rose self.old self.new) }
    {
        let called = self.called(call, values, session);
        self.answered(call, called)
    }

    /// A callback for a channel that the server opens.
    fn hear_open(
        &mut self,
        call: &str,
        values: &Values,
        session: &mut Session,
    ) -> Result<OpenAnswer, Refused>
        ensures grown { Grown session.old session.new }
        ensures later { self.old ≤ self.new }
        ensures cause { OnErr result (Rose self.old self.new) }
    {
        let called = self.called(call, values, session);
        self.open_answered(call, called)
    }
}

/// An answer to a channel that the server opens, by a word: `later`, `refuse` (`None`), or a reason's number, which
/// rejects it.
fn open_answer(planned: Option<&str>) -> Option<OpenAnswer> {
    match planned {
        None => Some(OpenAnswer::Accept),
        Some("later") => Some(OpenAnswer::Later),
        Some("refuse") => None,
        Some(reason) => {
            let code = reason.parse::<u32>().unwrap_or(0);
            match ChannelOpenFailure::from_u32(code) {
                Some(reason) => Some(OpenAnswer::Reject(reason)),
                None => None,
            }
        }
    }
}
