//! A row: a session with its handler, what happens to it, and the expected lines.

use super::acting::act;
use super::listening::{Listening, Refused};
use super::settings::RowSettings;
use super::stepped::step_line;
use crate::files::{first_word, let_go, put_line};
use crate::parts::bytes_of;
use sshc_auth_event::Event;
use sshc_client::{Outbox, Session, Step};
use sshc_run_reader::{EventError, EventKind, read_event};
use sshc_toy::{ToySigner, ToyVerifier};
use sshc_wire::NoMemory;
use std::alloc::{AllocError, Global};

/// A session and its handler, with the toy pair.
#[derive(Drop)]
struct Row {
    session: Session,
    handler: Listening,
    signer: ToySigner,
    verifier: ToyVerifier,
    /// The expected lines.
    wanted: String,
}

/// Adds the line of each record.
fn put_records(alloc: Global, heard: &mut String, out: &Outbox) -> Result<(), NoMemory> {
    for at in 0..out.len() {
        let mut bytes = Vec::new(alloc);
        out.put_text(at, &mut bytes)?;
        put_record(alloc, heard, bytes)?;
    }
    Ok(())
}

/// Adds the line of a record's bytes.
fn put_record(alloc: Global, heard: &mut String, bytes: Vec<u8>) -> Result<(), NoMemory> {
    let digits = hex::encode(alloc, bytes)?;
    let line = format!(in alloc; "record {digits}")?;
    put_line(heard, line.as_str())
}

impl Row {
    /// A session at its start.
    fn new(alloc: Global, settings: RowSettings) -> Result<Row, NoMemory> {
        let session = Session::with_settings(alloc, settings.session, settings.opening)?;
        Ok(Row {
            session,
            handler: Listening::new(alloc),
            signer: ToySigner::new(alloc),
            verifier: ToyVerifier::new(alloc),
            wanted: String::new(alloc),
        })
    }

    /// Takes the events of a front, and keeps none of their records and calls. A line of a front is `front`, its name
    /// and an event.
    fn begin(&mut self, alloc: Global, fronts: &str, front: &str) -> Result<(), NoMemory> {
        for line in fronts.lines() {
            let (word, rest) = first_word(line);
            let (name, event) = first_word(rest);
            if word == "front" && name == front {
                self.event(alloc, event)?;
            }
        }
        self.handler.forget();
        Ok(())
    }

    /// Takes the events of the front, and does what the lines state.
    fn run(
        &mut self,
        alloc: Global,
        fronts: &str,
        front: &str,
        lines: &str,
    ) -> Result<(), NoMemory> {
        self.begin(alloc, fronts, front)?;
        for line in lines.lines() {
            let (command, rest) = first_word(line);
            self.line(alloc, command, rest)?;
        }
        Ok(())
    }

    /// The verdict, as lines: `ok` with the name, or `WRONG` with the name and the lines that came.
    fn verdict(&self, alloc: Global, name: &str) -> Result<String, AllocError> {
        let heard = self.handler.heard();
        if heard == self.wanted.as_str() {
            format!(in alloc; "ok {name}")
        } else {
            format!(in alloc; "WRONG {name}\n{heard}")
        }
    }

    /// Does what a line states: `at` plans what the handler does and returns at the next event, `event` is an event by
    /// its kind and fields, `do` a method of the session with its arguments. `record`, `call`, `gave` and `step` are
    /// expected lines.
    fn line(&mut self, alloc: Global, command: &str, rest: &str) -> Result<(), NoMemory> {
        match command {
            "at" => self.handler.plan(rest),
            "event" => self.event(alloc, rest),
            "do" => self.act(alloc, rest),
            "record" => put_record(alloc, &mut self.wanted, bytes_of(alloc, rest)?),
            "call" | "gave" | "step" => self.want(alloc, command, rest),
            _ => Ok(()),
        }
    }

    fn want(&mut self, alloc: Global, command: &str, rest: &str) -> Result<(), NoMemory> {
        let line = format!(in alloc; "{command} {rest}")?;
        put_line(&mut self.wanted, line.as_str())
    }

    /// Calls a method, and adds its records.
    fn act(&mut self, alloc: Global, method: &str) -> Result<(), NoMemory> {
        act(alloc, &mut self.session, method, self.handler.heard_mut())?;
        self.tell(alloc)
    }

    /// Adds the records of the session since they were last taken.
    fn tell(&mut self, alloc: Global) -> Result<(), NoMemory> {
        let out = self.session.take_records();
        put_records(alloc, self.handler.heard_mut(), &out)
    }

    /// Takes the event of a line's bytes: its kind and its fields.
    fn event(&mut self, alloc: Global, line: &str) -> Result<(), NoMemory> {
        let bytes = bytes_of(alloc, line)?;
        match bytes.as_slice() {
            [] => self.no_event(),
            [kind, fields @ ..] => match EventKind::from_u8(*kind) {
                Some(kind) => self.take(alloc, kind, fields),
                None => self.no_event(),
            },
        }
    }

    fn no_event(&mut self) -> Result<(), NoMemory> {
        put_line(self.handler.heard_mut(), "no event")
    }

    fn take(&mut self, alloc: Global, kind: EventKind, fields: &[u8]) -> Result<(), NoMemory> {
        match read_event(alloc, kind, fields) {
            Ok(event) => {
                let step = self.step(&event);
                let_go(event);
                let line = step_line(alloc, &step);
                let_go(step);
                self.stepped(alloc, line?)
            }
            Err(EventError::Bad) => self.no_event(),
            Err(EventError::NoMemory) => Err(NoMemory),
        }
    }

    fn step(&mut self, event: &Event) -> Step<Refused> {
        self.session
            .step(event, &mut self.handler, &mut self.signer, &self.verifier)
    }

    /// Adds a step's records, and the line of its result.
    fn stepped(&mut self, alloc: Global, line: Option<String>) -> Result<(), NoMemory> {
        self.handler.plan_nothing();
        self.tell(alloc)?;
        match line {
            Some(line) => put_line(self.handler.heard_mut(), line.as_str()),
            None => Ok(()),
        }
    }
}

/// The verdict on a row: its head (a name, that of its front, and settings) and the lines below.
pub fn verdict(alloc: Global, fronts: &str, head: &str, lines: &str) -> Result<String, NoMemory> {
    let (name, rest) = first_word(head);
    let (front, settings) = first_word(rest);
    let mut row = Row::new(alloc, RowSettings::of(alloc, settings))?;
    let ran = row.run(alloc, fronts, front, lines);
    let verdict = row.verdict(alloc, name);
    let_go(row);
    ran?;
    Ok(verdict?)
}
