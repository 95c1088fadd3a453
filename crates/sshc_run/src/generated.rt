//! A script that is being made.

ghost use Rattle.std.specs.Prelude.{◌≡◌, ◌<◌, ◌+◌, ◌^◌, length, OnOk};
ghost use Rattle.sshc_run.specs.Events.{no_events, timed, with_event};

use sshc_wire::{NoMemory, put_u32, put_u64};
use std::alloc::Global;
use std::marker::Model;

/// A script's bytes, and how many events they are.
#[derive(Drop)]
pub struct Generated {
    text: Vec<u8>,
    events: u64,
}

impl Model for Generated {
    ghost use Rattle.std.specs.Prelude.{◌≤◌, length};
    ghost use Rattle.sshc_run.specs.Events.{Script};

    ghost Value = { Script };

    ghost view = { λ g. record { text = g.text.items; events = g.events } };

    ghost invariant = { λ g. g.events ≤ length g.text.items };
}

impl Generated {
    /// A script without events.
    pub(crate) fn new(alloc: Global) -> Generated
        ensures { result ≡ no_events }
    {
        Generated {
            text: Vec::new(alloc),
            events: 0,
        }
    }

    /// Adds an event: its length, its moment in milliseconds, the number of its kind and its fields.
    #[tactic(auto, unfolding(crate::specs::Events::event_text))]
    pub(crate) fn add(&mut self, moment: u64, kind: u8, fields: &[u8]) -> Result<(), NoMemory>
        requires { 9 + length fields.now < 2 ^ 32 }
        ensures { OnOk result (self.new ≡ with_event (timed moment kind fields.now) self.old) }
    {
        put_u32(&mut self.text, 9 + fields.len() as u32)?;
        put_u64(&mut self.text, moment)?;
        self.text.push(kind)?;
        self.text.extend_from_slice(fields)?;
        self.events += 1;
        Ok(())
    }

    /// How many events the script has.
    pub fn events(&self) -> u64
        ensures { result ≡ self.now.events }
    {
        self.events
    }

    /// The script's bytes.
    pub fn into_text(self) -> Vec<u8>
        ensures { result.items ≡ self.text }
    {
        self.text
    }
}
