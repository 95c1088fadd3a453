//! An agent with the bytes of its connections, and the records of each event.

ghost use Rattle.std.specs.Prelude.{◌≡◌, ◌≤◌, ◌++◌, [], OnErr, OnOk, false};
ghost use Rattle.sshc_key.specs.Asking.{Makes, MakesFirst};
ghost use Rattle.sshc_key.specs.Signers.{since};
ghost use Rattle.sshc_wire.specs.Outgoing.{listed};
ghost use Rattle.sshc_run_agent.specs.AgentTurns.{SaysInput, agent_turn, bytes_at, each_turn, idle, input_turn};
ghost use Rattle.sshc_run_agent.specs.AgentTurns.{inputs_of, rest_of, without};

use crate::event::AgentEvent;
use crate::step::step_input;
use sshc_agent_core::{AgentCore, AgentInput, Frames};
use sshc_key::LocalSigner;
use sshc_wire::{NoMemory, Octets, Outbox, Record};
use std::alloc::Global;
use std::collections::BTreeMap;
use std::marker::Model;

/// An agent, and for each connection the bytes that belong to no whole frame yet.
#[derive(Drop)]
pub struct ServedAgent {
    alloc: Global,
    core: AgentCore,
    frames: BTreeMap<u32, Frames>,
}

impl Model for ServedAgent {
    ghost use Rattle.std.specs.Coded.{codes};
    ghost use Rattle.sshc_key.specs.PairCode.{key_pair_code};
    ghost use Rattle.sshc_run_agent.specs.AgentTurns.{Served};

    ghost Value = { Served };

    ghost coded = { Prim.hlevel (codes, key_pair_code) };

    ghost view = { λ a. record { list = a.core; bytes = a.frames.entries } };
}

/// Adds the record, if there is one.
fn add(out: &mut Outbox, sent: Option<Record>) -> Result<(), NoMemory>
    requires open { out.old.muted ≡ false }
    ensures ok { OnOk result (out.new.records ≡ out.old.records ++ listed sent) }
    ensures open { out.new.muted ≡ false }
{
    match sent {
        Some(sent) => out.push(sent),
        None => Ok(()),
    }
}

/// Takes one input, and adds its record to `out`.
#[tactic(auto, using(crate::proofs::ServedSteps::said_of, crate::proofs::ServedSteps::cut_of))]
fn take_one<G: LocalSigner>(
    core: &mut AgentCore,
    now: u64,
    conn: u32,
    input: &AgentInput,
    signer: &mut G,
    out: &mut Outbox,
) -> Result<(), NoMemory>
    requires open { out.old.muted ≡ false }
    ensures ok { OnOk result
        (SaysInput now conn input.now core.old
        (since (G.calls signer.old) (G.calls signer.new)) core.new out.old.records out.new.records) }
    ensures err { OnErr result
        (MakesFirst (input_turn now conn input.now core.old) (since (G.calls signer.old) (G.calls signer.new))) }
    ensures gained { G.calls signer.new ≡ G.calls signer.old ++ since (G.calls signer.old) (G.calls signer.new) }
    ensures later { G.refusals signer.old ≤ G.refusals signer.new }
    ensures open { out.new.muted ≡ false }
{
    let sent = step_input(core, now, conn, input, signer)?;
    add(out, sent)
}

/// The same for an input passed by value.
fn take_whole<G: LocalSigner>(
    core: &mut AgentCore,
    now: u64,
    conn: u32,
    input: AgentInput,
    signer: &mut G,
    out: &mut Outbox,
) -> Result<(), NoMemory>
    requires open { out.old.muted ≡ false }
    ensures ok { OnOk result
        (SaysInput now conn input core.old
        (since (G.calls signer.old) (G.calls signer.new)) core.new out.old.records out.new.records) }
    ensures err { OnErr result
        (MakesFirst (input_turn now conn input core.old) (since (G.calls signer.old) (G.calls signer.new))) }
    ensures gained { G.calls signer.new ≡ G.calls signer.old ++ since (G.calls signer.old) (G.calls signer.new) }
    ensures later { G.refusals signer.old ≤ G.refusals signer.new }
    ensures open { out.new.muted ≡ false }
{
    take_one(core, now, conn, &input, signer, out)
}

/// Takes all inputs that the bytes contain, in order, and adds their records to `out`.
fn serve<G: LocalSigner>(
    core: &mut AgentCore,
    now: u64,
    conn: u32,
    frames: &mut Frames,
    signer: &mut G,
    out: &mut Outbox,
) -> Result<(), NoMemory>
    requires empty { out.old.records ≡ [] }
    requires open { out.old.muted ≡ false }
    ensures ok { OnOk result
        (Makes (each_turn now conn (inputs_of frames.old) core.old)
        (since (G.calls signer.old) (G.calls signer.new)) (record { records = out.new.records; list = core.new })) }
    ensures rest { OnOk result (frames.new ≡ rest_of frames.old) }
    ensures err { OnErr result
        (MakesFirst (each_turn now conn (inputs_of frames.old) core.old)
        (since (G.calls signer.old) (G.calls signer.new))) }
    ensures gained { G.calls signer.new ≡ G.calls signer.old ++ since (G.calls signer.old) (G.calls signer.new) }
    ensures later { G.refusals signer.old ≤ G.refusals signer.new }
{
    'inputs: loop {
        let Some(input) = frames.next()? else {
            return Ok(());
        };
        take_whole(core, now, conn, input, signer, out)?;
    }
}

impl ServedAgent {
    /// No keys, no lock, no connection. If `asks`, the user is asked about each request.
    pub fn new(alloc: Global, asks: bool) -> ServedAgent
        ensures { result ≡ idle asks }
    {
        ServedAgent {
            alloc,
            core: AgentCore::new(alloc, asks),
            frames: BTreeMap::new(alloc),
        }
    }

    /// Removes and returns the bytes of the connection; no bytes for a new connection.
    fn take_frames(&mut self, conn: u32) -> Frames
        ensures frames { result ≡ bytes_at self.old.bytes conn }
        ensures list { self.new.list ≡ self.old.list }
        ensures bytes { self.new.bytes ≡ without self.old.bytes conn }
    {
        match self.frames.remove(&conn) {
            Some(frames) => frames,
            None => Frames::new(self.alloc),
        }
    }

    /// Takes an event of bytes.
    #[tactic(auto, using(crate::proofs::Hints::take_bytes))]
    fn take_bytes<G: LocalSigner>(
        &mut self,
        now: u64,
        conn: u32,
        piece: &Octets,
        signer: &mut G,
        out: &mut Outbox,
    ) -> Result<(), NoMemory>
        requires empty { out.old.records ≡ [] }
        requires open { out.old.muted ≡ false }
        ensures ok { OnOk result
            (Makes (agent_turn now (AgentEvent.Bytes conn piece.now) self.old)
            (since (G.calls signer.old) (G.calls signer.new))
            (record { records = out.new.records; state = self.new })) }
        ensures err { OnErr result
            (MakesFirst (agent_turn now (AgentEvent.Bytes conn piece.now) self.old)
            (since (G.calls signer.old) (G.calls signer.new))) }
        ensures gained { G.calls signer.new ≡ G.calls signer.old ++ since (G.calls signer.old) (G.calls signer.new) }
        ensures later { G.refusals signer.old ≤ G.refusals signer.new }
    {
        let mut frames = self.take_frames(conn);
        frames.push(piece.as_slice())?;
        serve(&mut self.core, now, conn, &mut frames, signer, out)?;
        self.frames.insert(conn, frames)?;
        Ok(())
    }

    /// Takes an event of one input.
    #[tactic(auto, using(crate::proofs::ServedSteps::input_event_made, crate::proofs::ServedSteps::input_event_first))]
    fn take_input<G: LocalSigner>(
        &mut self,
        now: u64,
        conn: u32,
        input: &AgentInput,
        signer: &mut G,
        out: &mut Outbox,
    ) -> Result<(), NoMemory>
        requires empty { out.old.records ≡ [] }
        requires open { out.old.muted ≡ false }
        ensures ok { OnOk result
            (Makes (agent_turn now (AgentEvent.Input conn input.now) self.old)
            (since (G.calls signer.old) (G.calls signer.new))
            (record { records = out.new.records; state = self.new })) }
        ensures err { OnErr result
            (MakesFirst (agent_turn now (AgentEvent.Input conn input.now) self.old)
            (since (G.calls signer.old) (G.calls signer.new))) }
        ensures gained { G.calls signer.new ≡ G.calls signer.old ++ since (G.calls signer.old) (G.calls signer.new) }
        ensures later { G.refusals signer.old ≤ G.refusals signer.new }
    {
        take_one(&mut self.core, now, conn, input, signer, out)?;
        Ok(())
    }

    /// Takes an event at a moment in milliseconds, and replaces what `out` held by its records, in order. Each whole
    /// frame of a piece is one step of the agent, and so is a length above 262144. If memory runs out, the records are
    /// not to be used, and the bytes of the event's connection are lost.
    pub fn take<G: LocalSigner>(
        &mut self,
        now: u64,
        event: &AgentEvent,
        signer: &mut G,
        out: &mut Outbox,
    ) -> Result<(), NoMemory>
        // The records and the new state are those of the event's turn, with the calls that were added to the signer's
        // list.
        ensures turn { OnOk result
            (Makes (agent_turn now event.now self.old) (since (G.calls signer.old) (G.calls signer.new))
            (record { records = out.new.records; state = self.new })) }
        // If memory runs out, the calls are a prefix of the turn's.
        ensures memory { OnErr result
            (MakesFirst (agent_turn now event.now self.old) (since (G.calls signer.old) (G.calls signer.new))) }
        ensures gained { G.calls signer.new ≡ G.calls signer.old ++ since (G.calls signer.old) (G.calls signer.new) }
        ensures later { G.refusals signer.old ≤ G.refusals signer.new }
    {
        out.clear();
        match event {
            AgentEvent::Bytes { conn, piece } => self.take_bytes(now, *conn, piece, signer, out),
            AgentEvent::Input { conn, input } => self.take_input(now, *conn, input, signer, out),
        }
    }
}
