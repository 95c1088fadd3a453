//! The core of a proxy: one step for each input of a connection.

ghost use Rattle.std.specs.Prelude.{◌≡◌, ◌⊎◌, ◌++◌, ◌∷◌, List, Ok, [], IfOk};
ghost use Rattle.sshc_proxy.specs.Binding.{Accepts};
ghost use Rattle.sshc_proxy.specs.ProxyHistory.{Remembers, Step};
ghost use Rattle.sshc_proxy.specs.ProxyTable.{Follows, Starves, Takes, answer_in, awaited_at, bound_at, fails};
ghost use Rattle.sshc_proxy.specs.ProxyTable.{frame_in, row_in};
ghost use Rattle.sshc_proxy.specs.declared.input.ProxyInput.TheVariants as inputs;
ghost use Rattle.sshc_proxy.specs.declared.input.ProxyOutput.TheVariants as outputs;

use crate::bound_hosts::BoundHosts;
use crate::input::{ProxyInput, ProxyOutput};
use crate::policy::Policy;
use crate::waiting::Waiting;
use sshc_key::{Verifier, agent_msg};
use sshc_wire::{NoMemory, framed};
use std::alloc::Global;
use std::marker::Model;

mod answers;
mod asking;
mod requests;

/// A policy and connections, which contracts see as plain data.
#[derive(Drop)]
pub struct ProxyCore {
    alloc: Global,
    policy: Policy,
    bound: BoundHosts,
    awaits: Waiting,
}

impl Model for ProxyCore {
    ghost use Rattle.sshc_proxy.specs.ProxyTable.{Proxy};

    ghost Value = { Proxy };

    ghost view = { λ p. record { policy = p.policy; bound = p.bound; awaits = p.awaits } };
}

impl ProxyCore {
    /// No host is bound on any connection, and no answer is awaited.
    #[tactic(auto, using(crate::proofs::HistoryLemmas::remembers_none))]
    pub fn new(policy: Policy) -> ProxyCore
        ensures core { result ≡ record { policy = policy; bound = []; awaits = [] } }
        // No step was taken yet.
        ensures history { (accepts : Accepts) → Remembers accepts result [] }
    {
        let alloc = policy.allocator();
        ProxyCore {
            alloc,
            policy,
            bound: BoundHosts::new(alloc),
            awaits: Waiting::new(alloc),
        }
    }

    /// Takes an input of a connection. After `NoMemory` the core is as it was. It is `asks`, the verifier, and `apply`
    /// with its answer.
    pub fn step<V: Verifier>(&mut self, conn: u32, input: &ProxyInput, verifier: &V) -> ProxyOutput
        ensures row { Takes (V.accepts verifier.now) conn input.now self.old self.new result
            ⊎ Starves self.old self.new result }
        // What is kept is what the steps so far say, and each of them keeps the policy: a frame is forwarded only where
        // it asks for the agent's keys or for a signature with a key that is allowed then, and an answer is FAILURE, or
        // SUCCESS to a binding, or the agent's allowed keys, or the agent's answer to the request that was forwarded
        // last.
        ensures history { (steps : List Step) → Remembers (V.accepts verifier.now) self.old steps
            → Remembers (V.accepts verifier.now) self.new
            (steps ++ record { conn = conn; input = input.now; output = result } ∷ []) }
    {
        match self.ask(conn, input, verifier) {
            Ok(is_signed) => self.apply(conn, input, is_signed),
            Err(NoMemory) => ProxyOutput::NoMemory,
        }
    }

    /// Does the row of an input, or runs out of memory.
    fn take<V: Verifier>(&mut self, conn: u32, input: &ProxyInput, verifier: &V) -> ProxyOutput
        ensures row { Takes (V.accepts verifier.now) conn input.now self.old self.new result
            ⊎ Starves self.old self.new result }
    {
        match self.row(conn, input, verifier) {
            Ok(output) => output,
            Err(NoMemory) => ProxyOutput::NoMemory,
        }
    }

    fn row<V: Verifier>(
        &mut self,
        conn: u32,
        input: &ProxyInput,
        verifier: &V,
    ) -> Result<ProxyOutput, NoMemory>
        ensures row { Follows (row_in (V.accepts verifier.now) self.old conn input.now)
            conn input.now self.old self.new result }
    {
        match input {
            ProxyInput::Frame(whole) => self.frame_input(conn, whole.as_slice(), verifier),
            ProxyInput::Upstream(answer) => self.answer_input(conn, answer.as_slice()),
            ProxyInput::Close => Ok(self.close(conn)),
        }
    }

    /// Takes a frame, without its length, as `step` does.
    pub(crate) fn take_frame<V: Verifier>(
        &mut self,
        conn: u32,
        whole: &[u8],
        verifier: &V,
    ) -> ProxyOutput
        ensures row { Takes (V.accepts verifier.now) conn (inputs.Frame whole.now) self.old self.new result
            ⊎ Starves self.old self.new result }
    {
        match self.frame_input(conn, whole, verifier) {
            Ok(output) => output,
            Err(NoMemory) => ProxyOutput::NoMemory,
        }
    }

    /// Takes an answer of the agent, without its length, as `step` does.
    pub(crate) fn take_answer(&mut self, conn: u32, answer: &[u8]) -> ProxyOutput
        ensures row { (accepts : Accepts) → Takes accepts conn (inputs.Upstream answer.now) self.old self.new result
            ⊎ Starves self.old self.new result }
    {
        match self.answer_input(conn, answer) {
            Ok(output) => output,
            Err(NoMemory) => ProxyOutput::NoMemory,
        }
    }

    /// A frame. While an answer is awaited it is ignored.
    #[tactic(auto, using(crate::proofs::Moved::frame_ignored))]
    fn frame_input<V: Verifier>(
        &mut self,
        conn: u32,
        whole: &[u8],
        verifier: &V,
    ) -> Result<ProxyOutput, NoMemory>
        ensures row { Follows (frame_in (V.accepts verifier.now) self.old.policy (bound_at self.old.bound conn)
            (awaited_at self.old.awaits conn) whole.now) conn (inputs.Frame whole.now) self.old self.new result }
    {
        match self.awaits.awaited(conn) {
            Some(_) => Ok(ProxyOutput::Nothing),
            None => self.frame(conn, whole, verifier),
        }
    }

    /// An answer. One that isn't awaited is ignored.
    #[tactic(auto, using(crate::proofs::Moved::answer_ignored))]
    fn answer_input(&mut self, conn: u32, answer: &[u8]) -> Result<ProxyOutput, NoMemory>
        ensures row { Follows (answer_in self.old.policy (bound_at self.old.bound conn)
            (awaited_at self.old.awaits conn) answer.now) conn (inputs.Upstream answer.now) self.old self.new result }
    {
        match self.awaits.awaited(conn) {
            None => Ok(ProxyOutput::Nothing),
            Some(kind) => self.answer(conn, kind, answer),
        }
    }

    /// Forgets the connection.
    fn close(&mut self, conn: u32) -> ProxyOutput
        ensures row { Follows outputs.Nothing conn inputs.Close self.old self.new (Ok result) }
    {
        self.bound.forget(conn);
        self.awaits.end(conn);
        ProxyOutput::Nothing
    }

    /// FAILURE.
    fn failure(&self) -> Result<ProxyOutput, NoMemory>
        ensures { IfOk result (λ output. output ≡ fails) }
    {
        Ok(ProxyOutput::Answer(framed(self.alloc, &[agent_msg::FAILURE])?))
    }
}
