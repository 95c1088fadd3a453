//! One step of the agent: what it asks to be signed, and what it does with the answer.

ghost use Rattle.std.specs.Prelude.{◌≡◌, ◌≤◌, ◌+◌, ◌∷◌, ◌++◌, List, ℕ, Err, IfOk, IsSome, None, OnErr, OnOk, Some};
ghost use Rattle.std.specs.Prelude.{false, if◌then◌else◌};
ghost use Rattle.sshc_wire.specs.Faults.{Rose};
ghost use Rattle.sshc_key.specs.Signers.{SignCall, since};
ghost use Rattle.sshc_agent_core.specs.AgentHistory.{IsPermitted, KeepsLock, KeepsOthers, KeepsRefused};
ghost use Rattle.sshc_agent_core.specs.AgentList.{aged, seen, standing};
ghost use Rattle.sshc_agent_core.specs.AgentTable.{Finishes, Steps, is_shut, key_answer_turn, request_answer_turn};
ghost use Rattle.sshc_agent_core.specs.AgentTable.{seen_row, standing_row, turned};
ghost use Rattle.sshc_agent_core.specs.AnswerBytes.{answer_bytes};
ghost use Rattle.sshc_agent_core.specs.Asked.{IsShortTold, answer_of, asked_of, told_of};
ghost use Rattle.sshc_agent_core.specs.Connections.{is_new, standing_of, without};
ghost use Rattle.sshc_agent_core.specs.SignerLists.{AreShort};
ghost use Rattle.sshc_agent_core.specs.Turn.{FollowsTold, told_calls};
ghost use Rattle.sshc_agent_core.specs.declared.connections.Standing.TheVariants.{Closed, Open};

use super::AgentCore;
use super::turn::Turn;
use crate::connections::Standing;
use crate::input::{AgentInput, AgentOutput, Cause};
use crate::signing::{Told, told_by};
use sshc_key::agent_msg::MAX_AGENT_FRAME_LEN;
use sshc_key::{Asker, LocalSigner, SignRefused};
use sshc_wire::{NoMemory, Octets};

impl AgentCore {
    /// Takes an input of a connection at a moment in milliseconds. A frame has at most 262144 bytes, and an Oversize
    /// names a greater length. It is `asks`, the signer, and `apply` with its answer.
    #[tactic(auto, using(crate::specs::StepLaws::step_keeps, crate::proofs::Telling::gained_is))]
    pub fn step<G: LocalSigner>(
        &mut self,
        now: u64,
        conn: u32,
        input: &AgentInput,
        signer: &mut G,
    ) -> AgentOutput
        ensures row { Steps now conn input.now
            self.old self.new (since (G.calls signer.old) (G.calls signer.new)) result }
        // The signer's list only grows.
        ensures gained { G.calls signer.new ≡ G.calls signer.old ++ since (G.calls signer.old) (G.calls signer.new) }
        // Only an acknowledged request changes keys or passphrase, except that keys expire.
        ensures refused { KeepsRefused now self.old self.new result }
        // A locked agent signs nothing and stays as it is, except for an unlock with its passphrase.
        ensures locked { (p : List ℕ) → self.old.passphrase ≡ Some p
            → KeepsLock p now conn input.now
            self.old self.new (since (G.calls signer.old) (G.calls signer.new)) result }
        // A signature needs a sign request to an unlocked agent, a key that is held and hasn't expired, and the user's
        // confirmation if the key requires it.
        ensures signed { (call : SignCall) (calls : List SignCall)
            → since (G.calls signer.old) (G.calls signer.new) ≡ call ∷ calls
            → IsPermitted now conn input.now self.old call.by call.key }
        // Every other connection is as it was.
        ensures others { KeepsOthers conn self.old self.new }
        // An answer has at most the bytes of a frame and its length.
        ensures short { answer_bytes result ≤ MAX_AGENT_FRAME_LEN + 4 }
        // A connection is closed because the signer refused only where its count rose.
        ensures cause { result ≡ AgentOutput.Closed Cause.SignerRefused
            → Rose (G.refusals signer.old) (G.refusals signer.new) }
        ensures later { G.refusals signer.old ≤ G.refusals signer.new }
    {
        self.is_listable();
        let answer = self.ask(now, conn, input, signer);
        self.apply(now, conn, input, told_by(&answer))
    }

    /// Asks the signer what the step asks to be signed.
    #[tactic(auto)]
    fn ask<G: LocalSigner>(
        &self,
        now: u64,
        conn: u32,
        input: &AgentInput,
        signer: &mut G,
    ) -> Result<Vec<u8>, SignRefused>
        ensures calls { G.calls signer.new
            ≡ G.calls signer.old ++ told_calls (asked_of now conn input.now self.now) (answer_of result) }
        ensures short { AreShort (told_calls (asked_of now conn input.now self.now) (answer_of result)) }
        ensures cause { result ≡ Err SignRefused.Refused → Rose (G.refusals signer.old) (G.refusals signer.new) }
        ensures later { G.refusals signer.old ≤ G.refusals signer.new }
    {
        match self.asks(now, conn, input) {
            None => Err(SignRefused::NoMemory),
            Some(asked) => signer.sign(Asker::Agent(conn), asked.key, asked.hash, asked.bytes),
        }
    }

    /// Does the rest of a step, after whoever signs was asked what `asks` returned: the row of the table, with this
    /// answer. Without the answer to what was asked, and with a signature of more than 65536 bytes, memory counts as
    /// having run out, and the connection is closed.
    #[tactic(auto, using(crate::specs::StepLaws::step_keeps))]
    pub fn apply(&mut self, now: u64, conn: u32, input: &AgentInput, told: Told<'_>) -> AgentOutput
        ensures row { Steps now conn input.now
            self.old self.new (told_calls (asked_of now conn input.now self.old) (told_of told.entry)) result }
        // Only an acknowledged request changes keys or passphrase, except that keys expire.
        ensures refused { KeepsRefused now self.old self.new result }
        // A locked agent takes no signature and stays as it is, except for an unlock with its passphrase.
        ensures locked { (p : List ℕ) → self.old.passphrase ≡ Some p
            → KeepsLock p now conn input.now
            self.old self.new (told_calls (asked_of now conn input.now self.old) (told_of told.entry)) result }
        // Every other connection is as it was.
        ensures others { KeepsOthers conn self.old self.new }
        // A connection is closed because the signer refused only where this was told.
        ensures cause { result ≡ AgentOutput.Closed Cause.SignerRefused → told_of told.entry ≡ Some None }
        // An answer has at most the bytes of a frame and its length.
        ensures short { IsShortTold told.entry → answer_bytes result ≤ MAX_AGENT_FRAME_LEN + 4 }
    {
        self.is_listable();
        self.row(now, conn, input, told)
    }

    /// Does the step of the table's row for this input, or closes the connection because memory ran out.
    #[tactic(auto, using(crate::proofs::Hints::row))]
    fn row(&mut self, now: u64, conn: u32, input: &AgentInput, told: Told<'_>) -> AgentOutput
        ensures row { Steps now conn input.now
            self.old self.new (told_calls (asked_of now conn input.now self.old) (told_of told.entry)) result }
    {
        match self.begin(now, conn) {
            Ok(is_new) => match self.take(conn, input, told) {
                Ok(output) => output,
                Err(NoMemory) => {
                    self.starve(conn, is_new);
                    AgentOutput::Closed(Cause::NoMemory)
                }
            },
            Err(NoMemory) => AgentOutput::Closed(Cause::NoMemory),
        }
    }

    /// Moves the clock, drops the keys whose deadline has come and records the connection. Returns whether it is new.
    fn begin(&mut self, now: u64, conn: u32) -> Result<bool, NoMemory>
        ensures ok { OnOk result (self.new ≡ seen conn (aged now self.old)) }
        ensures new { IfOk result (λ new. new ≡ is_new self.old.conns conn) }
        ensures there { OnOk result (IsSome (standing_of self.new.conns conn)) }
        ensures err { OnErr result (self.new ≡ aged now self.old) }
        ensures absent { OnErr result (standing_of self.old.conns conn ≡ None) }
    {
        self.age(now);
        self.conns.see(conn)
    }

    /// Takes an input of a connection that has been seen.
    #[tactic(auto, unfolding(crate::specs::AgentTable::seen_row))]
    fn take(
        &mut self,
        conn: u32,
        input: &AgentInput,
        told: Told<'_>,
    ) -> Result<AgentOutput, NoMemory>
        requires { IsSome (standing_of self.old.conns conn) }
        ensures row { FollowsTold (seen_row conn input.now self.old) self.old self.new (told_of told.entry) result }
        ensures open { OnErr result (is_shut (standing_of self.old.conns conn) ≡ false) }
    {
        match self.conns.standing(conn) {
            None | Some(Standing::Closed) => Ok(AgentOutput::Nothing),
            Some(Standing::Open) => self.take_open(conn, input, told),
            Some(Standing::RequestAsked(whole)) => match input {
                AgentInput::RequestAnswer(is_allowed) => match whole.copy() {
                    Ok(whole) => self.take_request_answer(conn, *is_allowed, &whole, told),
                    Err(NoMemory) => Err(NoMemory),
                },
                AgentInput::Oversize { .. } => Ok(self.shut(
                    conn,
                    AgentOutput::Closed(Cause::TooLong),
                )),
                AgentInput::Close => Ok(self.shut(conn, AgentOutput::Nothing)),
                AgentInput::Frame(_) | AgentInput::KeyAnswer(_) => Ok(AgentOutput::Nothing),
            },
            Some(Standing::KeyAsked(whole)) => match input {
                AgentInput::KeyAnswer(is_confirmed) => match whole.copy() {
                    Ok(whole) => self.take_key_answer(conn, *is_confirmed, &whole, told),
                    Err(NoMemory) => Err(NoMemory),
                },
                AgentInput::Oversize { .. } => Ok(self.shut(
                    conn,
                    AgentOutput::Closed(Cause::TooLong),
                )),
                AgentInput::Close => Ok(self.shut(conn, AgentOutput::Nothing)),
                AgentInput::Frame(_) | AgentInput::RequestAnswer(_) => Ok(AgentOutput::Nothing),
            },
        }
    }

    /// Takes an input of a connection on which no question is open.
    #[tactic(auto, using(crate::proofs::Telling::finished))]
    fn take_open(
        &mut self,
        conn: u32,
        input: &AgentInput,
        told: Told<'_>,
    ) -> Result<AgentOutput, NoMemory>
        requires { standing_of self.old.conns conn ≡ Some Open }
        ensures row { FollowsTold (standing_row (Some Open) conn input.now self.old)
            self.old self.new (told_of told.entry) result }
    {
        match input {
            AgentInput::Frame(whole) => match self.frame(whole.as_slice()) {
                Ok(turn) => self.finish_open(conn, turn, told),
                Err(NoMemory) => Err(NoMemory),
            },
            AgentInput::Oversize { .. } => Ok(self.shut(conn, AgentOutput::Closed(Cause::TooLong))),
            AgentInput::Close => Ok(self.shut(conn, AgentOutput::Nothing)),
            AgentInput::RequestAnswer(_) | AgentInput::KeyAnswer(_) => Ok(AgentOutput::Nothing),
        }
    }

    /// The user's answer to the question whether the request is allowed.
    #[tactic(auto, using(crate::proofs::Telling::finished))]
    fn take_request_answer(
        &mut self,
        conn: u32,
        is_allowed: bool,
        whole: &Octets,
        told: Told<'_>,
    ) -> Result<AgentOutput, NoMemory>
        requires { IsSome (standing_of self.old.conns conn) }
        ensures row { FollowsTold (turned conn (request_answer_turn is_allowed whole.now self.old))
            self.old self.new (told_of told.entry) result }
    {
        match self.request_answer(is_allowed, whole.as_slice()) {
            Ok(turn) => self.finish(conn, turn, told),
            Err(NoMemory) => Err(NoMemory),
        }
    }

    /// The user's answer to the question whether the key may sign.
    #[tactic(auto, using(crate::proofs::Telling::finished))]
    fn take_key_answer(
        &mut self,
        conn: u32,
        is_confirmed: bool,
        whole: &Octets,
        told: Told<'_>,
    ) -> Result<AgentOutput, NoMemory>
        requires { IsSome (standing_of self.old.conns conn) }
        ensures row { FollowsTold (turned conn (key_answer_turn is_confirmed whole.now self.old))
            self.old self.new (told_of told.entry) result }
    {
        match self.key_answer(is_confirmed, whole.as_slice()) {
            Ok(turn) => self.finish(conn, turn, told),
            Err(NoMemory) => Err(NoMemory),
        }
    }

    /// Finishes the step: sets the connection's new state and returns the answer, or takes the key's signature.
    fn finish(&mut self, conn: u32, turn: Turn<'_>, told: Told<'_>) -> Result<AgentOutput, NoMemory>
        requires { IsSome (standing_of self.old.conns conn) }
        ensures row { Finishes conn turn.entry self.old self.new (told_of told.entry) result }
    {
        match turn {
            Turn::Says(standing, output) => {
                self.conns.set(conn, standing);
                Ok(output)
            }
            Turn::Signs(rest) => self.sign(conn, rest, told),
        }
    }

    /// Finishes the step of a connection on which no question was open. If none is opened, its state is as it was.
    fn finish_open(
        &mut self,
        conn: u32,
        turn: Turn<'_>,
        told: Told<'_>,
    ) -> Result<AgentOutput, NoMemory>
        requires { standing_of self.old.conns conn ≡ Some Open }
        ensures row { Finishes conn turn.entry self.old self.new (told_of told.entry) result }
    {
        match turn {
            Turn::Says(Standing::Open, output) => {
                self.conns.stays(conn, &Standing::Open);
                Ok(output)
            }
            Turn::Says(standing, output) => self.finish(conn, Turn::Says(standing, output), told),
            Turn::Signs(rest) => self.finish(conn, Turn::Signs(rest), told),
        }
    }

    /// Closes the connection and returns this output.
    fn shut(&mut self, conn: u32, output: AgentOutput) -> AgentOutput
        requires { IsSome (standing_of self.old.conns conn) }
        ensures list { self.new ≡ standing conn Closed self.old }
        ensures output { result ≡ output }
    {
        self.conns.set(conn, Standing::Closed);
        output
    }

    /// Memory ran out: closes a connection that was seen before, and forgets a new one.
    fn starve(&mut self, conn: u32, is_new: bool)
        requires { IsSome (standing_of self.old.conns conn) }
        ensures { self.new ≡
            (if is_new then
            record self.old { conns = without self.old.conns conn } else standing conn Closed self.old) }
    {
        if is_new {
            self.conns.forget(conn);
        } else {
            self.conns.set(conn, Standing::Closed);
        }
    }
}
