//! An agent whose caller signs: what a step asks is handed out, and the answer is handed in with the input.

ghost use Rattle.std.specs.Prelude.{◌≡◌, [], Some};
ghost use Rattle.sshc_agent_core.specs.AgentList.{empty_list, forgotten};
ghost use Rattle.sshc_agent_core.specs.Asked.{asked_of, told_of};
ghost use Rattle.sshc_c_calls.specs.AgentInputs.{input_of};
ghost use Rattle.sshc_c_calls.specs.AgentOutputs.{answer_told, bytes_of, message_number, number_of, said_as, status_of};
ghost use Rattle.sshc_c_calls.specs.AgentOutputs.{TakesInput, TakesNumber};
ghost use Rattle.sshc_c_calls.specs.Questions.{AsksNumber, AsksRequest, HasNoParts};

use crate::agent_input::input_of;
use crate::question::Question;
use crate::status::{
    ASKS_KEY, ASKS_REQUEST, ASKS_SIGNATURE, CLOSED_REFUSED, CLOSED_TOO_LONG, CLOSED_UNREADABLE,
    NO_MEMORY, NOTHING, OK,
};
use sshc_agent_core::{AgentCore, AgentInput, AgentOutput, Cause, Told};
use sshc_wire::{MessageType, NoMemory, Octets};
use std::alloc::Global;

/// An agent, the bytes of its last output, and the parts of the last question.
#[derive(Drop)]
pub struct AgentRun {
    pub core: AgentCore,
    pub last: Octets,
    pub number: u32,
    pub question: Question,
}

/// What the caller tells of the signer's answer: 0 nothing, 1 this signature, any other a refusal.
fn told_as<'a>(told: u32, signature: &'a [u8]) -> Told<'a>
    ensures { told_of result ≡ answer_told told signature.now }
{
    match told {
        0 => Told::Unanswered,
        1 => Told::Signed(signature),
        _ => Told::Refused,
    }
}

/// The number of a request.
fn message_number(message: MessageType) -> u32
    ensures { result ≡ message_number message }
{
    match message {
        MessageType::RequestKeys => 0,
        MessageType::AddKeys => 1,
        MessageType::RemoveKeys => 2,
        MessageType::RemoveAllKeys => 3,
        MessageType::Sign => 4,
        MessageType::Lock => 5,
        MessageType::Unlock => 6,
    }
}

impl AgentRun {
    /// No keys and no lock. If `asks`, the user is asked about each request.
    pub fn new(alloc: Global, asks: bool) -> AgentRun
        ensures core { result.core ≡ empty_list asks }
        ensures last { (result.last ≡ []) × (result.number ≡ 0) }
        ensures question { HasNoParts result.question }
    {
        AgentRun {
            core: AgentCore::new(alloc, asks),
            last: Octets::new(alloc),
            number: 0,
            question: Question::none(alloc),
        }
    }

    /// Keeps what a step with this input asks to be signed.
    #[tactic(auto, using(crate::proofs::Hints::ask_input))]
    fn ask_input(&mut self, alloc: Global, now: u64, conn: u32, input: &AgentInput) -> u32
        ensures asks { AsksRequest (asked_of now conn input.now self.old.core) self.new.question result }
        ensures core { self.new.core ≡ self.old.core }
        ensures last { (self.new.last ≡ self.old.last) × (self.new.number ≡ self.old.number) }
    {
        self.question = Question::none(alloc);
        match self.core.asks(now, conn, input) {
            None => NOTHING,
            Some(asked) => match Question::of(alloc, &asked) {
                Ok(question) => {
                    self.question = question;
                    ASKS_SIGNATURE
                }
                Err(NoMemory) => NO_MEMORY,
            },
        }
    }

    /// Keeps what a step with the input of this number asks to be signed. Nothing else changes.
    #[tactic(auto, using(crate::proofs::Asking::refused_ask, crate::proofs::Asking::made_ask))]
    pub fn ask(&mut self, alloc: Global, now: u64, conn: u32, number: u32, frame: &[u8]) -> u32
        ensures asks { AsksNumber now conn (input_of number frame.now) self.old.core self.new.question result }
        ensures core { self.new.core ≡ self.old.core }
        ensures last { (self.new.last ≡ self.old.last) × (self.new.number ≡ self.old.number) }
    {
        match input_of(alloc, number, frame) {
            Ok(input) => self.ask_input(alloc, now, conn, &input),
            Err(status) => {
                self.question = Question::none(alloc);
                status
            }
        }
    }

    /// Keeps the bytes of an output, and returns its status.
    fn keep(&mut self, alloc: Global, output: AgentOutput) -> u32
        ensures bytes { self.new.last ≡ bytes_of output }
        ensures number { self.new.number ≡ number_of output }
        ensures status { result ≡ status_of output }
        ensures core { self.new.core ≡ self.old.core }
    {
        self.number = 0;
        self.last = Octets::new(alloc);
        match output {
            AgentOutput::Answer(frame) => {
                self.last = frame;
                OK
            }
            AgentOutput::AskRequest(message) => {
                self.number = message_number(message);
                ASKS_REQUEST
            }
            AgentOutput::AskKey(blob) => {
                self.last = blob;
                ASKS_KEY
            }
            AgentOutput::Nothing => NOTHING,
            AgentOutput::Closed(Cause::TooLong) => CLOSED_TOO_LONG,
            AgentOutput::Closed(Cause::Unreadable) => CLOSED_UNREADABLE,
            AgentOutput::Closed(Cause::SignerRefused) => CLOSED_REFUSED,
            AgentOutput::Closed(Cause::NoMemory) => NO_MEMORY,
        }
    }

    /// Takes an input with the signer's answer.
    #[tactic(auto, using(crate::proofs::Asking::taken))]
    fn take_input(
        &mut self,
        alloc: Global,
        now: u64,
        conn: u32,
        input: &AgentInput,
        told: u32,
        signature: &[u8],
    ) -> u32
        ensures takes { TakesInput now conn input.now (answer_told told signature.now) self.old.core self.new.core
            (said_as self.new.last self.new.number result) }
    {
        let output = self.core.apply(now, conn, input, told_as(told, signature));
        self.keep(alloc, output)
    }

    /// Takes the input of this number at a moment in milliseconds, with the signer's answer to what it asks, and keeps
    /// the bytes of the output.
    #[tactic(auto, using(crate::proofs::Asking::refused_take, crate::proofs::Asking::made_take))]
    pub fn take(
        &mut self,
        alloc: Global,
        now: u64,
        conn: u32,
        number: u32,
        frame: &[u8],
        told: u32,
        signature: &[u8],
    ) -> u32
        ensures takes { TakesNumber now conn (input_of number frame.now) (answer_told told signature.now)
            self.old.core self.new.core (said_as self.new.last self.new.number result) }
    {
        match input_of(alloc, number, frame) {
            Ok(input) => self.take_input(alloc, now, conn, &input, told, signature),
            Err(status) => {
                self.last = Octets::new(alloc);
                self.number = 0;
                status
            }
        }
    }

    /// Forgets a connection that ended.
    pub fn forget(&mut self, conn: u32)
        ensures core { self.new.core ≡ forgotten conn self.old.core }
        ensures last { (self.new.last ≡ self.old.last) × (self.new.number ≡ self.old.number) }
    {
        self.core.forget(conn);
    }
}
