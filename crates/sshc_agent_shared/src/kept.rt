//! Calls and entries as seats and the journal keep them: without a copy of what another one has too. Contracts see a
//! `KeptCall` as a `Call`, and a `KeptEntry` as an `Entry`.

ghost use Rattle.std.specs.Prelude.{◌≡◌, ◌↔◌, IfOk, IsTrue, drop};
ghost use Rattle.sshc_agent_core.specs.AgentHistory.{signature_at, signature_of};
ghost use Rattle.sshc_agent_shared.specs.Calls.{call_in, entry_of, frame_length};

use crate::call::Call;
use crate::form::Form;
use sshc_agent_core::{AgentInput, AgentOutput, Entry};
use sshc_key::agent_msg::SIGN_RESPONSE;
use sshc_wire::{NoMemory, Octets};
use std::alloc::Global;
use std::marker::Model;

/// The bytes of a frame's length.
const LENGTH_BYTES: usize = 4;

/// A call of a seat, which contracts see as a `Call`.
#[derive(Drop)]
pub struct KeptCall {
    pub(crate) moment: u64,
    pub(crate) form: Form,
}

impl Model for KeptCall {
    ghost use Rattle.sshc_agent_shared.specs.declared.call.Call.{Call as Value_};
    ghost use Rattle.sshc_agent_shared.specs.Calls.{call_of};
    ghost use Rattle.sshc_agent_shared.specs.KeptForms.{form_input, form_output};

    ghost Value = { Value_ };

    ghost view = { λ c. call_of c.moment (form_input c.form) (form_output c.form) };
}

/// An entry of the journal, which contracts see as an `Entry`.
#[derive(Drop)]
pub(crate) struct KeptEntry {
    conn: u32,
    number: u32,
    call: KeptCall,
}

impl Model for KeptEntry {
    ghost use Rattle.sshc_agent_core.specs.declared.entry.Entry.{Entry as Value_};
    ghost use Rattle.sshc_agent_shared.specs.Calls.{entry_of};

    ghost Value = { Value_ };

    ghost view = { λ e. entry_of e.conn e.number e.call.moment e.call.input e.call.output };
}

impl KeptCall {
    /// The moment of the call, in milliseconds.
    pub fn moment(&self) -> u64
        ensures { result ≡ self.now.moment }
    {
        self.moment
    }

    /// The call with bytes of its own.
    pub fn copy(&self, alloc: Global) -> Result<Call, NoMemory>
        ensures { IfOk result (λ c. c ≡ self.now) }
    {
        let input = self.form.input().copy(alloc)?;
        let output = self.form.output().copy(alloc)?;
        Ok(Call {
            moment: self.moment,
            input,
            output,
        })
    }

    /// Whether both are one call.
    pub(crate) fn is_same(&self, other: &KeptCall) -> bool
        ensures { IsTrue result ↔ (self.now ≡ other.now) }
    {
        self.moment == other.moment
            && self.form.input().is_same(other.form.input())
            && self.form.output().is_same(other.form.output())
    }
}

impl KeptEntry {
    pub(crate) fn new(conn: u32, number: u32, call: KeptCall) -> KeptEntry
        ensures { result ≡ entry_of conn number call.moment call.input call.output }
    {
        KeptEntry { conn, number, call }
    }

    pub(crate) fn conn(&self) -> u32
        ensures { result ≡ self.now.conn }
    {
        self.conn
    }

    pub(crate) fn call(&self) -> &KeptCall
        ensures { result.now ≡ call_in self.now }
    {
        &self.call
    }

    /// The entry with bytes of its own.
    pub(crate) fn copy(&self, alloc: Global) -> Result<Entry, NoMemory>
        ensures { IfOk result (λ e. e ≡ self.now) }
    {
        let call = self.call.copy(alloc)?;
        let signature = signature_in(alloc, &call.output)?;
        Ok(Entry {
            conn: self.conn,
            number: self.number,
            moment: call.moment,
            input: call.input,
            signature,
            output: call.output,
        })
    }
}

/// The bytes after the first `count`.
fn behind(bytes: &[u8], count: usize) -> &[u8]
    ensures { result.now ≡ drop count bytes.now }
{
    if count < bytes.len() {
        &bytes[count..]
    } else {
        &[]
    }
}

/// The signature in a frame without its length, if it is a SIGN_RESPONSE (14).
fn signature_at(alloc: Global, body: &[u8]) -> Result<Option<Octets>, NoMemory>
    ensures { IfOk result (λ s. s ≡ signature_at body.now) }
{
    match body {
        [] => Ok(None),
        [number, rest @ ..] => {
            if *number != SIGN_RESPONSE {
                return Ok(None);
            }
            Ok(Some(Octets::from_slice(alloc, behind(rest, LENGTH_BYTES))?))
        }
    }
}

/// The signature that an answer holds.
fn signature_in(alloc: Global, output: &AgentOutput) -> Result<Option<Octets>, NoMemory>
    ensures { IfOk result (λ s. s ≡ signature_of output.now) }
{
    match output {
        AgentOutput::Answer(frame) => signature_at(alloc, behind(frame.as_slice(), LENGTH_BYTES)),
        _ => Ok(None),
    }
}

/// How many bytes the input's frame has; 0 for any other input.
pub(crate) fn frame_length(input: &AgentInput) -> usize
    ensures { result ≡ frame_length input.now }
{
    match input {
        AgentInput::Frame(whole) => whole.as_slice().len(),
        _ => 0,
    }
}
