//! What is kept of an input and its output: no bytes where their kind says all, and no copy of what another one has
//! too.

ghost use Rattle.std.specs.Prelude.{◌≡◌, ◌↔◌, IfOk, IfSome, IsSome, IsTrue};
ghost use Rattle.sshc_agent_shared.specs.KeptForms.{bare_input, bare_output, form_input, form_output, input_of};
ghost use Rattle.sshc_agent_shared.specs.KeptForms.{output_of, seen_input, seen_output};

use crate::bytes::KeptBytes;
use sshc_agent_core::{AgentInput, AgentOutput, Cause};
use sshc_key::agent_msg::{FAILURE, SUCCESS};
use sshc_wire::{MessageType, NoMemory, Octets};
use std::alloc::Global;
use std::sync::Arc;

/// The answer FAILURE, a frame with its length.
pub(crate) const FAILED: [u8; 5] = [0, 0, 0, 1, FAILURE];

/// The answer SUCCESS, a frame with its length.
pub(crate) const SUCCEEDED: [u8; 5] = [0, 0, 0, 1, SUCCESS];

/// An input; its bytes are shared.
#[derive(Drop)]
pub(crate) enum InputForm {
    /// A frame of one byte, as the request of a listing.
    Byte(u8),
    Frame(KeptBytes),
    Oversize { length: u32 },
    RequestAnswer(bool),
    KeyAnswer(bool),
    Close,
}

/// An output; its bytes are shared.
#[derive(Drop)]
pub(crate) enum OutputForm {
    /// The answer FAILURE.
    Failure,
    /// The answer SUCCESS.
    Success,
    /// Any other answer.
    Answer(KeptBytes),
    AskRequest(MessageType),
    AskKey(KeptBytes),
    Nothing,
    Closed(Cause),
}

/// An input of which no bytes are kept.
#[derive(Clone, Copy)]
pub(crate) enum BareInput {
    Byte(u8),
    RequestAnswer(bool),
    KeyAnswer(bool),
    Close,
}

/// An output of which no bytes are kept.
#[derive(Clone, Copy)]
pub(crate) enum BareOutput {
    Failure,
    Success,
    AskRequest(MessageType),
    Nothing,
    Closed(Cause),
}

/// Any input with its output.
#[derive(Drop)]
pub(crate) struct Both {
    pub(crate) input: InputForm,
    pub(crate) output: OutputForm,
}

/// An input with its output, in two words: most have one list of bytes at most.
#[derive(Drop)]
pub(crate) enum Form {
    Bare(BareInput, BareOutput),
    /// A frame about which the user is asked.
    Asked(MessageType, Arc<Octets, Global>),
    /// An answer to an input without bytes, as a listing that the user allowed.
    Answered(BareInput, Arc<Octets, Global>),
    Whole(Box<Both>),
}

/// An input where it is kept.
#[derive(Clone, Copy)]
pub(crate) enum InputSeen<'a> {
    Byte(u8),
    Frame(&'a [u8]),
    Oversize { length: u32 },
    RequestAnswer(bool),
    KeyAnswer(bool),
    Close,
}

/// An output where it is kept.
#[derive(Clone, Copy)]
pub(crate) enum OutputSeen<'a> {
    Failure,
    Success,
    Answer(&'a [u8]),
    AskRequest(MessageType),
    AskKey(&'a [u8]),
    Nothing,
    Closed(Cause),
}

impl InputForm {
    /// The input with its bytes copied, unless it has at most one.
    pub(crate) fn of(alloc: Global, input: &AgentInput) -> Result<InputForm, NoMemory>
        ensures { IfOk result (λ i. input_of i ≡ input.now) }
    {
        match input {
            AgentInput::Frame(frame) => match frame.as_slice() {
                [byte] => Ok(InputForm::Byte(*byte)),
                bytes => {
                    let copy = Octets::from_slice(alloc, bytes)?;
                    Ok(InputForm::Frame(KeptBytes::new(copy)?))
                }
            },
            AgentInput::Oversize { length } => Ok(InputForm::Oversize { length: *length }),
            AgentInput::RequestAnswer(yes) => Ok(InputForm::RequestAnswer(*yes)),
            AgentInput::KeyAnswer(yes) => Ok(InputForm::KeyAnswer(*yes)),
            AgentInput::Close => Ok(InputForm::Close),
        }
    }

    /// The same input once more.
    pub(crate) fn share(&self, alloc: Global) -> Result<InputForm, NoMemory>
        ensures { IfOk result (λ i. input_of i ≡ input_of self.now) }
    {
        match self {
            InputForm::Byte(byte) => Ok(InputForm::Byte(*byte)),
            InputForm::Frame(bytes) => Ok(InputForm::Frame(bytes.share(alloc)?)),
            InputForm::Oversize { length } => Ok(InputForm::Oversize { length: *length }),
            InputForm::RequestAnswer(yes) => Ok(InputForm::RequestAnswer(*yes)),
            InputForm::KeyAnswer(yes) => Ok(InputForm::KeyAnswer(*yes)),
            InputForm::Close => Ok(InputForm::Close),
        }
    }

    fn seen(&self) -> InputSeen<'_>
        ensures { seen_input result ≡ input_of self.now }
    {
        match self {
            InputForm::Byte(byte) => InputSeen::Byte(*byte),
            InputForm::Frame(bytes) => InputSeen::Frame(bytes.as_slice()),
            InputForm::Oversize { length } => InputSeen::Oversize { length: *length },
            InputForm::RequestAnswer(yes) => InputSeen::RequestAnswer(*yes),
            InputForm::KeyAnswer(yes) => InputSeen::KeyAnswer(*yes),
            InputForm::Close => InputSeen::Close,
        }
    }

    /// The same input, if none of its bytes are kept.
    fn bare(&self) -> Option<BareInput>
        ensures { IfSome result (λ b. bare_input b ≡ input_of self.now) }
    {
        match self {
            InputForm::Byte(byte) => Some(BareInput::Byte(*byte)),
            InputForm::RequestAnswer(yes) => Some(BareInput::RequestAnswer(*yes)),
            InputForm::KeyAnswer(yes) => Some(BareInput::KeyAnswer(*yes)),
            InputForm::Close => Some(BareInput::Close),
            InputForm::Frame(_) | InputForm::Oversize { .. } => None,
        }
    }
}

impl OutputForm {
    fn seen(&self) -> OutputSeen<'_>
        ensures { seen_output result ≡ output_of self.now }
    {
        match self {
            OutputForm::Failure => OutputSeen::Failure,
            OutputForm::Success => OutputSeen::Success,
            OutputForm::Answer(frame) => OutputSeen::Answer(frame.as_slice()),
            OutputForm::AskRequest(message) => OutputSeen::AskRequest(*message),
            OutputForm::AskKey(blob) => OutputSeen::AskKey(blob.as_slice()),
            OutputForm::Nothing => OutputSeen::Nothing,
            OutputForm::Closed(cause) => OutputSeen::Closed(*cause),
        }
    }

    /// The same output, if none of its bytes are kept.
    fn bare(&self) -> Option<BareOutput>
        ensures { IfSome result (λ b. bare_output b ≡ output_of self.now) }
    {
        match self {
            OutputForm::Failure => Some(BareOutput::Failure),
            OutputForm::Success => Some(BareOutput::Success),
            OutputForm::AskRequest(message) => Some(BareOutput::AskRequest(*message)),
            OutputForm::Nothing => Some(BareOutput::Nothing),
            OutputForm::Closed(cause) => Some(BareOutput::Closed(*cause)),
            OutputForm::Answer(_) | OutputForm::AskKey(_) => None,
        }
    }
}

impl BareInput {
    fn seen<'a>(self) -> InputSeen<'a>
        ensures { seen_input result ≡ bare_input self }
    {
        match self {
            BareInput::Byte(byte) => InputSeen::Byte(byte),
            BareInput::RequestAnswer(yes) => InputSeen::RequestAnswer(yes),
            BareInput::KeyAnswer(yes) => InputSeen::KeyAnswer(yes),
            BareInput::Close => InputSeen::Close,
        }
    }
}

impl BareOutput {
    fn seen<'a>(self) -> OutputSeen<'a>
        ensures { seen_output result ≡ bare_output self }
    {
        match self {
            BareOutput::Failure => OutputSeen::Failure,
            BareOutput::Success => OutputSeen::Success,
            BareOutput::AskRequest(message) => OutputSeen::AskRequest(message),
            BareOutput::Nothing => OutputSeen::Nothing,
            BareOutput::Closed(cause) => OutputSeen::Closed(cause),
        }
    }
}

/// The input and the output in the box that was reserved for them.
fn whole(spare: &mut Option<Box<Both>>, input: InputForm, output: OutputForm) -> Form
    requires { IsSome spare.old }
    ensures input { form_input result ≡ input_of input }
    ensures output { form_output result ≡ output_of output }
{
    if let Some(mut both) = spare.take() {
        *both = Both { input, output };
        return Form::Whole(both);
    }
    unreachable!()
}

/// An output with bytes, after an input of which no bytes are kept.
fn answered(
    spare: &mut Option<Box<Both>>,
    bare: BareInput,
    input: InputForm,
    output: OutputForm,
) -> Form
    requires spare { IsSome spare.old }
    requires same { bare_input bare ≡ input_of input }
    ensures input { form_input result ≡ input_of input }
    ensures output { form_output result ≡ output_of output }
{
    match output {
        OutputForm::Answer(bytes) => match bytes.into_shared() {
            Ok(bytes) => Form::Answered(bare, bytes),
            Err(bytes) => whole(spare, input, OutputForm::Answer(bytes)),
        },
        output => whole(spare, input, output),
    }
}

/// An output after an input with bytes.
fn asked(spare: &mut Option<Box<Both>>, input: InputForm, output: OutputForm) -> Form
    requires spare { IsSome spare.old }
    ensures input { form_input result ≡ input_of input }
    ensures output { form_output result ≡ output_of output }
{
    match (input, output) {
        (InputForm::Frame(bytes), OutputForm::AskRequest(message)) => match bytes.into_shared() {
            Ok(bytes) => Form::Asked(message, bytes),
            Err(bytes) => whole(
                spare,
                InputForm::Frame(bytes),
                OutputForm::AskRequest(message),
            ),
        },
        (input, output) => whole(spare, input, output),
    }
}

impl Form {
    /// The input and its output. A box for both is reserved.
    pub(crate) fn new(spare: &mut Option<Box<Both>>, input: InputForm, output: OutputForm) -> Form
        requires spare { IsSome spare.old }
        ensures input { form_input result ≡ input_of input }
        ensures output { form_output result ≡ output_of output }
    {
        match (input.bare(), output.bare()) {
            (Some(input), Some(output)) => Form::Bare(input, output),
            (Some(bare), None) => answered(spare, bare, input, output),
            (None, _) => asked(spare, input, output),
        }
    }

    pub(crate) fn input(&self) -> InputSeen<'_>
        ensures { seen_input result ≡ form_input self.now }
    {
        match self {
            Form::Bare(input, _) => input.seen(),
            Form::Asked(_, bytes) => InputSeen::Frame(bytes.as_slice()),
            Form::Answered(input, _) => input.seen(),
            Form::Whole(both) => both.input.seen(),
        }
    }

    pub(crate) fn output(&self) -> OutputSeen<'_>
        ensures { seen_output result ≡ form_output self.now }
    {
        match self {
            Form::Bare(_, output) => output.seen(),
            Form::Asked(message, _) => OutputSeen::AskRequest(*message),
            Form::Answered(_, bytes) => OutputSeen::Answer(bytes.as_slice()),
            Form::Whole(both) => both.output.seen(),
        }
    }
}

pub(crate) fn same_bytes(a: &[u8], b: &[u8]) -> bool
    ensures { IsTrue result ↔ (a.now ≡ b.now) }
{
    a == b
}

impl<'a> InputSeen<'a> {
    /// The input with bytes of its own.
    pub(crate) fn copy(self, alloc: Global) -> Result<AgentInput, NoMemory>
        ensures { IfOk result (λ i. i ≡ seen_input self.entry) }
    {
        match self {
            InputSeen::Byte(byte) => Ok(AgentInput::Frame(Octets::from_slice(alloc, &[byte])?)),
            InputSeen::Frame(bytes) => Ok(AgentInput::Frame(Octets::from_slice(alloc, bytes)?)),
            InputSeen::Oversize { length } => Ok(AgentInput::Oversize { length }),
            InputSeen::RequestAnswer(yes) => Ok(AgentInput::RequestAnswer(yes)),
            InputSeen::KeyAnswer(yes) => Ok(AgentInput::KeyAnswer(yes)),
            InputSeen::Close => Ok(AgentInput::Close),
        }
    }

    pub(crate) fn is_same(self, other: InputSeen<'_>) -> bool
        ensures { IsTrue result ↔ (seen_input self.entry ≡ seen_input other.entry) }
    {
        match (self, other) {
            (InputSeen::Byte(a), InputSeen::Byte(b)) => a == b,
            (InputSeen::Byte(a), InputSeen::Frame(b)) => same_bytes(&[a], b),
            (InputSeen::Frame(a), InputSeen::Byte(b)) => same_bytes(a, &[b]),
            (InputSeen::Frame(a), InputSeen::Frame(b)) => same_bytes(a, b),
            (InputSeen::Oversize { length: a }, InputSeen::Oversize { length: b }) => a == b,
            (InputSeen::RequestAnswer(a), InputSeen::RequestAnswer(b)) => a == b,
            (InputSeen::KeyAnswer(a), InputSeen::KeyAnswer(b)) => a == b,
            (InputSeen::Close, InputSeen::Close) => true,
            _ => false,
        }
    }
}

impl<'a> OutputSeen<'a> {
    /// The output with bytes of its own.
    pub(crate) fn copy(self, alloc: Global) -> Result<AgentOutput, NoMemory>
        ensures { IfOk result (λ o. o ≡ seen_output self.entry) }
    {
        match self {
            OutputSeen::Failure => Ok(AgentOutput::Answer(Octets::from_slice(alloc, &FAILED)?)),
            OutputSeen::Success => Ok(AgentOutput::Answer(Octets::from_slice(alloc, &SUCCEEDED)?)),
            OutputSeen::Answer(frame) => Ok(AgentOutput::Answer(Octets::from_slice(alloc, frame)?)),
            OutputSeen::AskRequest(message) => Ok(AgentOutput::AskRequest(message)),
            OutputSeen::AskKey(blob) => Ok(AgentOutput::AskKey(Octets::from_slice(alloc, blob)?)),
            OutputSeen::Nothing => Ok(AgentOutput::Nothing),
            OutputSeen::Closed(cause) => Ok(AgentOutput::Closed(cause)),
        }
    }

    pub(crate) fn is_same(self, other: OutputSeen<'_>) -> bool
        ensures { IsTrue result ↔ (seen_output self.entry ≡ seen_output other.entry) }
    {
        match (self, other) {
            (OutputSeen::Failure, OutputSeen::Failure) => true,
            (OutputSeen::Success, OutputSeen::Success) => true,
            (OutputSeen::Answer(a), OutputSeen::Answer(b)) => same_bytes(a, b),
            (OutputSeen::Failure, OutputSeen::Answer(b)) => same_bytes(&FAILED, b),
            (OutputSeen::Answer(a), OutputSeen::Failure) => same_bytes(a, &FAILED),
            (OutputSeen::Success, OutputSeen::Answer(b)) => same_bytes(&SUCCEEDED, b),
            (OutputSeen::Answer(a), OutputSeen::Success) => same_bytes(a, &SUCCEEDED),
            (OutputSeen::AskRequest(a), OutputSeen::AskRequest(b)) => a == b,
            (OutputSeen::AskKey(a), OutputSeen::AskKey(b)) => same_bytes(a, b),
            (OutputSeen::Nothing, OutputSeen::Nothing) => true,
            (OutputSeen::Closed(a), OutputSeen::Closed(b)) => a == b,
            _ => false,
        }
    }
}
