//! Room that is reserved before a step, so that keeping its answer can't run out of memory.

ghost use Rattle.std.specs.Prelude.{◌≡◌, ◌<◌, ◌≤◌, ℕ, IfOk, IsSome, OnOk, length, vec_len, vec_capacity};
ghost use Rattle.std.specs.BTreeMap.{get};
ghost use Rattle.std.specs.Ordering.{nat_cmp};
ghost use Rattle.sshc_agent_core.specs.AnswerBytes.{answer_bytes};
ghost use Rattle.sshc_agent_shared.specs.Calls.{call_of, entry_of};
ghost use Rattle.sshc_agent_shared.specs.Counting.{count_in};
ghost use Rattle.sshc_agent_shared.specs.KeptForms.{input_of, output_of};
ghost use Rattle.sshc_agent_shared.specs.Rooms.{AreMade, HasBoxes, HasRoom, IsMade};

use crate::bytes::KeptBytes;
use crate::counts::Counts;
use crate::form::{Both, FAILED, Form, InputForm, OutputForm, SUCCEEDED, same_bytes};
use crate::kept::{KeptCall, KeptEntry};
use sshc_agent_core::{AgentInput, AgentOutput};
use sshc_key::agent_msg::IDENTITIES_ANSWER;
use sshc_wire::{NoMemory, Octets};
use std::alloc::Global;

/// The maximal number of bytes in an answer: those of a frame, and its length.
const ANSWER_BYTES: usize = 262_148;

/// A buffer for the bytes that are kept of an answer, which is used if no other memory can be allocated for them, and a
/// box for an input with its output.
#[derive(Drop)]
pub(crate) struct Room {
    pub(crate) bytes: Option<Box<Vec<u8>>>,
    pub(crate) both: Option<Box<Both>>,
}

/// Room for an entry and room for a call; and the latest listing, whose bytes the next equal one shares.
#[derive(Drop)]
pub(crate) struct Rooms {
    kept: Room,
    told: Room,
    listing: Option<KeptBytes>,
}

/// Reserves room for the longest answer.
fn make_buffer(alloc: Global, buffer: &mut Option<Box<Vec<u8>>>) -> Result<(), NoMemory>
    ensures { OnOk result (HasRoom buffer.new) }
{
    if let Some(room) = buffer {
        room.clear();
        room.reserve(ANSWER_BYTES)?;
        return Ok(());
    }
    let mut room = Vec::new(alloc);
    room.reserve(ANSWER_BYTES)?;
    let Ok(room) = Box::new(alloc, room) else {
        return Err(NoMemory);
    };
    *buffer = Some(room);
    Ok(())
}

/// Reserves a box, if there is none.
fn make_box(alloc: Global, spare: &mut Option<Box<Both>>) -> Result<(), NoMemory>
    ensures { OnOk result (IsSome spare.new) }
{
    if spare.is_some() {
        return Ok(());
    }
    let both = Both {
        input: InputForm::Close,
        output: OutputForm::Nothing,
    };
    let Ok(both) = Box::new(alloc, both) else {
        return Err(NoMemory);
    };
    *spare = Some(both);
    Ok(())
}

/// Reserves both.
fn make_room(alloc: Global, room: &mut Room) -> Result<(), NoMemory>
    ensures { OnOk result (IsMade room.new) }
{
    make_buffer(alloc, &mut room.bytes)?;
    make_box(alloc, &mut room.both)
}

/// The bytes in the buffer that was reserved for them.
fn filled(buffer: &mut Option<Box<Vec<u8>>>, bytes: &[u8]) -> KeptBytes
    requires room { HasRoom buffer.old }
    requires short { length bytes.now ≤ 262148 }
    ensures { result ≡ bytes.now }
{
    if let Some(mut room) = buffer.take() {
        room.clear();
        if room.extend_from_slice(bytes).is_ok() {
            return KeptBytes::alone(room);
        }
    }
    unreachable!()
}

/// Whether the answer lists keys.
fn is_listing(answer: &[u8]) -> bool {
    match answer {
        [_, _, _, _, number, ..] => *number == IDENTITIES_ANSWER,
        _ => false,
    }
}

/// Two that share these bytes; those of the latest listing, if they are equal.
fn shared_twice(
    alloc: Global,
    listing: &mut Option<KeptBytes>,
    bytes: &[u8],
) -> Result<(KeptBytes, KeptBytes), NoMemory>
    ensures { IfOk result (λ r. (r.0 ≡ bytes.now) × (r.1 ≡ bytes.now)) }
{
    let is_listing = is_listing(bytes);
    if is_listing {
        if let Some(latest) = listing {
            if latest.as_slice() == bytes {
                return Ok((latest.share(alloc)?, latest.share(alloc)?));
            }
        }
    }
    let one = KeptBytes::new(Octets::from_slice(alloc, bytes)?)?;
    let other = one.share(alloc)?;
    if is_listing {
        *listing = one.share(alloc).ok();
    }
    Ok((one, other))
}

impl Rooms {
    /// No room yet.
    pub(crate) fn new() -> Rooms {
        Rooms {
            kept: Room {
                bytes: None,
                both: None,
            },
            told: Room {
                bytes: None,
                both: None,
            },
            listing: None,
        }
    }

    /// Reserves the room that a call with this input needs for an entry, a call and their bytes. Returns the input as
    /// entry and call keep it.
    pub(crate) fn make(
        &mut self,
        alloc: Global,
        input: &AgentInput,
        conn: u32,
        journal: &mut Vec<KeptEntry>,
        calls: &mut Vec<KeptCall>,
        counts: &mut Counts,
    ) -> Result<(InputForm, InputForm), NoMemory>
        ensures forms { IfOk result (λ r. (input_of r.0 ≡ input.now) × (input_of r.1 ≡ input.now)) }
        ensures rooms { OnOk result (AreMade self.new) }
        ensures journal { journal.new.items ≡ journal.old.items }
        ensures journal_room { OnOk result (vec_len journal.new < vec_capacity journal.new) }
        ensures calls { calls.new.items ≡ calls.old.items }
        ensures calls_room { OnOk result (vec_len calls.new < vec_capacity calls.new) }
        ensures counts { (c : ℕ) → count_in counts.new c ≡ count_in counts.old c }
        ensures counts_there { OnOk result (IsSome (get nat_cmp counts.new.of conn)) }
    {
        journal.reserve(1)?;
        calls.reserve(1)?;
        counts.open(conn)?;
        make_room(alloc, &mut self.kept)?;
        make_room(alloc, &mut self.told)?;
        let input = InputForm::of(alloc, input)?;
        let theirs = input.share(alloc)?;
        Ok((input, theirs))
    }

    /// These bytes twice, for the entry and for the call.
    fn twice(&mut self, alloc: Global, bytes: &[u8]) -> (KeptBytes, KeptBytes)
        requires made { AreMade self.old }
        requires short { length bytes.now ≤ 262148 }
        ensures twice { (result.0 ≡ bytes.now) × (result.1 ≡ bytes.now) }
        ensures boxes { HasBoxes self.new }
    {
        match shared_twice(alloc, &mut self.listing, bytes) {
            Ok(two) => two,
            Err(NoMemory) => (
                filled(&mut self.kept.bytes, bytes),
                filled(&mut self.told.bytes, bytes),
            ),
        }
    }

    /// The output, for the entry and for the call.
    fn outputs(&mut self, alloc: Global, output: &AgentOutput) -> (OutputForm, OutputForm)
        requires made { AreMade self.old }
        requires short { answer_bytes output.now ≤ 262148 }
        ensures outputs { (output_of result.0 ≡ output.now) × (output_of result.1 ≡ output.now) }
        ensures boxes { HasBoxes self.new }
    {
        match output {
            AgentOutput::Answer(frame) => {
                if same_bytes(frame.as_slice(), &FAILED) {
                    return (OutputForm::Failure, OutputForm::Failure);
                }
                if same_bytes(frame.as_slice(), &SUCCEEDED) {
                    return (OutputForm::Success, OutputForm::Success);
                }
                let (one, other) = self.twice(alloc, frame.as_slice());
                (OutputForm::Answer(one), OutputForm::Answer(other))
            }
            AgentOutput::AskRequest(message) => (
                OutputForm::AskRequest(*message),
                OutputForm::AskRequest(*message),
            ),
            AgentOutput::AskKey(blob) => {
                let (one, other) = self.twice(alloc, blob.as_slice());
                (OutputForm::AskKey(one), OutputForm::AskKey(other))
            }
            AgentOutput::Nothing => (OutputForm::Nothing, OutputForm::Nothing),
            AgentOutput::Closed(cause) => (OutputForm::Closed(*cause), OutputForm::Closed(*cause)),
        }
    }

    /// The entry and the call of an answer; `inputs` is what `make` returned for the input.
    pub(crate) fn entries(
        &mut self,
        alloc: Global,
        conn: u32,
        number: u32,
        moment: u64,
        _input: &AgentInput,
        inputs: (InputForm, InputForm),
        output: &AgentOutput,
    ) -> (KeptEntry, KeptCall)
        requires made { AreMade self.old }
        requires short { answer_bytes output.now ≤ 262148 }
        requires forms { (input_of inputs.0 ≡ _input.now) × (input_of inputs.1 ≡ _input.now) }
        ensures entry { result.0 ≡ entry_of conn number moment _input.now output.now }
        ensures call { result.1 ≡ call_of moment _input.now output.now }
    {
        let (kept, told) = self.outputs(alloc, output);
        let (input, theirs) = inputs;
        let entry = KeptCall {
            moment,
            form: Form::new(&mut self.kept.both, input, kept),
        };
        let call = KeptCall {
            moment,
            form: Form::new(&mut self.told.both, theirs, told),
        };
        (KeptEntry::new(conn, number, entry), call)
    }
}
