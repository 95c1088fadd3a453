//! Reads what an agent reports.

ghost use Rattle.std.specs.Prelude.{◌≡◌, Ok, IfOk};
ghost use Rattle.sshc_wire.specs.RecordReads.{answer_by, fault_of, message_of};

use crate::agent_record::{AgentFault, AgentRecord};
use crate::cursor::Cursor;
use crate::error::RecordError;
use crate::message_type::MessageType;
use crate::reading::part::read_octets;
use std::alloc::Global;

/// The kind of an agent's message.
fn message_of(number: u8) -> Result<MessageType, RecordError>
    ensures { IfOk result (λ m. m ≡ message_of number) }
{
    match number {
        0 => Ok(MessageType::RequestKeys),
        1 => Ok(MessageType::AddKeys),
        2 => Ok(MessageType::RemoveKeys),
        3 => Ok(MessageType::RemoveAllKeys),
        4 => Ok(MessageType::Sign),
        5 => Ok(MessageType::Lock),
        6 => Ok(MessageType::Unlock),
        _ => Err(RecordError::NotARecord),
    }
}

fn fault_of(number: u8) -> Result<AgentFault, RecordError>
    ensures { IfOk result (λ f. f ≡ fault_of number) }
{
    match number {
        1 => Ok(AgentFault::TooLong),
        2 => Ok(AgentFault::Unreadable),
        3 => Ok(AgentFault::SignerRefused),
        _ => Err(RecordError::NotARecord),
    }
}

/// What the record of this number reports, after its connection.
pub(super) fn read_answer(
    alloc: Global,
    number: u8,
    c: &mut Cursor<'_>,
) -> Result<AgentRecord, RecordError>
    ensures { IfOk result (λ a. answer_by number c.old ≡ Ok (a, c.new)) }
{
    match number {
        0x40 => Ok(AgentRecord::Answer(read_octets(alloc, c)?)),
        0x41 => Ok(AgentRecord::AskRequest(message_of(c.u8()?)?)),
        0x42 => Ok(AgentRecord::AskKey(read_octets(alloc, c)?)),
        0x43 => Ok(AgentRecord::Closed(fault_of(c.u8()?)?)),
        _ => Err(RecordError::NotARecord),
    }
}
