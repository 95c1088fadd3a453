//! Messages to an agent by their numbers (draft-miller-ssh-agent, section 5.1).

ghost use Rattle.std.specs.Prelude.{◌≡◌};
ghost use Rattle.sshc_agent_core.specs.Messages.{message_of};

use sshc_key::agent_msg;
use sshc_wire::MessageType;

/// The kind of the message with this number; `None` for a message that the agent doesn't know.
#[tactic(auto, unfolding(crate::specs::Messages::message_of))]
pub fn message_type(number: u8) -> Option<MessageType>
    ensures { result ≡ message_of number }
{
    match number {
        agent_msg::REQUEST_IDENTITIES => Some(MessageType::RequestKeys),
        agent_msg::SIGN_REQUEST => Some(MessageType::Sign),
        agent_msg::ADD_IDENTITY => Some(MessageType::AddKeys),
        agent_msg::REMOVE_IDENTITY => Some(MessageType::RemoveKeys),
        agent_msg::REMOVE_ALL_IDENTITIES => Some(MessageType::RemoveAllKeys),
        agent_msg::LOCK => Some(MessageType::Lock),
        agent_msg::UNLOCK => Some(MessageType::Unlock),
        agent_msg::ADD_ID_CONSTRAINED => Some(MessageType::AddKeys),
        _ => None,
    }
}
