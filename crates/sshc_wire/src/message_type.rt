//! What an agent's client asks for, without the fields of its message.

/// The kind of a message to an agent.
#[derive(Clone, Copy, Debug, PartialEq, Eq)]
pub enum MessageType {
    RequestKeys = 0,
    AddKeys = 1,
    RemoveKeys = 2,
    RemoveAllKeys = 3,
    Sign = 4,
    Lock = 5,
    Unlock = 6,
}
