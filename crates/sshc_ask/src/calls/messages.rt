//! The messages of all calls except sign requests (draft-miller-ssh-agent, section 3; OpenSSH's PROTOCOL.agent, section
//! 1).

ghost use Rattle.std.specs.Prelude.{◌≡◌, ◌∷◌, ◌++◌, IfOk};
ghost use Rattle.sshc_wire.specs.Wire.{string_text};
ghost use Rattle.sshc_ask.specs.AgentCalls.Frames.{message, add_identity, add_smartcard_key, bind_session, extension};
ghost use Rattle.sshc_ask.specs.AgentCalls.Frames.{lock, query_extension, remove_identity, remove_smartcard_key};
ghost use Rattle.sshc_ask.specs.AgentCalls.Frames.{unlock};

use crate::message::Message;
use sshc_key::{
    AgentSessionBinding, Constraint, PrivateKey, PublicKey, PublicKeyBase64, agent_msg,
};
use sshc_wire::NoMemory;
use std::alloc::Global;

pub(super) fn session_bind(
    alloc: Global,
    binding: &AgentSessionBinding,
    forwarding: bool,
) -> Result<Message, NoMemory>
    ensures { IfOk result (λ m. m ≡ message (bind_session binding.now forwarding)) }
{
    let mut written = Message::new(alloc, agent_msg::EXTENSION)?;
    written.string(b"session-bind@openssh.com")?;
    written.string(binding.host_key())?;
    written.string(binding.session_id())?;
    written.string(binding.signature())?;
    written.flag(forwarding)?;
    Ok(written)
}

pub(super) fn addition(
    alloc: Global,
    key: &PrivateKey,
    constraints: &[Constraint],
) -> Result<Message, NoMemory>
    ensures { IfOk result (λ m. m ≡ message (add_identity key.now constraints.now)) }
{
    let number = match constraints {
        [] => agent_msg::ADD_IDENTITY,
        _ => agent_msg::ADD_ID_CONSTRAINED,
    };
    let mut written = Message::new(alloc, number)?;
    written.pair(key)?;
    written.string(b"")?;
    written.constraints(constraints)?;
    Ok(written)
}

/// The number, the card's name and its PIN.
fn smartcard(alloc: Global, number: u8, id: &str, pin: &[u8]) -> Result<Message, NoMemory>
    ensures { IfOk result (λ m. m ≡ number ∷ (string_text id.now ++ string_text pin.now)) }
{
    let mut written = Message::new(alloc, number)?;
    written.string(id.as_bytes())?;
    written.string(pin)?;
    Ok(written)
}

pub(super) fn smartcard_addition(
    alloc: Global,
    id: &str,
    pin: &[u8],
    constraints: &[Constraint],
) -> Result<Message, NoMemory>
    ensures { IfOk result (λ m. m ≡ message (add_smartcard_key id.now pin.now constraints.now)) }
{
    match constraints {
        [] => smartcard(alloc, agent_msg::ADD_SMARTCARD_KEY, id, pin),
        _ => {
            let mut written = smartcard(alloc, agent_msg::ADD_SMARTCARD_KEY_CONSTRAINED, id, pin)?;
            written.counted_constraints(constraints)?;
            Ok(written)
        }
    }
}

pub(super) fn smartcard_removal(alloc: Global, id: &str, pin: &[u8]) -> Result<Message, NoMemory>
    ensures { IfOk result (λ m. m ≡ message (remove_smartcard_key id.now pin.now)) }
{
    smartcard(alloc, agent_msg::REMOVE_SMARTCARD_KEY, id, pin)
}

pub(super) fn locking(alloc: Global, passphrase: &[u8]) -> Result<Message, NoMemory>
    ensures { IfOk result (λ m. m ≡ message (lock passphrase.now)) }
{
    let mut written = Message::new(alloc, agent_msg::LOCK)?;
    written.string(passphrase)?;
    Ok(written)
}

pub(super) fn unlocking(alloc: Global, passphrase: &[u8]) -> Result<Message, NoMemory>
    ensures { IfOk result (λ m. m ≡ message (unlock passphrase.now)) }
{
    let mut written = Message::new(alloc, agent_msg::UNLOCK)?;
    written.string(passphrase)?;
    Ok(written)
}

pub(super) fn removal(alloc: Global, public: &PublicKey) -> Result<Message, NoMemory>
    ensures { IfOk result (λ m. m ≡ message (remove_identity public.now.0)) }
{
    let mut written = Message::new(alloc, agent_msg::REMOVE_IDENTITY)?;
    written.string(&public.public_key_bytes()?)?;
    Ok(written)
}

pub(super) fn extending(alloc: Global, typ: &[u8], ext: &[u8]) -> Result<Message, NoMemory>
    ensures { IfOk result (λ m. m ≡ message (extension typ.now ext.now)) }
{
    let mut written = Message::new(alloc, agent_msg::EXTENSION)?;
    written.string(typ)?;
    written.string(ext)?;
    Ok(written)
}

pub(super) fn querying(alloc: Global, typ: &[u8]) -> Result<Message, NoMemory>
    ensures { IfOk result (λ m. m ≡ message (query_extension typ.now)) }
{
    let mut written = Message::new(alloc, agent_msg::EXTENSION)?;
    written.string(typ)?;
    Ok(written)
}
