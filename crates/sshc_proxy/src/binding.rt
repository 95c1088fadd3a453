//! Bindings of sessions (OpenSSH's PROTOCOL.agent, section 1).

ghost use Rattle.std.specs.Prelude.{◌≡◌, IfOk, MatchResult, Ok, Err, Some, option_map};
ghost use Rattle.sshc_proxy.specs.Binding.{binding_in, binding_of, binding_seen, ended, fields_at, is_signed, signed_by};

use sshc_key::{Error, KeyData, PublicKey, Verifier, Verify, agent_msg, parse_whole_public_key};
use sshc_wire::{Cursor, NoMemory, WireError};
use std::alloc::Global;

/// The name of the extension.
const SESSION_BIND: &[u8] = b"session-bind@openssh.com";

/// A session that a client binds to its connection, as a frame has it.
#[derive(Clone, Copy)]
pub struct Binding<'a> {
    /// The blob of the server's host key.
    pub host_key: &'a [u8],
    pub session_id: &'a [u8],
    /// The host key's signature over the session's identifier.
    pub signature: &'a [u8],
    /// Whether the session forwards the agent, and isn't the one in which the user logs in.
    pub is_forwarding: bool,
}

/// Reads the fields after the extension's name.
#[tactic(auto, unfolding(crate::specs::Binding::fields_at))]
fn fields<'a>(c: &mut Cursor<'a>) -> Result<Binding<'a>, WireError>
    ensures { MatchResult result (λ b. fields_at c.old ≡ Ok (binding_seen b, c.new)) (λ e. fields_at c.old ≡ Err e) }
{
    let host_key = c.bytes()?;
    let session_id = c.bytes()?;
    let signature = c.bytes()?;
    let is_forwarding = c.boolean()?;
    Ok(Binding {
        host_key,
        session_id,
        signature,
        is_forwarding,
    })
}

/// The fields, if nothing follows them.
fn whole(body: &[u8]) -> Option<Binding<'_>>
    ensures { option_map binding_seen result ≡ ended (fields_at body.now) }
{
    let mut c = Cursor::new(body);
    match fields(&mut c) {
        Ok(binding) => {
            if c.rest().is_empty() {
                Some(binding)
            } else {
                None
            }
        }
        Err(_) => None,
    }
}

/// The binding in an extension's message, after its number.
#[tactic(auto, unfolding(crate::specs::Binding::binding_in))]
pub(crate) fn binding_in(body: &[u8]) -> Option<Binding<'_>>
    ensures { option_map binding_seen result ≡ binding_in body.now }
{
    let mut c = Cursor::new(body);
    match c.bytes() {
        Ok(name) => {
            if name == SESSION_BIND {
                whole(c.rest())
            } else {
                None
            }
        }
        Err(_) => None,
    }
}

/// The binding in a frame, without its length. `None` if it is no EXTENSION with this name and these fields and nothing
/// more.
pub fn binding_of(frame: &[u8]) -> Option<Binding<'_>>
    ensures { option_map binding_seen result ≡ binding_of frame.now }
{
    match frame {
        [agent_msg::EXTENSION, body @ ..] => binding_in(body),
        _ => None,
    }
}

/// Whether the key is plain, and the bytes are one whole signature of it over the session's identifier.
fn is_signed_by<V: Verifier>(
    key: &PublicKey,
    session_id: &[u8],
    signature: &[u8],
    verifier: &V,
) -> Result<bool, NoMemory>
    ensures { IfOk result
        (λ yes. yes ≡ signed_by (V.accepts verifier.now) (Some key.now.0) session_id.now signature.now) }
{
    match &key.key {
        KeyData::Certificate(certificate) => {
            let _ = certificate.is_certificate();
            Ok(false)
        }
        _ => key.verify_server_auth(verifier, session_id, signature),
    }
}

/// Whether the binding's host key is one plain key, and its signature is that key's.
#[tactic(auto, unfolding(crate::specs::Binding::is_signed))]
pub fn is_signed<V: Verifier>(
    alloc: Global,
    binding: &Binding<'_>,
    verifier: &V,
) -> Result<bool, NoMemory>
    ensures { IfOk result (λ yes. yes ≡ is_signed (V.accepts verifier.now) (binding_seen binding.now)) }
{
    match parse_whole_public_key(alloc, binding.host_key) {
        Ok(key) => is_signed_by(&key, binding.session_id, binding.signature, verifier),
        Err(Error::NoMemory) => Err(NoMemory),
        Err(_) => Ok(false),
    }
}
