//! The other packets of authentication, and the disconnection.

ghost use Rattle.std.specs.Prelude.{◌≡◌, ◌<◌, ◌^◌, length, IfOk};
ghost use Rattle.sshc_auth_request.specs.RequestTexts.{service_request, info_response, gssapi_token, gssapi_complete};
ghost use Rattle.sshc_auth_request.specs.RequestTexts.{gssapi_mic, disconnect};

use crate::parts::{put_texts, texts_size};
use sshc_wire::{
    Disconnect, List, NoMemory, Octets, Text, msg, put_bytes, put_text, put_u32, string_size,
};
use std::alloc::Global;

/// How many bytes SERVICE_REQUEST has: its number and the service as a string.
const SERVICE_REQUEST: usize = 17;

/// How many bytes a disconnection has before its texts: its number and the reason.
const DISCONNECT_HEAD: usize = 5;

/// The request to begin authentication (RFC 4253, section 10).
#[tactic(auto, using(std::proofs::lemmas::List::append_assoc), unfolding(crate::specs::RequestTexts::service_request))]
pub fn service_request_packet(alloc: Global) -> Result<Octets, NoMemory>
    ensures { IfOk result (λ packet. packet ≡ service_request) }
{
    let mut packet = Vec::with_capacity(alloc, SERVICE_REQUEST)?;
    packet.push(msg::SERVICE_REQUEST)?;
    put_text(&mut packet, "ssh-userauth")?;
    Octets::from_vec(packet)
}

/// The answers to prompts (RFC 4256, section 3.4).
#[tactic(auto, using(std::proofs::lemmas::List::append_assoc), unfolding(crate::specs::RequestTexts::info_response))]
pub fn info_response_packet(alloc: Global, responses: &List<Text>) -> Result<Octets, NoMemory>
    ensures { IfOk result (λ packet. packet ≡ info_response responses.now) }
{
    let mut packet = Vec::with_capacity(alloc, texts_size(responses).saturating_add(1))?;
    packet.push(msg::USERAUTH_INFO_RESPONSE)?;
    put_texts(&mut packet, responses)?;
    Octets::from_vec(packet)
}

/// A GSSAPI token (RFC 4462, section 3.4).
#[tactic(auto, using(std::proofs::lemmas::List::append_assoc), unfolding(crate::specs::RequestTexts::gssapi_token))]
pub fn gssapi_token_packet(alloc: Global, token: &[u8]) -> Result<Octets, NoMemory>
    requires { length token.now < 2 ^ 32 }
    ensures { IfOk result (λ packet. packet ≡ gssapi_token token.now) }
{
    let mut packet = Vec::with_capacity(alloc, string_size(token.len()).saturating_add(1))?;
    packet.push(msg::USERAUTH_GSSAPI_TOKEN)?;
    put_bytes(&mut packet, token)?;
    Octets::from_vec(packet)
}

/// The end of GSSAPI without a MIC (RFC 4462, section 3.5).
pub fn gssapi_complete_packet(alloc: Global) -> Result<Octets, NoMemory>
    ensures { IfOk result (λ packet. packet ≡ gssapi_complete) }
{
    let mut packet = Vec::with_capacity(alloc, 1)?;
    packet.push(msg::USERAUTH_GSSAPI_EXCHANGE_COMPLETE)?;
    Octets::from_vec(packet)
}

/// The MIC (RFC 4462, section 3.5).
#[tactic(auto, using(std::proofs::lemmas::List::append_assoc), unfolding(crate::specs::RequestTexts::gssapi_mic))]
pub fn gssapi_mic_packet(alloc: Global, mic: &[u8]) -> Result<Octets, NoMemory>
    requires { length mic.now < 2 ^ 32 }
    ensures { IfOk result (λ packet. packet ≡ gssapi_mic mic.now) }
{
    let mut packet = Vec::with_capacity(alloc, string_size(mic.len()).saturating_add(1))?;
    packet.push(msg::USERAUTH_GSSAPI_MIC)?;
    put_bytes(&mut packet, mic)?;
    Octets::from_vec(packet)
}

/// A disconnection (RFC 4253, section 11.1).
#[tactic(auto, using(std::proofs::lemmas::List::append_assoc), unfolding(crate::specs::RequestTexts::disconnect))]
pub fn disconnect_packet(
    alloc: Global,
    reason: Disconnect,
    description: &Text,
    language: &Text,
) -> Result<Octets, NoMemory>
    ensures { IfOk result (λ packet. packet ≡ disconnect reason description.now language.now) }
{
    let (description, language) = (description.as_str(), language.as_str());
    let size = string_size(description.len()).saturating_add(string_size(language.len()));
    let mut packet = Vec::with_capacity(alloc, size.saturating_add(DISCONNECT_HEAD))?;
    packet.push(msg::DISCONNECT)?;
    put_u32(&mut packet, reason.code())?;
    put_text(&mut packet, description)?;
    put_text(&mut packet, language)?;
    Octets::from_vec(packet)
}
