//! Requests to authenticate (RFC 4252, section 5).

ghost use Rattle.std.specs.Prelude.{◌≡◌, ◌<◌, ◌^◌, [], ◌∷◌, ◌++◌, length, codes, IfOk, OnErr, OnOk};
ghost use Rattle.sshc_wire.specs.Wire.{string_text};
ghost use Rattle.sshc_key.specs.KeyGrammar.{key_text};
ghost use Rattle.sshc_key.specs.LentNames.{spelled};
ghost use Rattle.sshc_auth_request.specs.KeyParts.{key_lent};
ghost use Rattle.sshc_auth_request.specs.RequestTexts.{request, request_head, counted_strings, key_part};

use crate::parts::{
    KeyPart, certificate_part, head_size, key_part, octets_size, put_head, put_key_method,
    put_octets,
};
use sshc_auth_event::Method;
use sshc_key::{Certificate, HashAlg, PublicKey};
use sshc_wire::{List, NoMemory, Octets, Text, put_bytes, put_text, string_size};
use std::alloc::Global;

/// How many bytes the name of no method takes.
const NONE: usize = 8;

/// How many bytes a request with a password has after the service beside the password: the method's name and a flag.
const PASSWORD: usize = 13;

/// How many bytes a request for prompts has after the service beside the submethods: the method's name and no language.
const KEYBOARD_INTERACTIVE: usize = 28;

/// How many bytes the name of the method by GSSAPI takes.
const GSSAPI: usize = 19;

/// Writes a request by key, which asks whether the server would accept the key.
#[tactic(auto, using(std::proofs::lemmas::List::append_assoc))]
fn put_probe(out: &mut Vec<u8>, user: &str, part: &KeyPart<'_>) -> Result<(), NoMemory>
    requires { length user.now < 2 ^ 32 }
    ensures { OnOk result
        (out.new.items
        ≡ out.old.items ++ request_head user.now ++ string_text (codes "publickey")
        ++ (0 ∷ string_text (spelled part.now.algorithm)) ++ string_text (key_text (key_lent part.now.key))) }
{
    out.reserve(head_size(user).saturating_add(part.size()))?;
    put_head(out, user)?;
    put_key_method(out, 0, part)
}

/// Asks whether the server would accept a key.
fn put_key_request(
    out: &mut Vec<u8>,
    user: &str,
    key: &PublicKey,
    hash: Option<HashAlg>,
) -> Result<(), NoMemory>
    requires { length user.now < 2 ^ 32 }
    ensures { OnOk result (out.new.items ≡ out.old.items ++ request_head user.now ++ key_part 0 key.now.0 hash) }
{
    let part = key_part(key, hash);
    put_probe(out, user, &part)
}

/// Asks whether the server would accept a certificate.
fn put_certificate_request(
    out: &mut Vec<u8>,
    user: &str,
    certificate: &Certificate,
    hash: Option<HashAlg>,
) -> Result<(), NoMemory>
    requires { length user.now < 2 ^ 32 }
    ensures { OnOk result (out.new.items ≡ out.old.items ++ request_head user.now ++ key_part 0 certificate.now hash) }
{
    let part = certificate_part(certificate, hash);
    put_probe(out, user, &part)
}

/// Asks for no method, for which the server names its own.
#[tactic(auto, using(std::proofs::lemmas::List::append_assoc))]
fn put_none_request(out: &mut Vec<u8>, user: &str) -> Result<(), NoMemory>
    requires { length user.now < 2 ^ 32 }
    ensures { OnOk result (out.new.items ≡ out.old.items ++ request_head user.now ++ string_text (codes "none")) }
{
    out.reserve(head_size(user).saturating_add(NONE))?;
    put_head(out, user)?;
    put_text(out, "none")
}

/// Asks with a password, which isn't a new one (RFC 4252, section 8).
#[tactic(auto, using(std::proofs::lemmas::List::append_assoc))]
fn put_password_request(out: &mut Vec<u8>, user: &str, password: &Text) -> Result<(), NoMemory>
    requires { length user.now < 2 ^ 32 }
    ensures { OnOk result
        (out.new.items
        ≡ out.old.items ++ request_head user.now ++ string_text (codes "password") ++ 0 ∷ string_text password.now) }
{
    let method = string_size(password.as_str().len()).saturating_add(PASSWORD);
    out.reserve(head_size(user).saturating_add(method))?;
    put_head(out, user)?;
    put_text(out, "password")?;
    out.push(0)?;
    put_text(out, password.as_str())
}

/// Writes the empty string.
fn put_empty(out: &mut Vec<u8>) -> Result<(), NoMemory>
    ensures { OnOk result (out.new.items ≡ out.old.items ++ string_text []) }
{
    put_bytes(out, b"".as_slice())
}

/// The method `keyboard-interactive`, in any language (RFC 4256, section 3.1).
#[tactic(auto, using(std::proofs::lemmas::List::append_assoc))]
fn put_keyboard_interactive(out: &mut Vec<u8>, submethods: &Text) -> Result<(), NoMemory>
    ensures { OnOk result
        (out.new.items ≡ out.old.items
        ++ (string_text (codes "keyboard-interactive") ++ string_text [] ++ string_text submethods.now)) }
{
    put_text(out, "keyboard-interactive")?;
    put_empty(out)?;
    put_text(out, submethods.as_str())?;
    Ok(())
}

/// Asks for prompts.
#[tactic(auto, using(std::proofs::lemmas::List::append_assoc))]
fn put_keyboard_interactive_request(
    out: &mut Vec<u8>,
    user: &str,
    submethods: &Text,
) -> Result<(), NoMemory>
    requires { length user.now < 2 ^ 32 }
    ensures { OnOk result
        (out.new.items
        ≡ out.old.items ++ request_head user.now ++ (string_text (codes "keyboard-interactive") ++ string_text []
        ++ string_text submethods.now)) }
{
    let method = string_size(submethods.as_str().len()).saturating_add(KEYBOARD_INTERACTIVE);
    out.reserve(head_size(user).saturating_add(method))?;
    put_head(out, user)?;
    put_keyboard_interactive(out, submethods)
}

/// The method `gssapi-with-mic` with these mechanisms (RFC 4462, section 3.2).
#[tactic(auto, using(std::proofs::lemmas::List::append_assoc))]
fn put_gssapi(out: &mut Vec<u8>, mechanism_oids: &List<Octets>) -> Result<(), NoMemory>
    ensures { OnOk result
        (out.new.items ≡ out.old.items
        ++ (string_text (codes "gssapi-with-mic") ++ counted_strings mechanism_oids.now)) }
{
    put_text(out, "gssapi-with-mic")?;
    put_octets(out, mechanism_oids)?;
    Ok(())
}

/// Asks for GSSAPI by these mechanisms.
#[tactic(auto, using(std::proofs::lemmas::List::append_assoc))]
fn put_gssapi_request(
    out: &mut Vec<u8>,
    user: &str,
    mechanism_oids: &List<Octets>,
) -> Result<(), NoMemory>
    requires { length user.now < 2 ^ 32 }
    ensures { OnOk result
        (out.new.items
        ≡ out.old.items ++ request_head user.now ++ (string_text (codes "gssapi-with-mic")
        ++ counted_strings mechanism_oids.now)) }
{
    let method = octets_size(mechanism_oids).saturating_add(GSSAPI);
    out.reserve(head_size(user).saturating_add(method))?;
    put_head(out, user)?;
    put_gssapi(out, mechanism_oids)
}

/// Writes the request by which a user asks for a method. After an error it may be written in part.
#[tactic(auto, unfolding(crate::specs::RequestTexts::request))]
fn put_request(out: &mut Vec<u8>, user: &str, m: &Method) -> Result<(), NoMemory>
    requires { length user.now < 2 ^ 32 }
    ensures { OnOk result (out.new.items ≡ out.old.items ++ request user.now m.now) }
{
    match m {
        Method::None => put_none_request(out, user),
        Method::Password { password } => put_password_request(out, user, password),
        Method::PublicKey { key } => put_key_request(
            out,
            user,
            key.key().public_key(),
            key.hash_alg(),
        ),
        Method::OpenSshCertificate { cert, .. } => put_certificate_request(out, user, cert, None),
        Method::FuturePublicKey { key, hash_alg } => put_key_request(out, user, key, *hash_alg),
        Method::FutureCertificate { cert, hash_alg } => put_certificate_request(
            out, user, cert, *hash_alg,
        ),
        Method::KeyboardInteractive { submethods } => put_keyboard_interactive_request(
            out, user, submethods,
        ),
        Method::GssapiWithMic { mechanism_oids } => put_gssapi_request(out, user, mechanism_oids),
    }
}

/// Writes the request by which a user asks for a method (RFC 4252, section 5), or nothing.
pub fn write_auth_request(out: &mut Vec<u8>, user: &str, m: &Method) -> Result<(), NoMemory>
    requires { length user.now < 2 ^ 32 }
    ensures written { OnOk result (out.new.items ≡ out.old.items ++ request user.now m.now) }
    ensures refused { OnErr result (out.new.items ≡ out.old.items) }
{
    let mut packet = Vec::new(*out.allocator());
    put_request(&mut packet, user, m)?;
    out.extend_from_slice(&packet)?;
    Ok(())
}

/// The packet of a user's request.
pub fn request_packet(alloc: Global, user: &Text, method: &Method) -> Result<Octets, NoMemory>
    ensures { IfOk result (λ packet. packet ≡ request user.now method.now) }
{
    let mut packet = Vec::new(alloc);
    put_request(&mut packet, user.as_str(), method)?;
    Octets::from_vec(packet)
}
