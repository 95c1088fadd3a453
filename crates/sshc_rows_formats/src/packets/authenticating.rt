//! Packets of the authentication that are written.

use super::print_packet;
use crate::files::let_go;
use sshc_auth_event::Method;
use sshc_auth_request::{
    disconnect_packet, gssapi_complete_packet, gssapi_mic_packet, gssapi_token_packet,
    info_response_packet, key_part, mic_data, part_to_sign, request_packet, service_request_packet,
    signed_packet,
};
use sshc_key::{Error, parse_public_key_base64};
use sshc_wire::{Disconnect, List, NoMemory, Octets, Text};
use std::alloc::Global;

/// A key of the bytes 0 to 31.
pub const KEY: &str = "AAAAC3NzaC1lZDI1NTE5AAAAIAABAgMEBQYHCAkKCwwNDg8QERITFBUWFxgZGhscHR4f";

/// A certificate for it, of two principals, an option and an extension.
pub const CERTIFICATE: &str =
    "AAAAIHNzaC1lZDI1NTE5LWNlcnQtdjAxQG9wZW5zc2guY29tAAAABW5vbmNlAAAAIAABAgMEBQYHCAkKCwwNDg8QERITFBUWFxgZGhscHR4fAAAAA\
        AAAAAcAAAABAAAAAmlkAAAAEQAAAAVhbGljZQAAAARyb290AAAAAAAAAAD//////////wAAABsAAAANZm9yY2UtY29tbWFuZAAAAAYAAAACbHM\
        AAAASAAAACnBlcm1pdC1wdHkAAAAAAAAAAAAAADMAAAALc3NoLWVkMjU1MTkAAAAgICEiIyQlJicoKSorLC0uLzAxMjM0NTY3ODk6Ozw9Pj8AA\
        ABTAAAAC3NzaC1lZDI1NTE5AAAAQEBBQkNERUZHSElKS0xNTk9QUVJTVFVWV1hZWltcXV5fYGFiY2RlZmdoaWprbG1ub3BxcnN0dXZ3eHl6e3x\
        9fn8=";

/// The packets, in the order in which they are printed.
const NAMES: [&str; 16] = [
    "none",
    "password",
    "keyboard-interactive",
    "gssapi",
    "to-sign",
    "to-sign-certificate",
    "signed",
    "signed-certificate",
    "service-request",
    "info-response",
    "no-answers",
    "gssapi-token",
    "gssapi-complete",
    "gssapi-mic",
    "mic-data",
    "disconnect",
];

fn words(alloc: Global, texts: &[&str]) -> Result<List<Text>, NoMemory> {
    let mut all = List::new(alloc);
    for text in texts {
        all.push(Text::from_str(alloc, text)?)?;
    }
    Ok(all)
}

/// Two mechanisms, of which the second is empty.
fn mechanisms(alloc: Global) -> Result<List<Octets>, NoMemory> {
    let mut oids = List::new(alloc);
    for oid in [b"\x06\x01a".as_slice(), b"".as_slice()] {
        oids.push(Octets::from_slice(alloc, oid)?)?;
    }
    Ok(oids)
}

/// A method without a key, by its name in the table.
fn method(alloc: Global, name: &str) -> Result<Method, NoMemory> {
    match name {
        "none" => Ok(Method::None),
        "password" => {
            let password = Text::from_str(alloc, "secret")?;
            Ok(Method::Password { password })
        }
        "keyboard-interactive" => {
            let submethods = Text::from_str(alloc, "pam")?;
            Ok(Method::KeyboardInteractive { submethods })
        }
        _ => {
            let mechanism_oids = mechanisms(alloc)?;
            Ok(Method::GssapiWithMic { mechanism_oids })
        }
    }
}

/// A request without a key.
fn request(alloc: Global, name: &str) -> Result<Octets, NoMemory> {
    let user = Text::from_str(alloc, "alice")?;
    let method = method(alloc, name)?;
    let packet = request_packet(alloc, &user, &method);
    let_go(method);
    packet
}

/// The bytes that are signed for a key or a certificate.
fn to_sign(alloc: Global, base64: &str) -> Result<Octets, Error> {
    let key = parse_public_key_base64(alloc, base64)?;
    let bytes = part_to_sign(alloc, b"id".as_slice(), "alice", &key_part(&key, None));
    let_go(key);
    Ok(Octets::from_vec(bytes?)?)
}

/// A request by a key or a certificate, with a signature.
fn signed(alloc: Global, base64: &str) -> Result<Octets, Error> {
    let key = parse_public_key_base64(alloc, base64)?;
    let packet = signed_packet(
        alloc,
        "alice",
        &key_part(&key, None),
        b"signature".as_slice(),
    );
    let_go(key);
    Ok(packet?)
}

/// Answers to prompts.
fn answers(alloc: Global, texts: &[&str]) -> Result<Octets, NoMemory> {
    let answers = words(alloc, texts)?;
    info_response_packet(alloc, &answers)
}

fn mic_bytes(alloc: Global) -> Result<Octets, NoMemory> {
    let bytes = mic_data(alloc, b"id".as_slice(), "alice")?;
    Octets::from_vec(bytes)
}

fn disconnection(alloc: Global) -> Result<Octets, NoMemory> {
    let description = Text::from_str(alloc, "bye")?;
    let language = Text::from_str(alloc, "en")?;
    disconnect_packet(alloc, Disconnect::ByApplication, &description, &language)
}

/// A packet without a key, by its name in the table.
fn plain_packet(alloc: Global, name: &str) -> Result<Octets, NoMemory> {
    match name {
        "service-request" => service_request_packet(alloc),
        "info-response" => answers(alloc, &["one", ""]),
        "no-answers" => answers(alloc, &[]),
        "gssapi-token" => gssapi_token_packet(alloc, b"token".as_slice()),
        "gssapi-complete" => gssapi_complete_packet(alloc),
        "gssapi-mic" => gssapi_mic_packet(alloc, b"mic".as_slice()),
        "mic-data" => mic_bytes(alloc),
        "disconnect" => disconnection(alloc),
        _ => request(alloc, name),
    }
}

/// A packet by its name in the table.
fn packet(alloc: Global, name: &str) -> Result<Octets, Error> {
    match name {
        "to-sign" => to_sign(alloc, KEY),
        "to-sign-certificate" => to_sign(alloc, CERTIFICATE),
        "signed" => signed(alloc, KEY),
        "signed-certificate" => signed(alloc, CERTIFICATE),
        _ => Ok(plain_packet(alloc, name)?),
    }
}

pub fn print_packets(rt: &HostRuntime) -> anyhow::Result<()> {
    for name in NAMES {
        print_packet(rt, name, packet(rt.alloc(), name)?)?;
    }
    Ok(())
}
