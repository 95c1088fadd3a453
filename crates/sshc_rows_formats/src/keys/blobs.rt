//! What must hold of a blob in the grammar: it is read whole and written back, and no front of it is read.

use crate::files::let_go;
use sshc_key::{
    EcdsaCurve, Error, KeyData, PublicKey, PublicKeyBase64, PublicKeyExt, Signature,
    parse_public_key, parse_public_key_base64, parse_whole_public_key, read_key_pair,
    read_signature, write_key_pair,
};
use sshc_wire::{Cursor, NoMemory, put_bytes, put_text, put_u32};
use std::alloc::{AllocError, Global};

/// What is printed of a blob that was read and written back, after the shape of a key.
pub fn read_and_written(alloc: Global, shape: &str, blob: &[u8]) -> anyhow::Result<String> {
    let semicolon = if shape.is_empty() { "" } else { "; " };
    Ok(format!(in alloc;
        "{shape}{semicolon}{} bytes are read and written back, and their fronts are refused",
        blob.len()
    )?)
}

fn curve_name(curve: EcdsaCurve) -> &'static str {
    match curve {
        EcdsaCurve::NistP256 => "nistp256",
        EcdsaCurve::NistP384 => "nistp384",
        EcdsaCurve::NistP521 => "nistp521",
    }
}

/// The kind of a key, and how many bytes its fields have.
fn shape(alloc: Global, key: &KeyData) -> Result<String, AllocError> {
    match key {
        KeyData::Dsa { p, q, g, y } => format!(in alloc;
            "dsa p {} q {} g {} y {}",
            p.as_slice().len(),
            q.as_slice().len(),
            g.as_slice().len(),
            y.as_slice().len()
        ),
        KeyData::Ecdsa { curve, point } => format!(in alloc;
            "ecdsa {} point {}",
            curve_name(*curve),
            point.as_slice().len()
        ),
        KeyData::Ed25519 { public } => format!(in alloc;
            "ed25519 public {}",
            public.as_slice().len()
        ),
        KeyData::Rsa { e, n } => {
            format!(in alloc; "rsa e {} n {}", e.as_slice().len(), n.as_slice().len())
        }
        KeyData::SkEcdsaSha2NistP256 { point, application } => format!(in alloc;
            "sk-ecdsa point {} application {}",
            point.as_slice().len(),
            application.as_str()
        ),
        KeyData::SkEd25519 {
            public,
            application,
        } => format!(in alloc;
            "sk-ed25519 public {} application {}",
            public.as_slice().len(),
            application.as_str()
        ),
        KeyData::Other { name, body } => {
            format!(in alloc; "{} body {}", name.as_str(), body.as_slice().len())
        }
        KeyData::Certificate(_) => String::from_str(alloc, "certificate"),
    }
}

/// The shape of the key that is this blob.
pub fn shape_of(alloc: Global, blob: &[u8]) -> anyhow::Result<String> {
    let key = parse_whole_public_key(alloc, blob)?;
    let shape = shape(alloc, &key.key);
    let_go(key);
    Ok(shape?)
}

fn is_certificate(key: &PublicKey) -> bool {
    match &key.key {
        KeyData::Certificate(certificate) => certificate.is_certificate(),
        _ => false,
    }
}

fn is_read_from_text(alloc: Global, key: &PublicKey, base64: &str) -> bool {
    match parse_public_key_base64(alloc, base64) {
        Ok(read) => read == *key,
        Err(_) => false,
    }
}

fn is_read_from_front(alloc: Global, key: &PublicKey, blob: &[u8]) -> bool {
    match PublicKey::decode(alloc, blob) {
        Ok(read) => read == *key,
        Err(_) => false,
    }
}

fn is_written_as(key: &PublicKey, blob: &[u8], base64: &str) -> Result<bool, NoMemory> {
    let bytes = key.public_key_bytes()?;
    let text = key.public_key_base64()?;
    Ok(bytes.as_slice() == blob && text.as_str() == base64)
}

/// Whether the key is this blob and base64, and is read from them by each call.
fn is_this_key(alloc: Global, key: &PublicKey, blob: &[u8], base64: &str) -> bool {
    is_written_as(key, blob, base64) == Ok(true)
        && is_read_from_text(alloc, key, base64)
        && is_read_from_front(alloc, key, blob)
}

/// Whether the blob is a key, or a certificate, with this base64.
fn is_key_blob(alloc: Global, blob: &[u8], base64: &str, certificate: bool) -> bool {
    match parse_whole_public_key(alloc, blob) {
        Ok(key) => is_certificate(&key) == certificate && is_this_key(alloc, &key, blob, base64),
        Err(_) => false,
    }
}

fn no_front_is_a_key(alloc: Global, blob: &[u8]) -> bool {
    for length in 0..blob.len() {
        let read = parse_whole_public_key(alloc, &blob[..length]);
        if read.err() != Some(Error::SshKey) {
            return false;
        }
    }
    true
}

/// Whether the blob is a key, or a certificate, with this base64, and no front of it is one.
pub fn is_key(alloc: Global, blob: &[u8], base64: &str, certificate: bool) -> bool {
    is_key_blob(alloc, blob, base64, certificate) && no_front_is_a_key(alloc, blob)
}

/// The bytes of the key at the front, as they are written.
pub fn key_bytes(alloc: Global, blob: &[u8]) -> Result<Vec<u8>, Error> {
    let key = parse_public_key(alloc, blob)?;
    let bytes = key.public_key_bytes();
    let_go(key);
    Ok(bytes?)
}

/// The bytes of a signature, by the wire's own calls.
fn signature_bytes(alloc: Global, signature: &Signature) -> Result<Vec<u8>, NoMemory> {
    let mut out = Vec::new(alloc);
    put_text(&mut out, signature.name.as_str())?;
    put_bytes(&mut out, signature.body.as_slice())?;
    if let Some(sk) = signature.sk {
        out.push(sk.flags)?;
        put_u32(&mut out, sk.counter)?;
    }
    Ok(out)
}

fn no_front_is_a_signature(alloc: Global, blob: &[u8]) -> bool {
    for length in 0..blob.len() {
        let read = read_signature(alloc, &mut Cursor::new(&blob[..length]));
        if read.err() != Some(Error::SshEncoding) {
            return false;
        }
    }
    true
}

/// Whether the blob is one signature and is written back as the same bytes.
fn is_signature_blob(alloc: Global, blob: &[u8]) -> Result<bool, Error> {
    let mut c = Cursor::new(blob);
    let signature = read_signature(alloc, &mut c)?;
    let written = signature_bytes(alloc, &signature);
    let_go(signature);
    Ok(c.rest().is_empty() && written?.as_slice() == blob)
}

/// Whether the blob is a signature, and no front of it is one.
pub fn is_signature(alloc: Global, blob: &[u8]) -> bool {
    is_signature_blob(alloc, blob) == Ok(true) && no_front_is_a_signature(alloc, blob)
}

fn no_front_is_a_pair(alloc: Global, blob: &[u8]) -> bool {
    for length in 0..blob.len() {
        let read = read_key_pair(alloc, &mut Cursor::new(&blob[..length]));
        if read.err() != Some(Error::SshEncoding) {
            return false;
        }
    }
    true
}

/// Whether the blob is one key pair and is written back as the same bytes.
fn is_pair_blob(alloc: Global, blob: &[u8]) -> Result<bool, Error> {
    let mut written = Vec::new(alloc);
    let mut c = Cursor::new(blob);
    let pair = read_key_pair(alloc, &mut c)?;
    let wrote = write_key_pair(&mut written, &pair);
    let_go(pair);
    wrote?;
    Ok(c.rest().is_empty() && written.as_slice() == blob)
}

/// Whether the blob is a key pair, and no front of it is one.
pub fn is_pair(alloc: Global, blob: &[u8]) -> bool {
    is_pair_blob(alloc, blob) == Ok(true) && no_front_is_a_pair(alloc, blob)
}

/// Whether the blob is a key and one more byte: the key is read from the front, and the whole blob isn't a key.
pub fn is_longer(alloc: Global, blob: &[u8]) -> bool {
    if parse_whole_public_key(alloc, blob).err() != Some(Error::SshKey) {
        return false;
    }
    match key_bytes(alloc, blob) {
        Ok(front) => blob.starts_with(&front),
        Err(_) => false,
    }
}

/// What is printed of a key and one more byte.
pub fn front_is_key(alloc: Global, blob: &[u8]) -> anyhow::Result<String> {
    let front = key_bytes(alloc, blob)?;
    Ok(format!(in alloc; "its front of {} bytes is the key", front.len())?)
}
