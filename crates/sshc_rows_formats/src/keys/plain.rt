//! A plain reader of keys, for comparison: it follows a table of fields, and builds no key.

use std::alloc::{AllocError, Global};

/// A field of a blob. All but the last two are strings (RFC 4251, section 5).
#[derive(Clone, Copy)]
enum Field {
    Any,
    Text,
    Exactly(&'static str),
    Size(usize),
    Point(usize),
    Mpint,
    Texts,
    Options,
    Signature,
    U64,
    CertType,
}

const DSA: &[Field] = &[Field::Mpint, Field::Mpint, Field::Mpint, Field::Mpint];

const P256: &[Field] = &[Field::Exactly("nistp256"), Field::Point(65)];

const P384: &[Field] = &[Field::Exactly("nistp384"), Field::Point(97)];

const P521: &[Field] = &[Field::Exactly("nistp521"), Field::Point(133)];

const ED25519: &[Field] = &[Field::Size(32)];

const RSA: &[Field] = &[Field::Mpint, Field::Mpint];

const SK_ECDSA: &[Field] = &[Field::Exactly("nistp256"), Field::Point(65), Field::Text];

const SK_ED25519: &[Field] = &[Field::Size(32), Field::Text];

const OPAQUE: &[Field] = &[Field::Any];

/// The fields that follow those of a certificate's key, up to its signer.
const SAID: &[Field] = &[
    Field::U64,
    Field::CertType,
    Field::Text,
    Field::Texts,
    Field::U64,
    Field::U64,
    Field::Options,
    Field::Options,
    Field::Any,
];

/// The end of a certificate: a key and nothing else, which is judged separately, and a signature.
const SIGNED: &[Field] = &[Field::Any, Field::Signature];

const MARK: &str = "-cert-v01@";

fn known_fields(name: &str) -> Option<&'static [Field]> {
    match name {
        "ssh-dss" => Some(DSA),
        "ecdsa-sha2-nistp256" => Some(P256),
        "ecdsa-sha2-nistp384" => Some(P384),
        "ecdsa-sha2-nistp521" => Some(P521),
        "ssh-ed25519" => Some(ED25519),
        "ssh-rsa" => Some(RSA),
        "sk-ecdsa-sha2-nistp256@openssh.com" => Some(SK_ECDSA),
        "sk-ssh-ed25519@openssh.com" => Some(SK_ED25519),
        _ => None,
    }
}

/// The fields of the key that a certificate of this name certifies, if the name is in the table.
fn certified_fields(name: &str) -> Option<&'static [Field]> {
    match name.strip_suffix("-cert-v01@openssh.com")? {
        "sk-ecdsa-sha2-nistp256" => Some(SK_ECDSA),
        "sk-ssh-ed25519" => Some(SK_ED25519),
        plain => known_fields(plain),
    }
}

fn is_graphic(name: &str) -> bool {
    name.bytes().all(|b| 32 < b && b < 127 && b != b',')
}

fn has_two_sides(name: &str) -> bool {
    name.bytes().filter(|b| *b == b'@').count() == 1
        && !name.starts_with('@')
        && !name.ends_with('@')
}

/// Whether the name is one above and `@openssh.com`.
fn is_taken(name: &str) -> bool {
    match name.strip_suffix("@openssh.com") {
        Some(front) => known_fields(front).is_some(),
        None => false,
    }
}

fn is_opaque(name: &str) -> bool {
    name.len() <= 64
        && is_graphic(name)
        && has_two_sides(name)
        && known_fields(name).is_none()
        && !is_taken(name)
        && !name.contains(MARK)
}

fn is_opaque_certificate(alloc: Global, name: &str) -> Result<bool, AllocError> {
    let Some((front, domain)) = name.split_once(MARK) else {
        return Ok(false);
    };
    let own = format!(in alloc; "{front}@{domain}")?;
    Ok(name.len() <= 64 && is_opaque(own.as_str()))
}

/// The string at the front, and the bytes after it.
fn string(bytes: &[u8]) -> Option<(&[u8], &[u8])> {
    if bytes.len() < 4 {
        return None;
    }
    let (length, rest) = bytes.split_at(4);
    let length = u32::from_be_bytes([length[0], length[1], length[2], length[3]]) as usize;
    if rest.len() < length {
        return None;
    }
    Some(rest.split_at(length))
}

fn number(bytes: &[u8], size: usize) -> Option<(&[u8], &[u8])> {
    if bytes.len() < size {
        return None;
    }
    Some(bytes.split_at(size))
}

fn is_text(bytes: &[u8]) -> bool {
    str::from_utf8(bytes).is_ok()
}

fn is_mpint(bytes: &[u8]) -> bool {
    let first = bytes.first().copied().unwrap_or(0);
    let second = bytes.get(1).copied().unwrap_or(0);
    // Positive: no sign bit, and not zero. Minimal: a leading zero is needed by the bit after it.
    first < 128 && (first > 0 || second >= 128)
}

/// Whether the bytes are strings to their end, of which the even ones are texts, or all are if `all` is true.
fn are_strings(bytes: &[u8], all: bool) -> bool {
    let mut rest = bytes;
    let mut even = true;
    for _ in 0..bytes.len() {
        if rest.is_empty() {
            break;
        }
        let Some((item, others)) = string(rest) else {
            return false;
        };
        if (even || all) && !is_text(item) {
            return false;
        }
        even = !even;
        rest = others;
    }
    rest.is_empty() && (even || all)
}

fn is_signature(bytes: &[u8]) -> bool {
    let Some((name, rest)) = string(bytes) else {
        return false;
    };
    let Some((_, rest)) = string(rest) else {
        return false;
    };
    let more = if name.starts_with(b"sk-") { 5 } else { 0 };
    is_text(name) && rest.len() == more
}

fn fits(field: Field, bytes: &[u8]) -> bool {
    match field {
        Field::Any => true,
        Field::Text => is_text(bytes),
        Field::Exactly(text) => bytes == text.as_bytes(),
        Field::Size(size) => bytes.len() == size,
        Field::Point(size) => bytes.len() == size && bytes.starts_with(&[4]),
        Field::Mpint => is_mpint(bytes),
        Field::Texts => are_strings(bytes, true),
        Field::Options => are_strings(bytes, false),
        Field::Signature => is_signature(bytes),
        Field::U64 => true,
        Field::CertType => bytes == [0, 0, 0, 1].as_slice() || bytes == [0, 0, 0, 2].as_slice(),
    }
}

/// The field at the front, if it is in the grammar, and the bytes after it.
fn field_at(field: Field, bytes: &[u8]) -> Option<(&[u8], &[u8])> {
    let (item, rest) = match field {
        Field::U64 => number(bytes, 8)?,
        Field::CertType => number(bytes, 4)?,
        _ => string(bytes)?,
    };
    if fits(field, item) {
        Some((item, rest))
    } else {
        None
    }
}

fn behind<'a>(fields: &[Field], bytes: &'a [u8]) -> Option<&'a [u8]> {
    let mut rest = bytes;
    for field in fields {
        let (_, others) = field_at(*field, rest)?;
        rest = others;
    }
    Some(rest)
}

/// The bytes after a certificate whose key has these fields, and its signer's blob.
fn certificate_at<'a>(fields: &[Field], bytes: &'a [u8]) -> Option<(&'a [u8], &'a [u8])> {
    let (_nonce, rest) = string(bytes)?;
    let rest = behind(fields, rest)?;
    let rest = behind(SAID, rest)?;
    let (signer, _) = string(rest)?;
    Some((behind(SIGNED, rest)?, signer))
}

/// The fields that follow a name: those of a plain key, or of the key that a certificate certifies.
#[derive(Clone, Copy)]
enum Sort {
    Plain(&'static [Field]),
    Certified(&'static [Field]),
}

fn sort_of(alloc: Global, name: &str) -> Result<Option<Sort>, AllocError> {
    if let Some(fields) = known_fields(name) {
        return Ok(Some(Sort::Plain(fields)));
    }
    if let Some(fields) = certified_fields(name) {
        return Ok(Some(Sort::Certified(fields)));
    }
    if is_opaque(name) {
        return Ok(Some(Sort::Plain(OPAQUE)));
    }
    if is_opaque_certificate(alloc, name)? {
        return Ok(Some(Sort::Certified(OPAQUE)));
    }
    Ok(None)
}

/// The bytes after the key, and the blob of a certificate's signer.
fn fields_at(sort: Sort, rest: &[u8]) -> Option<(&[u8], Option<&[u8]>)> {
    match sort {
        Sort::Plain(fields) => {
            let rest = behind(fields, rest)?;
            Some((rest, None))
        }
        Sort::Certified(fields) => {
            let (rest, signer) = certificate_at(fields, rest)?;
            Some((rest, Some(signer)))
        }
    }
}

/// The same for the key at the front of a blob.
fn key_at(alloc: Global, bytes: &[u8]) -> Result<Option<(&[u8], Option<&[u8]>)>, AllocError> {
    let Some((name, rest)) = string(bytes) else {
        return Ok(None);
    };
    let Ok(name) = str::from_utf8(name) else {
        return Ok(None);
    };
    match sort_of(alloc, name)? {
        Some(sort) => Ok(fields_at(sort, rest)),
        None => Ok(None),
    }
}

fn has_few_marks(blob: &[u8]) -> bool {
    blob.windows(10)
        .filter(|place| *place == MARK.as_bytes())
        .count()
        <= 8
}

/// The length of the key at the front, if a key of the grammar is there.
pub fn key_length(alloc: Global, blob: &[u8]) -> Result<Option<usize>, AllocError> {
    if !has_few_marks(blob) {
        return Ok(None);
    }
    let Some((rest, mut signer)) = key_at(alloc, blob)? else {
        return Ok(None);
    };
    // Each certificate inside another has a mark of its own.
    for _ in 0..9 {
        let Some(inner) = signer else {
            return Ok(blob.len().checked_sub(rest.len()));
        };
        match key_at(alloc, inner)? {
            Some(([], next)) => signer = next,
            _ => return Ok(None),
        }
    }
    Ok(None)
}
