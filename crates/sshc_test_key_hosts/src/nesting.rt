//! Certificates in one another, of which a blob may have eight.

use crate::let_go;
use sshc_key::{
    Error, PublicKey, PublicKeyBase64, PublicKeyExt, check_cert_nesting, parse_public_key,
    parse_whole_public_key,
};
use sshc_wire::{NoMemory, put_u32};
use std::alloc::Global;

/// What precedes the length of a certificate's signer: its name, an empty nonce and an empty key, the serial 0, the
/// type of a user, an empty id and no principals, times from 0 to the last, and three empty strings.
const FRONT: &[u8] =
    b"\x00\x00\x00\x0ca-cert-v01@x\x00\x00\x00\x00\x00\x00\x00\x00\x00\x00\x00\x00\x00\x00\x00\x00\x00\x00\x00\x01\x00\
        \x00\x00\x00\x00\x00\x00\x00\x00\x00\x00\x00\x00\x00\x00\x00\xff\xff\xff\xff\xff\xff\xff\xff\x00\x00\x00\x00\
        \x00\x00\x00\x00\x00\x00\x00\x00";

/// A key of 11 bytes, of which four are an empty string.
const KEY: &[u8] = b"\x00\x00\x00\x03a@b\x00\x00\x00\x00";

/// The signature, which ends a certificate: a name and a text.
const END: &[u8] = b"\x00\x00\x00\x0c\x00\x00\x00\x03a@b\x00\x00\x00\x01x";

/// As many certificates in one another as `depth`: all fronts, the innermost key of 11 bytes, and all ends. A
/// certificate adds 92 bytes.
fn put_nested(out: &mut Vec<u8>, depth: u32) -> Result<(), NoMemory> {
    for level in 0..depth {
        let inner = (depth - 1 - level).saturating_mul(92);
        out.extend_from_slice(FRONT)?;
        put_u32(out, inner.saturating_add(11))?;
    }
    out.extend_from_slice(KEY)?;
    for _ in 0..depth {
        out.extend_from_slice(END)?;
    }
    Ok(())
}

/// The key's bytes, or why it can't be read.
fn bytes_of(read: Result<PublicKey, Error>) -> Result<Vec<u8>, Error> {
    match read {
        Ok(key) => {
            let bytes = key.public_key_bytes();
            let_go(key);
            Ok(bytes?)
        }
        Err(error) => Err(error),
    }
}

/// Whether the key that was read has these bytes.
fn has_bytes(read: Result<PublicKey, Error>, want: &[u8]) -> bool {
    match bytes_of(read) {
        Ok(bytes) => bytes.as_slice() == want,
        Err(_) => false,
    }
}

/// Whether the key was refused with this error.
fn is_refused(read: Result<PublicKey, Error>, want: Error) -> bool {
    read.err() == Some(want)
}

/// How many certificates are in one another, the size of the blob, and the error, if there are too many.
const NESTINGS: &[(u32, usize, Option<Error>)] = &[
    (0, 11, None),
    (2, 195, None),
    (8, 747, None),
    (9, 839, Some(Error::SshKey)),
    (2848, 262_027, Some(Error::SshKey)),
];

/// Whether the key is read and written as the same bytes, or is refused with this error.
fn is_read(alloc: Global, blob: &[u8], want: Option<Error>) -> bool {
    let read = parse_public_key(alloc, blob);
    let is_right = match want {
        None => has_bytes(read, blob),
        Some(error) => is_refused(read, error),
    };
    is_right && check_cert_nesting(blob).err() == want
}

fn is_nested(alloc: Global, depth: u32, size: usize, want: Option<Error>) -> bool {
    let mut blob = Vec::new(alloc);
    put_nested(&mut blob, depth) == Ok(()) && blob.len() == size && is_read(alloc, &blob, want)
}

#[test]
fn eight_certificates_may_stand_in_one_another(rt: HostRuntime) {
    for (depth, size, want) in NESTINGS {
        assert!(rt;
            is_nested(rt.alloc(), *depth, *size, *want),
            "depth {depth}"
        );
    }
}

/// Whether a certificate is read as a whole and at the front of more, and more than it isn't one whole key.
fn is_whole_or_front(alloc: Global) -> Result<bool, NoMemory> {
    let mut whole = Vec::new(alloc);
    put_nested(&mut whole, 1)?;
    let mut longer = Vec::from_slice(alloc, whole.as_slice())?;
    longer.push(0)?;
    Ok(
        has_bytes(parse_whole_public_key(alloc, &whole), &whole)
            && is_refused(parse_whole_public_key(alloc, &longer), Error::SshKey)
            && has_bytes(PublicKey::decode(alloc, &longer), &whole)
            && is_refused(PublicKey::decode(alloc, b"a@b"), Error::SshKey),
    )
}

#[test]
fn a_key_is_read_from_the_front_or_from_the_whole(rt: HostRuntime) {
    assert!(rt; is_whole_or_front(rt.alloc()) == Ok(true));
}
