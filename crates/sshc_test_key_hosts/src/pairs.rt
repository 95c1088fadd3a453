//! Key pairs and their hashes.

use crate::copies::{Wanted, has_algorithm, is_wanted};
use crate::{is_equal, let_go};
use sshc_key::{
    HashAlg, PrivateKey, PrivateKeyWithHashAlg, PublicKeyBase64, read_key_pair, write_key_pair,
};
use sshc_wire::{Cursor, NoMemory};
use std::alloc::Global;

/// A public key of 32 times 8.
const PUBLIC: &[u8] =
    b"\x00\x00\x00\x0bssh-ed25519\x00\x00\x00\x20\x08\x08\x08\x08\x08\x08\x08\x08\x08\x08\x08\x08\x08\x08\x08\x08\x08\
        \x08\x08\x08\x08\x08\x08\x08\x08\x08\x08\x08\x08\x08\x08\x08";

/// The same in base64.
const PUBLIC_BASE64: &str = "AAAAC3NzaC1lZDI1NTE5AAAAIAgICAgICAgICAgICAgICAgICAgICAgICAgICAgICAgI";

/// Its pair, with a seed of 32 times 7.
const ED25519: &[u8] =
    b"\x00\x00\x00\x0bssh-ed25519\x00\x00\x00\x20\x08\x08\x08\x08\x08\x08\x08\x08\x08\x08\x08\x08\x08\x08\x08\x08\x08\
        \x08\x08\x08\x08\x08\x08\x08\x08\x08\x08\x08\x08\x08\x08\x08\x00\x00\x00\x40\x07\x07\x07\x07\x07\x07\x07\x07\
        \x07\x07\x07\x07\x07\x07\x07\x07\x07\x07\x07\x07\x07\x07\x07\x07\x07\x07\x07\x07\x07\x07\x07\x07\x08\x08\x08\
        \x08\x08\x08\x08\x08\x08\x08\x08\x08\x08\x08\x08\x08\x08\x08\x08\x08\x08\x08\x08\x08\x08\x08\x08\x08\x08\x08\
        \x08\x08";

/// A pair of RSA with small numbers.
const RSA: &[u8] =
    b"\x00\x00\x00\x07ssh-rsa\x00\x00\x00\x01\x21\x00\x00\x00\x01\x03\x00\x00\x00\x01\x07\x00\x00\x00\x01\x02\x00\x00\
        \x00\x01\x0b\x00\x00\x00\x01\x03";

/// Whether the pair is written as these bytes.
fn is_written(alloc: Global, pair: &PrivateKey, blob: &[u8]) -> bool {
    let mut out = Vec::new(alloc);
    write_key_pair(&mut out, pair) == Ok(()) && out.as_slice() == blob
}

fn has_public_bytes(pair: &PrivateKey) -> Result<bool, NoMemory> {
    let bytes = pair.public_key_bytes()?;
    Ok(bytes.as_slice() == PUBLIC)
}

fn has_public_base64(pair: &PrivateKey) -> Result<bool, NoMemory> {
    let base64 = pair.public_key_base64()?;
    Ok(base64.as_str() == PUBLIC_BASE64)
}

/// Whether the pair of Ed25519 and its private part are copied, it is written as it was read, and has its public key.
fn is_right(alloc: Global, pair: &PrivateKey) -> bool {
    is_equal(pair.copy(), pair)
        && is_equal(pair.pair.copy(), &pair.pair)
        && is_written(alloc, pair, ED25519)
        && has_public_bytes(pair) == Ok(true)
        && has_public_base64(pair) == Ok(true)
}

#[test]
fn pairs_are_read_copied_and_written(rt: HostRuntime) {
    let is_right = match read_key_pair(rt.alloc(), &mut Cursor::new(ED25519)) {
        Ok(pair) => {
            let is_right = is_right(rt.alloc(), &pair);
            let_go(pair);
            is_right
        }
        Err(_) => false,
    };
    assert!(rt; is_right);
}

/// A pair that is given SHA-512: the hash that it keeps, its algorithm, and its public key's.
struct Row {
    name: &'static str,
    blob: &'static [u8],
    hash: Option<HashAlg>,
    algorithm: Wanted,
    public: Wanted,
}

const PAIRS: &[Row] = &[
    Row {
        name: "Ed25519",
        blob: ED25519,
        hash: None,
        algorithm: Wanted::Ed25519,
        public: Wanted::Ed25519,
    },
    Row {
        name: "RSA",
        blob: RSA,
        hash: Some(HashAlg::Sha512),
        algorithm: Wanted::Rsa(Some(HashAlg::Sha512)),
        public: Wanted::Rsa(None),
    },
];

/// Whether the pair has the row's hash and algorithms.
fn has_hash(key: &PrivateKeyWithHashAlg, row: &Row) -> bool {
    let algorithm = key.algorithm();
    let is_algorithm = is_wanted(&algorithm, &row.algorithm);
    let_go(algorithm);
    is_algorithm && key.hash_alg() == row.hash && has_algorithm(key.key().public_key(), &row.public)
}

fn is_row_right(alloc: Global, row: &Row) -> bool {
    match read_key_pair(alloc, &mut Cursor::new(row.blob)) {
        Ok(pair) => {
            let key = PrivateKeyWithHashAlg::new(pair, Some(HashAlg::Sha512));
            let has_hash = has_hash(&key, row);
            let_go(key);
            has_hash
        }
        Err(_) => false,
    }
}

#[test]
fn only_rsa_keeps_a_hash(rt: HostRuntime) {
    for row in PAIRS {
        assert!(rt; is_row_right(rt.alloc(), row), "row {}", row.name);
    }
}
