//! Copies, comparisons and algorithms of keys.

use crate::keys::{KEY, USER_CERTIFICATE};
use crate::{is_equal, let_go};
use sshc_key::{
    ALL_KEY_TYPES, Algorithm, EcdsaCurve, HashAlg, KeyData, PublicKey, PublicKeyOrCertificate,
    parse_public_key_base64,
};
use sshc_wire::{NoMemory, Text};
use std::alloc::Global;

/// An algorithm that is wanted.
pub enum Wanted {
    Ed25519,
    Rsa(Option<HashAlg>),
    Other(&'static str),
}

/// Whether the algorithm is the wanted one.
pub fn is_wanted(algorithm: &Algorithm, want: &Wanted) -> bool {
    match (algorithm, want) {
        (Algorithm::Ed25519, Wanted::Ed25519) => true,
        (Algorithm::Rsa { hash }, Wanted::Rsa(want)) => *hash == *want,
        (Algorithm::Other(name), Wanted::Other(want)) => name.as_str() == *want,
        _ => false,
    }
}

/// Whether the key has the wanted algorithm, which is copied.
pub fn has_algorithm(key: &PublicKey, want: &Wanted) -> bool {
    match key.algorithm() {
        Ok(algorithm) => {
            let is_right = is_wanted(&algorithm, want) && is_equal(algorithm.copy(), &algorithm);
            let_go(algorithm);
            is_right
        }
        Err(_) => false,
    }
}

/// Whether another comment makes another public key, of the same key.
fn counts_comment(alloc: Global, key: &PublicKey) -> Result<bool, NoMemory> {
    let comment = Text::from_str(alloc, "c")?;
    let data = key.key.copy()?;
    let other = PublicKey { key: data, comment };
    let is_other = other != *key && other.key == key.key;
    let_go(other);
    Ok(is_other)
}

/// The key in the form in which a method of authentication takes it.
fn identity_of(key: &PublicKey) -> Result<PublicKeyOrCertificate, NoMemory> {
    match &key.key {
        KeyData::Certificate(certificate) => {
            Ok(PublicKeyOrCertificate::Certificate(certificate.copy()?))
        }
        _ => Ok(PublicKeyOrCertificate::PublicKey {
            key: key.copy()?,
            hash_alg: None,
        }),
    }
}

fn is_identity_copied(key: &PublicKey) -> bool {
    match identity_of(key) {
        Ok(identity) => {
            let is_copied = is_equal(identity.copy(), &identity);
            let_go(identity);
            is_copied
        }
        Err(_) => false,
    }
}

/// Whether the key is a certificate that is copied, and its signature too.
fn is_certificate_copied(key: &KeyData) -> bool {
    match key {
        KeyData::Certificate(certificate) => {
            is_equal(certificate.copy(), certificate)
                && is_equal(certificate.signature.copy(), &certificate.signature)
        }
        _ => false,
    }
}

/// A key, its algorithm, and whether it is a certificate.
struct Row {
    name: &'static str,
    base64: &'static str,
    algorithm: Wanted,
    is_certificate: bool,
}

/// A certificate has the algorithm of its name.
const KEYS: &[Row] = &[
    Row {
        name: "a plain key",
        base64: KEY,
        algorithm: Wanted::Ed25519,
        is_certificate: false,
    },
    Row {
        name: "a certificate",
        base64: USER_CERTIFICATE,
        algorithm: Wanted::Other("ssh-ed25519-cert-v01@openssh.com"),
        is_certificate: true,
    },
];

/// Whether the key and its parts are copied and compared, and it has its algorithm.
fn is_right(alloc: Global, key: &PublicKey, row: &Row) -> bool {
    is_equal(key.copy(), key)
        && is_equal(key.key.copy(), &key.key)
        && counts_comment(alloc, key) == Ok(true)
        && is_identity_copied(key)
        && is_certificate_copied(&key.key) == row.is_certificate
        && has_algorithm(key, &row.algorithm)
}

fn is_row_right(alloc: Global, row: &Row) -> bool {
    match parse_public_key_base64(alloc, row.base64) {
        Ok(key) => {
            let is_right = is_right(alloc, &key, row);
            let_go(key);
            is_right
        }
        Err(_) => false,
    }
}

#[test]
fn keys_are_copied_and_compared(rt: HostRuntime) {
    for row in KEYS {
        assert!(rt; is_row_right(rt.alloc(), row), "row {}", row.name);
    }
}

/// Two keys, and whether they are equal: a certificate is no plain key.
const COMPARED: &[(&str, &str, bool)] = &[
    (KEY, KEY, true),
    (USER_CERTIFICATE, USER_CERTIFICATE, true),
    (KEY, USER_CERTIFICATE, false),
];

fn are_equal(alloc: Global, one: &str, other: &str) -> bool {
    match parse_public_key_base64(alloc, one) {
        Ok(key) => {
            let are_equal = is_equal(parse_public_key_base64(alloc, other), &key);
            let_go(key);
            are_equal
        }
        Err(_) => false,
    }
}

#[test]
fn a_certificate_is_no_plain_key(rt: HostRuntime) {
    for (one, other, want) in COMPARED {
        assert!(rt;
            are_equal(rt.alloc(), one, other) == *want,
            "{one} and {other}"
        );
    }
}

const TYPES: [Algorithm; 10] = [
    Algorithm::Dsa,
    Algorithm::Ecdsa {
        curve: EcdsaCurve::NistP256,
    },
    Algorithm::Ecdsa {
        curve: EcdsaCurve::NistP384,
    },
    Algorithm::Ecdsa {
        curve: EcdsaCurve::NistP521,
    },
    Algorithm::Ed25519,
    Algorithm::Rsa { hash: None },
    Algorithm::Rsa {
        hash: Some(HashAlg::Sha256),
    },
    Algorithm::Rsa {
        hash: Some(HashAlg::Sha512),
    },
    Algorithm::SkEcdsaSha2NistP256,
    Algorithm::SkEd25519,
];

#[test]
fn all_key_types_in_their_order(rt: HostRuntime) {
    let types = TYPES;
    let all = ALL_KEY_TYPES;
    let are_equal = types.as_slice() == all.as_slice();
    let_go(types);
    let_go(all);
    assert!(rt; are_equal);
}
