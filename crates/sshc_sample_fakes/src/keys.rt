//! Keys without arithmetic.

use sshc_key::{CertType, Certificate, KeyData, PairData, PrivateKey, PublicKey, Signature};
use sshc_wire::{List, NoMemory, Octets, Text};
use std::alloc::Global;

fn ed25519(alloc: Global, byte: u8) -> Result<KeyData, NoMemory> {
    Ok(KeyData::Ed25519 {
        public: Octets::from_slice(alloc, &[byte; 32])?,
    })
}

/// The Ed25519 key of 32 times 8.
pub fn fake_key(alloc: Global) -> Result<PublicKey, NoMemory> {
    Ok(PublicKey {
        key: ed25519(alloc, 8)?,
        comment: Text::new(alloc),
    })
}

/// The pair of that key.
pub fn fake_pair(alloc: Global) -> Result<PrivateKey, NoMemory> {
    let private = Octets::from_slice(alloc, &[7; 64])?;
    Ok(PrivateKey {
        public: fake_key(alloc)?,
        pair: PairData::Ed25519 { private },
    })
}

fn fake_signature(alloc: Global) -> Result<Signature, NoMemory> {
    let name = Text::from_str(alloc, "ssh-ed25519")?;
    Ok(Signature {
        name,
        body: Octets::from_slice(alloc, &[9; 64])?,
        sk: None,
    })
}

/// A certificate of that key.
pub fn fake_certificate(alloc: Global) -> Result<Certificate, NoMemory> {
    let nonce = Octets::from_slice(alloc, &[1; 32])?;
    let key_id = Text::from_str(alloc, "alice")?;
    let signature = fake_signature(alloc)?;
    certified(alloc, nonce, key_id, signature)
}

fn certified(
    alloc: Global,
    nonce: Octets,
    key_id: Text,
    signature: Signature,
) -> Result<Certificate, NoMemory> {
    let public = Octets::from_slice(alloc, &[8; 32])?;
    let signer = Octets::from_slice(alloc, &[6; 32])?;
    Ok(Certificate {
        nonce,
        public_key: KeyData::Ed25519 { public },
        serial: 7,
        cert_type: CertType::User,
        key_id,
        valid_principals: List::new(alloc),
        valid_after: 0,
        valid_before: u64::MAX,
        critical_options: List::new(alloc),
        extensions: List::new(alloc),
        reserved: Octets::new(alloc),
        signature_key: KeyData::Ed25519 { public: signer },
        signature,
    })
}
