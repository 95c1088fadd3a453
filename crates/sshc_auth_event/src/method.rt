//! Methods of authentication (RFC 4252, RFC 4256, RFC 4462).

ghost use Rattle.std.specs.Prelude.{◌≡◌, IfOk};

use sshc_key::{Certificate, HashAlg, PrivateKey, PrivateKeyWithHashAlg, PublicKey};
use sshc_wire::{List, NoMemory, Octets, Text};

/// How a user is to be authenticated.
#[derive(PartialEq, Eq, Drop)]
pub enum Method {
    /// `none` (RFC 4252, section 5.2).
    None,
    /// `password` (RFC 4252, section 8).
    Password {
        password: Text,
    },
    /// `publickey` (RFC 4252, section 7), signed by the local signer.
    PublicKey {
        key: PrivateKeyWithHashAlg,
    },
    /// `publickey` with a certificate, signed by the local signer with the pair.
    OpenSshCertificate {
        key: PrivateKey,
        cert: Certificate,
    },
    /// `publickey`, signed by an outside signer.
    FuturePublicKey {
        key: PublicKey,
        hash_alg: Option<HashAlg>,
    },
    /// `publickey` with a certificate, signed by an outside signer.
    FutureCertificate {
        cert: Certificate,
        hash_alg: Option<HashAlg>,
    },
    /// `keyboard-interactive` (RFC 4256).
    KeyboardInteractive {
        submethods: Text,
    },
    /// `gssapi-with-mic` (RFC 4462, section 3).
    GssapiWithMic {
        mechanism_oids: List<Octets>,
    },
}

fn copied_octets(list: &List<Octets>) -> Result<List<Octets>, NoMemory>
    ensures { IfOk result (λ l. l ≡ list.now) }
{
    let mut copies = List::new(list.allocator());
    for item in list.as_slice() {
        copies.push(item.copy()?)?;
    }
    Ok(copies)
}

/// The method with copies of both. No pair is held where a step can fail.
fn copied_certified(key: &PrivateKey, cert: &Certificate) -> Result<Method, NoMemory>
    ensures { IfOk result (λ m. m ≡ Method.OpenSshCertificate key.now cert.now) }
{
    let key = key.copy()?;
    match cert.copy() {
        Ok(cert) => Ok(Method::OpenSshCertificate { key, cert }),
        Err(refused) => {
            drop(key);
            Err(refused)
        }
    }
}

impl Method {
    pub fn copy(&self) -> Result<Method, NoMemory>
        ensures { IfOk result (λ m. m ≡ self.now) }
    {
        match self {
            Method::None => Ok(Method::None),
            Method::Password { password } => Ok(Method::Password {
                password: password.copy()?,
            }),
            Method::PublicKey { key } => Ok(Method::PublicKey { key: key.copy()? }),
            Method::OpenSshCertificate { key, cert } => copied_certified(key, cert),
            Method::FuturePublicKey { key, hash_alg } => Ok(Method::FuturePublicKey {
                key: key.copy()?,
                hash_alg: *hash_alg,
            }),
            Method::FutureCertificate { cert, hash_alg } => Ok(Method::FutureCertificate {
                cert: cert.copy()?,
                hash_alg: *hash_alg,
            }),
            Method::KeyboardInteractive { submethods } => Ok(Method::KeyboardInteractive {
                submethods: submethods.copy()?,
            }),
            Method::GssapiWithMic { mechanism_oids } => Ok(Method::GssapiWithMic {
                mechanism_oids: copied_octets(mechanism_oids)?,
            }),
        }
    }
}
