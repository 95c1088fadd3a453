//! The hashes with which an RSA key signs (RFC 8332, section 3).

/// The hash with which an RSA key signs; without one it signs with SHA-1.
#[derive(Clone, Copy, Debug, PartialEq, Eq)]
pub enum HashAlg {
    Sha256,
    Sha512,
}
