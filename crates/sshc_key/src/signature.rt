//! Signatures (RFC 4253, section 6.6; OpenSSH's PROTOCOL.u2f).

ghost use Rattle.std.specs.Prelude.{◌≡◌, IfOk};

use sshc_wire::{NoMemory, Octets, Text};

/// What a security key adds to its signature.
#[derive(Clone, Copy, PartialEq, Eq)]
pub struct SkFields {
    pub flags: u8,
    pub counter: u32,
}

/// A signature. The fields of a security key are there exactly where the name begins `sk-`.
#[derive(Drop, PartialEq, Eq)]
pub struct Signature {
    pub name: Text,
    pub body: Octets,
    pub sk: Option<SkFields>,
}

impl Signature {
    pub fn copy(&self) -> Result<Signature, NoMemory>
        ensures { IfOk result (λ s. s ≡ self.now) }
    {
        let name = self.name.copy()?;
        let body = self.body.copy()?;
        Ok(Signature {
            name,
            body,
            sk: self.sk,
        })
    }
}
