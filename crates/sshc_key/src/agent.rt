//! What an agent's client speaks of: keys that an agent holds, the constraints under which it holds them, and session
//! bindings (draft-miller-ssh-agent; OpenSSH's PROTOCOL.agent).

ghost use Rattle.std.specs.Prelude.{◌≡◌, [], IfOk};
ghost use Rattle.sshc_key.specs.AgentKeys.{certified_key, comment_of, identity_key, referred};

use crate::key_data::Certificate;
use crate::public_key::PublicKey;
use sshc_wire::{NoMemory, Octets, Text};

/// Under what condition an agent holds a key.
#[derive(Drop, PartialEq, Eq)]
pub enum Constraint {
    /// For so many seconds.
    KeyLifetime { seconds: u32 },
    /// The user is asked before each use.
    Confirm,
    /// A constraint of another kind.
    Extensions { name: Octets, details: Octets },
}

impl Constraint {
    pub fn copy(&self) -> Result<Constraint, NoMemory>
        ensures { IfOk result (λ c. c ≡ self.now) }
    {
        match self {
            Constraint::KeyLifetime { seconds } => {
                Ok(Constraint::KeyLifetime { seconds: *seconds })
            }
            Constraint::Confirm => Ok(Constraint::Confirm),
            Constraint::Extensions { name, details } => Ok(Constraint::Extensions {
                name: name.copy()?,
                details: details.copy()?,
            }),
        }
    }
}

/// A key or certificate that an agent holds, with the comment under which it was added.
#[derive(Drop, PartialEq, Eq)]
pub enum AgentIdentity {
    PublicKey {
        key: PublicKey,
        comment: Text,
    },
    Certificate {
        certificate: Certificate,
        comment: Text,
    },
}

/// A borrowed public key, or one that was made for the caller.
#[derive(Drop)]
pub enum KeyRef<'a> {
    Borrowed(&'a PublicKey),
    Owned(PublicKey),
}

impl<'a> KeyRef<'a> {
    pub fn key(&self) -> &PublicKey
        ensures { result.now ≡ referred self.now }
    {
        match self {
            KeyRef::Borrowed(key) => key,
            KeyRef::Owned(key) => key,
        }
    }
}

impl AgentIdentity {
    pub fn comment(&self) -> &str
        ensures { result.now ≡ comment_of self.now }
    {
        match self {
            AgentIdentity::PublicKey { comment, .. } => comment.as_str(),
            AgentIdentity::Certificate { comment, .. } => comment.as_str(),
        }
    }

    /// The key; of a certificate the key that it speaks of, with an empty comment.
    pub fn public_key(&self) -> Result<KeyRef<'_>, NoMemory>
        ensures { IfOk result (λ r. referred r ≡ identity_key self.now) }
    {
        match self {
            AgentIdentity::PublicKey { key, .. } => Ok(KeyRef::Borrowed(key)),
            AgentIdentity::Certificate { certificate, .. } => {
                Ok(KeyRef::Owned(certificate.certified_key()?))
            }
        }
    }

    pub fn copy(&self) -> Result<AgentIdentity, NoMemory>
        ensures { IfOk result (λ i. i ≡ self.now) }
    {
        match self {
            AgentIdentity::PublicKey { key, comment } => {
                let comment = comment.copy()?;
                Ok(AgentIdentity::PublicKey {
                    key: key.copy()?,
                    comment,
                })
            }
            AgentIdentity::Certificate {
                certificate,
                comment,
            } => {
                let comment = comment.copy()?;
                Ok(AgentIdentity::Certificate {
                    certificate: certificate.copy()?,
                    comment,
                })
            }
        }
    }
}

impl Certificate {
    /// A copy of the key that the certificate speaks of, with an empty comment.
    fn certified_key(&self) -> Result<PublicKey, NoMemory>
        ensures { IfOk result (λ k. k ≡ (certified_key self.now, [])) }
    {
        let key = self.public_key.copy()?;
        Ok(PublicKey {
            key,
            comment: Text::new(self.key_id.allocator()),
        })
    }
}

impl From<PublicKey> for AgentIdentity {
    ghost use Rattle.sshc_key.specs.declared.agent.AgentIdentity.TheVariants as identities;
    ghost use Rattle.std.specs.Prelude.{[]};

    ghost from_gives = { λ key i. i ≡ identities.PublicKey key [] };

    fn from(key: PublicKey) -> AgentIdentity {
        let comment = Text::new(key.comment.allocator());
        AgentIdentity::PublicKey { key, comment }
    }
}

impl From<Certificate> for AgentIdentity {
    ghost use Rattle.sshc_key.specs.declared.agent.AgentIdentity.TheVariants as identities;
    ghost use Rattle.std.specs.Prelude.{[]};

    ghost from_gives = { λ certificate i. i ≡ identities.Certificate certificate [] };

    fn from(certificate: Certificate) -> AgentIdentity {
        let comment = Text::new(certificate.key_id.allocator());
        AgentIdentity::Certificate {
            certificate,
            comment,
        }
    }
}

/// A session with a server, bound to a connection of an agent (OpenSSH's PROTOCOL.agent, section 1): the blob of the
/// server's host key, the session's identifier, and the signature of that key over it.
#[derive(Drop, PartialEq, Eq)]
pub struct AgentSessionBinding {
    host_key: Octets,
    session_id: Octets,
    signature: Octets,
}

impl AgentSessionBinding {
    pub fn new(host_key: Octets, session_id: Octets, signature: Octets) -> AgentSessionBinding
        ensures { result ≡ record { host_key = host_key; session_id = session_id; signature = signature } }
    {
        AgentSessionBinding {
            host_key,
            session_id,
            signature,
        }
    }

    pub fn host_key(&self) -> &[u8]
        ensures { result.now ≡ self.now.host_key }
    {
        self.host_key.as_slice()
    }

    pub fn session_id(&self) -> &[u8]
        ensures { result.now ≡ self.now.session_id }
    {
        self.session_id.as_slice()
    }

    pub fn signature(&self) -> &[u8]
        ensures { result.now ≡ self.now.signature }
    {
        self.signature.as_slice()
    }

    pub fn copy(&self) -> Result<AgentSessionBinding, NoMemory>
        ensures { IfOk result (λ b. b ≡ self.now) }
    {
        Ok(AgentSessionBinding {
            host_key: self.host_key.copy()?,
            session_id: self.session_id.copy()?,
            signature: self.signature.copy()?,
        })
    }
}
