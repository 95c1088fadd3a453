//! Key exchanges, as the transport reports them (RFC 4253, section 7).

ghost use Rattle.std.specs.Prelude.{◌≡◌, IfOk};

use sshc_wire::{NoMemory, Octets, Text};
use std::alloc::Global;
use std::marker::Model;

/// Whose key exchange runs: ours after our own KEXINIT, the peer's after the peer's (RFC 4253, section 7.1).
#[derive(Clone, Copy, PartialEq, Eq)]
pub enum ExchangeFlag {
    Idle,
    Ours,
    Peer,
}

/// The host key of an exchange, as the blob that the peer sent.
#[derive(PartialEq, Eq, Drop)]
pub enum ExchangeKey {
    Missing,
    Key(Octets),
    Certificate(Octets),
}

/// The algorithms that an exchange chose, by their names.
#[derive(PartialEq, Eq, Drop)]
pub struct ExchangeNames {
    pub kex: Text,
    pub key: Text,
    pub cipher: Text,
    pub client_mac: Text,
    pub server_mac: Text,
    /// Whether both sides exchange keys strictly (OpenSSH's PROTOCOL, section 1.10).
    pub strict_kex: bool,
}

/// The names of an exchange behind one pointer, so that results and events stay small. Contracts see the names.
#[derive(Drop)]
pub struct NamesChosen {
    names: Box<ExchangeNames>,
}

impl Model for NamesChosen {
    ghost use Rattle.sshc_transport.specs.declared.exchange.ExchangeNames.{ExchangeNames as Names};

    ghost Value = { Names };

    ghost view = { λ n. n.names.value };
}

impl NamesChosen {
    /// These names.
    pub fn new(alloc: Global, names: ExchangeNames) -> Result<NamesChosen, NoMemory>
        ensures { IfOk result (λ n. n ≡ names) }
    {
        match Box::new(alloc, names) {
            Ok(names) => Ok(NamesChosen { names }),
            Err(refused) => {
                drop(refused);
                Err(NoMemory)
            }
        }
    }

    pub fn names(&self) -> &ExchangeNames
        ensures { result.now ≡ self.now }
    {
        &self.names
    }

    /// The name of the exchange's method (RFC 4253, section 7.1).
    pub fn kex(&self) -> &Text
        ensures { result.now ≡ self.now.kex }
    {
        &self.names.kex
    }
}

impl PartialEq for NamesChosen {
    ghost use Rattle.sshc_transport.specs.contracts.exchange.ExchangeNamesPartialEq.TheImpl.Laws.{laws-law};

    ghost eq = { ⟦<ExchangeNames as PartialEq>⟧.eq };

    ghost laws = { laws-law };

    fn eq(&self, other: &NamesChosen) -> bool {
        *self.names == *other.names
    }
}

impl Eq for NamesChosen {
    ghost use Rattle.sshc_transport.specs.contracts.exchange.ExchangeNamesEq.TheImpl.Laws.{laws-law};

    ghost laws = { laws-law };
}

/// The result of a key exchange. The transport has verified the signature over the hash.
#[derive(PartialEq, Eq, Drop)]
pub struct ExchangeResult {
    pub key: ExchangeKey,
    /// The exchange hash H.
    pub session_hash: Octets,
    /// The host key's signature over the hash.
    pub signature: Octets,
    /// The shared secret K, if the transport reports it.
    pub secret: Option<Octets>,
    pub names: NamesChosen,
}
