//! Bytes of frames and answers, of which the journal and the seats keep one copy together.

ghost use Rattle.std.specs.Prelude.{◌≡◌, IfErr, IfOk};
ghost use Rattle.std.specs.Arc.{arc_value};

use sshc_wire::{NoMemory, Octets};
use std::alloc::Global;
use std::marker::Model;
use std::sync::Arc;

/// Bytes that an entry and a call share, or that one of them has alone, in a buffer that was reserved before the step,
/// because memory ran out behind it.
#[derive(Drop)]
pub(crate) enum Held {
    Shared(Arc<Octets, Global>),
    Own(Box<Vec<u8>>),
}

/// Kept bytes, which contracts see as these bytes.
#[derive(Drop)]
pub(crate) struct KeptBytes {
    held: Held,
}

impl Model for KeptBytes {
    ghost use Rattle.std.specs.Prelude.{List, ℕ};
    ghost use Rattle.sshc_agent_shared.specs.HeldBytes.{bytes_of};

    ghost Value = { List ℕ };

    ghost view = { λ k. bytes_of k.held };
}

impl KeptBytes {
    /// These bytes, which another one may share.
    pub(crate) fn new(bytes: Octets) -> Result<KeptBytes, NoMemory>
        ensures { IfOk result (λ k. k ≡ bytes) }
    {
        match Arc::new(bytes.allocator(), bytes) {
            Ok(bytes) => Ok(KeptBytes {
                held: Held::Shared(bytes),
            }),
            Err(_) => Err(NoMemory),
        }
    }

    /// The bytes in this buffer, which nobody shares.
    pub(crate) fn alone(buffer: Box<Vec<u8>>) -> KeptBytes
        ensures { result ≡ buffer.value.items }
    {
        KeptBytes {
            held: Held::Own(buffer),
        }
    }

    pub(crate) fn as_slice(&self) -> &[u8]
        ensures { result.now ≡ self.now }
    {
        match &self.held {
            Held::Shared(bytes) => bytes.as_slice(),
            Held::Own(bytes) => bytes.as_slice(),
        }
    }

    /// The bytes where others share them, or all that there is.
    pub(crate) fn into_shared(self) -> Result<Arc<Octets, Global>, KeptBytes>
        ensures shared { IfOk result (λ a. arc_value a ≡ self) }
        ensures alone { IfErr result (λ k. k ≡ self) }
    {
        let KeptBytes { held } = self;
        match held {
            Held::Shared(bytes) => Ok(bytes),
            Held::Own(buffer) => Err(KeptBytes::alone(buffer)),
        }
    }

    /// The same bytes once more: not copied, unless nobody shares them.
    pub(crate) fn share(&self, alloc: Global) -> Result<KeptBytes, NoMemory>
        ensures { IfOk result (λ k. k ≡ self.now) }
    {
        match &self.held {
            Held::Shared(bytes) => Ok(KeptBytes {
                held: Held::Shared(Arc::try_clone(bytes)?),
            }),
            Held::Own(bytes) => KeptBytes::new(Octets::from_slice(alloc, bytes.as_slice())?),
        }
    }
}
