//! Frames sent to an agent, about one Ed25519 key pair.

use sshc_wire::{NoMemory, Octets};
use std::alloc::Global;

/// The pair as a frame that adds it holds it, with an empty comment: the public part is 32 bytes of 8, the seed 32
/// bytes of 7.
pub(crate) const PAIR: &[u8] = b"\0\0\0\x0bssh-ed25519\0\0\0\x20\
\x08\x08\x08\x08\x08\x08\x08\x08\x08\x08\x08\x08\x08\x08\x08\x08\
\x08\x08\x08\x08\x08\x08\x08\x08\x08\x08\x08\x08\x08\x08\x08\x08\
\0\0\0\x40\
\x07\x07\x07\x07\x07\x07\x07\x07\x07\x07\x07\x07\x07\x07\x07\x07\
\x07\x07\x07\x07\x07\x07\x07\x07\x07\x07\x07\x07\x07\x07\x07\x07\
\x08\x08\x08\x08\x08\x08\x08\x08\x08\x08\x08\x08\x08\x08\x08\x08\
\x08\x08\x08\x08\x08\x08\x08\x08\x08\x08\x08\x08\x08\x08\x08\x08\
\0\0\0\0";

/// A frame that asks for a signature by the pair over `bytes`.
pub(crate) const SIGNS: &[u8] = b"\x0d\0\0\0\x33\0\0\0\x0bssh-ed25519\0\0\0\x20\
\x08\x08\x08\x08\x08\x08\x08\x08\x08\x08\x08\x08\x08\x08\x08\x08\
\x08\x08\x08\x08\x08\x08\x08\x08\x08\x08\x08\x08\x08\x08\x08\x08\
\0\0\0\x05bytes\0\0\0\0";

/// A frame that asks for a signature by the pair over `other`.
pub(crate) const SIGNS_OTHER: &[u8] = b"\x0d\0\0\0\x33\0\0\0\x0bssh-ed25519\0\0\0\x20\
\x08\x08\x08\x08\x08\x08\x08\x08\x08\x08\x08\x08\x08\x08\x08\x08\
\x08\x08\x08\x08\x08\x08\x08\x08\x08\x08\x08\x08\x08\x08\x08\x08\
\0\0\0\x05other\0\0\0\0";

/// A frame that asks for the list of keys.
pub(crate) const LISTS: &[u8] = b"\x0b";

/// A frame that locks with `pw`.
pub(crate) const LOCKS: &[u8] = b"\x16\0\0\0\x02pw";

/// A frame that unlocks with `pw`.
pub(crate) const UNLOCKS: &[u8] = b"\x17\0\0\0\x02pw";

/// A frame that adds the pair.
pub(crate) fn adds(alloc: Global) -> Result<Octets, NoMemory> {
    let mut out = Vec::from_slice(alloc, b"\x11")?;
    out.extend_from_slice(PAIR)?;
    Octets::from_vec(out)
}

/// A frame that adds the pair with these constraints.
pub(crate) fn adds_with(alloc: Global, constraints: &[u8]) -> Result<Octets, NoMemory> {
    let mut out = Vec::from_slice(alloc, b"\x19")?;
    out.extend_from_slice(PAIR)?;
    out.extend_from_slice(constraints)?;
    Octets::from_vec(out)
}
