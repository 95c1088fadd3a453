//! Writes parts of packets. A string of more than 2^32 - 1 bytes counts as out of memory.

ghost use Rattle.std.specs.Prelude.{◌≡◌, ◌∷◌, ◌++◌, OnOk};
ghost use Rattle.sshc_wire.specs.Wire.{string_text, u32_text};

use sshc_wire::{NoMemory, put_string, put_u32};

/// How many bytes a message's number and the recipient's number of a channel take.
pub(crate) const ADDRESSED: usize = 5;

/// How many bytes an address and a port take.
pub(crate) fn address_size(address: &str) -> usize {
    address.len().saturating_add(8)
}

/// A string of this text.
pub(crate) fn put_words(out: &mut Vec<u8>, text: &str) -> Result<(), NoMemory>
    ensures { OnOk result (out.new.items ≡ out.old.items ++ string_text text.now) }
{
    put_string(out, text.as_bytes())
}

/// A message's number, and the recipient's number of a channel.
#[tactic(auto, using(std::proofs::lemmas::List::append_assoc))]
pub(crate) fn put_addressed(out: &mut Vec<u8>, number: u8, recipient: u32) -> Result<(), NoMemory>
    ensures { OnOk result (out.new.items ≡ out.old.items ++ number ∷ u32_text recipient) }
{
    out.push(number)?;
    put_u32(out, recipient)
}

/// An address and a port.
#[tactic(auto, using(std::proofs::lemmas::List::append_assoc))]
pub(crate) fn put_address(out: &mut Vec<u8>, address: &str, port: u32) -> Result<(), NoMemory>
    ensures { OnOk result (out.new.items ≡ out.old.items ++ string_text address.now ++ u32_text port) }
{
    put_words(out, address)?;
    put_u32(out, port)
}
