//! Writes parts at the end of a packet (RFC 4251, section 5).

ghost use Rattle.std.specs.Prelude.{◌≡◌, ◌+◌, ◌<◌, ◌≤◌, ◌^◌, [], ◌∷◌, ◌++◌, drop, length, take, IfOk, OnOk, OnErr};
ghost use Rattle.sshc_wire.specs.Extending.{Extends};
ghost use Rattle.sshc_wire.specs.Wire.{bool_text, u32_text, u64_text, string_text};

use crate::error::NoMemory;

/// How many bytes the length of a string has.
const LENGTH: usize = 4;

/// The most bytes of a string, and one.
const TOO_LONG: usize = 1 << 32;

/// How many bytes a string of so many bytes takes, with its length.
pub fn string_size(length: usize) -> usize
    ensures { length + 4 < 2 ^ 64 → result ≡ length + 4 }
{
    length.saturating_add(LENGTH)
}

#[tactic(auto, unfolding(crate::specs::Wire::u32_text))]
pub fn put_u32(out: &mut Vec<u8>, n: u32) -> Result<(), NoMemory>
    ensures ok { OnOk result (out.new.items ≡ out.old.items ++ u32_text n) }
    ensures err { OnErr result (out.new.items ≡ out.old.items) }
{
    out.extend_from_slice(&n.to_be_bytes())?;
    Ok(())
}

/// A boolean: one byte, 1 for true.
#[tactic(auto, unfolding(crate::specs::Wire::bool_text))]
pub fn put_bool(out: &mut Vec<u8>, flag: bool) -> Result<(), NoMemory>
    ensures ok { OnOk result (out.new.items ≡ out.old.items ++ bool_text flag) }
    ensures err { OnErr result (out.new.items ≡ out.old.items) }
{
    out.push(u8::from(flag))?;
    Ok(())
}

#[tactic(auto, unfolding(crate::specs::Wire::u64_text))]
pub fn put_u64(out: &mut Vec<u8>, n: u64) -> Result<(), NoMemory>
    ensures ok { OnOk result (out.new.items ≡ out.old.items ++ u64_text n) }
    ensures err { OnErr result (out.new.items ≡ out.old.items) }
{
    out.extend_from_slice(&n.to_be_bytes())?;
    Ok(())
}

/// A string: its length in bytes, and the bytes.
#[tactic(auto, unfolding(crate::specs::Wire::string_text, crate::specs::Wire::u32_text))]
pub fn put_bytes(out: &mut Vec<u8>, bytes: &[u8]) -> Result<(), NoMemory>
    requires { length bytes.now < 2 ^ 32 }
    ensures ok { OnOk result (out.new.items ≡ out.old.items ++ string_text bytes.now) }
    ensures err { OnErr result (out.new.items ≡ out.old.items) }
{
    out.reserve(4 + bytes.len())?;
    out.extend_from_slice(&(bytes.len() as u32).to_be_bytes())?;
    out.extend_from_slice(bytes)?;
    Ok(())
}

/// A string of any bytes. One of 2^32 bytes or more counts as out of memory.
pub fn put_string(out: &mut Vec<u8>, bytes: &[u8]) -> Result<(), NoMemory>
    ensures ok { OnOk result (out.new.items ≡ out.old.items ++ string_text bytes.now) }
    ensures err { OnErr result (out.new.items ≡ out.old.items) }
{
    if bytes.len() >= TOO_LONG {
        return Err(NoMemory);
    }
    put_bytes(out, bytes)
}

/// A byte, and then a number of four bytes. Out of memory, the byte may be written.
#[tactic(auto, using(crate::proofs::Extended::extended, crate::proofs::Extended::unextended))]
pub(crate) fn put_numbered(out: &mut Vec<u8>, kind: u8, n: u32) -> Result<(), NoMemory>
    ensures ok { OnOk result (out.new.items ≡ out.old.items ++ kind ∷ u32_text n) }
    ensures err { OnErr result (Extends out.old.items out.new.items) }
{
    out.push(kind)?;
    put_u32(out, n)
}

/// A string that holds the text in UTF-8.
pub fn put_text(out: &mut Vec<u8>, text: &str) -> Result<(), NoMemory>
    requires { length text.now < 2 ^ 32 }
    ensures ok { OnOk result (out.new.items ≡ out.old.items ++ string_text text.now) }
    ensures err { OnErr result (out.new.items ≡ out.old.items) }
{
    put_bytes(out, text.as_bytes())
}

/// Begins a string whose bytes are written next, and whose length isn't known yet. Returns where it begins.
pub fn begin_string(out: &mut Vec<u8>) -> Result<usize, NoMemory>
    ensures begun { OnOk result (out.new.items ≡ out.old.items ++ 0 ∷ 0 ∷ 0 ∷ 0 ∷ []) }
    ensures place { IfOk result (λ at. at ≡ length out.old.items) }
    ensures err { OnErr result (out.new.items ≡ out.old.items) }
{
    let at = out.len();
    out.extend_from_slice(&[0, 0, 0, 0])?;
    Ok(at)
}

/// Ends the string that begins there: writes how many bytes follow its length. More than 2^32 - 1 of them count as out
/// of memory.
pub fn end_string(out: &mut Vec<u8>, at: usize) -> Result<(), NoMemory>
    requires { at + 4 ≤ length out.old.items }
    ensures ok { OnOk result (out.new.items ≡ take at out.old.items ++ string_text (drop (at + 4) out.old.items)) }
    ensures err { OnErr result (out.new.items ≡ out.old.items) }
{
    let length = out.len() - at - LENGTH;
    if length >= TOO_LONG {
        return Err(NoMemory);
    }
    let (_, string) = out.as_mut_slice().split_at_mut(at);
    let (size, _) = string.split_at_mut(LENGTH);
    size.copy_from_slice(&(length as u32).to_be_bytes());
    Ok(())
}
