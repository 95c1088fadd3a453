//! Frames of the agent's protocol (draft-miller-ssh-agent, section 3): a body behind its length in four bytes.

ghost use Rattle.std.specs.Prelude.{◌≡◌, IfOk, length};
ghost use Rattle.sshc_wire.specs.Wire.{string_text, u32_text};

use crate::cursor::Cursor;
use crate::error::NoMemory;
use crate::octets::Octets;
use crate::put::put_string;
use std::alloc::Global;

/// The body as a frame with its length. A body of 2^32 bytes or more counts as out of memory.
pub fn framed(alloc: Global, body: &[u8]) -> Result<Octets, NoMemory>
    ensures { IfOk result (λ frame. frame ≡ string_text body.now) }
{
    let mut frame = Vec::new(alloc);
    put_string(&mut frame, body)?;
    Octets::from_vec(frame)
}

/// The length of a frame from its four bytes, most significant byte first.
#[tactic(auto, using(crate::proofs::ReadingLemmas::four_bytes))]
pub fn frame_length(bytes: &[u8]) -> u32
    requires { length bytes.now ≡ 4 }
    ensures { bytes.now ≡ u32_text result }
{
    // The contract of the cursor ensures that what it reads are bytes.
    let bytes = Cursor::new(bytes).rest();
    u32::from_be_bytes([bytes[0], bytes[1], bytes[2], bytes[3]])
}
