//! Frames in pieces.

use sshc_agent_core::{AgentInput, Frames};
use sshc_wire::NoMemory;
use std::test::Fail;

/// What comes out behind some bytes.
#[derive(Clone, Copy)]
enum Comes {
    Nothing,
    Frame(&'static [u8]),
    /// The length of a frame that is too long.
    TooLong(u32),
}

fn is_so(input: &Option<AgentInput>, comes: Comes) -> bool {
    match (input, comes) {
        (None, Comes::Nothing) => true,
        (Some(AgentInput::Frame(frame)), Comes::Frame(bytes)) => frame.as_slice() == bytes,
        (Some(AgentInput::Oversize { length }), Comes::TooLong(wanted)) => *length == wanted,
        _ => false,
    }
}

/// Whether the next that comes out is this.
fn gives(frames: &mut Frames, comes: Comes) -> Result<bool, NoMemory> {
    Ok(is_so(&frames.next()?, comes))
}

/// Bytes that come one at a time, and what comes out at the last of them. Nothing comes out before.
const BY_BYTES: &[(&[u8], Comes)] = &[
    (b"\0\0\0\x01\x0b", Comes::Frame(b"\x0b")),
    (b"\0\0\0\x02ab", Comes::Frame(b"ab")),
    (b"\0\x04\0\x01", Comes::TooLong(262_145)),
    (b"rest", Comes::Nothing),
];

/// Whether what comes out at the last of these bytes is this, and nothing comes out before.
fn gives_at_last(frames: &mut Frames, bytes: &[u8], comes: Comes) -> Result<bool, NoMemory> {
    let mut left = bytes.len();
    for byte in bytes {
        left = left.saturating_sub(1);
        frames.push(&[*byte])?;
        let awaited = if left == 0 { comes } else { Comes::Nothing };
        if !gives(frames, awaited)? {
            return Ok(false);
        }
    }
    Ok(true)
}

#[test]
fn pieces_of_one_byte_make_frames(rt: HostRuntime) -> Result<(), Fail> {
    let mut frames = Frames::new(rt.alloc());
    for (bytes, comes) in BY_BYTES {
        assert!(rt; gives_at_last(&mut frames, bytes, *comes)?, "{bytes:?}");
    }
    Ok(())
}

/// What comes out of two frames that come at once.
const BOTH: &[Comes] = &[Comes::Frame(b"\x0b"), Comes::Frame(b""), Comes::Nothing];

#[test]
fn a_piece_of_two_frames(rt: HostRuntime) -> Result<(), Fail> {
    let mut frames = Frames::new(rt.alloc());
    frames.push(b"\0\0\0\x01\x0b\0\0\0\0\0")?;
    for (at, comes) in BOTH.iter().enumerate() {
        assert!(rt; gives(&mut frames, *comes)?, "at {at}");
    }
    Ok(())
}
