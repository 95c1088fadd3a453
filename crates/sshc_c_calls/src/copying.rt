//! Bytes copied into the caller's memory.

ghost use Rattle.sshc_c_calls.specs.CopiedOut.{CopiedOut};

use crate::status::{NO_ROOM, OK};

/// Copies the bytes to the front of the caller's memory if all of them fit, and tells how many there are.
pub fn copy_out(from: &[u8], to: &mut [u8], size: &mut usize) -> u32
    ensures { CopiedOut from.now to.old to.new size.new result }
{
    let count = from.len();
    *size = count;
    if count > to.len() {
        return NO_ROOM;
    }
    to[..count].copy_from_slice(from);
    OK
}
