//! Writes signatures (RFC 4253, section 6.6; PROTOCOL.u2f).

ghost use Rattle.std.specs.Prelude.{◌≡◌, ◌++◌, OnOk};
ghost use Rattle.sshc_key.specs.KeyGrammar.{signature_text};

use crate::signature::Signature;
use sshc_wire::{NoMemory, put_bytes, put_text, put_u32};

pub(super) fn put_signature(out: &mut Vec<u8>, signature: &Signature) -> Result<(), NoMemory>
    ensures { OnOk result (out.new.items ≡ out.old.items ++ signature_text signature.now) }
{
    put_text(out, signature.name.as_str())?;
    put_bytes(out, signature.body.as_slice())?;
    match signature.sk {
        None => Ok(()),
        Some(sk) => {
            out.push(sk.flags)?;
            put_u32(out, sk.counter)
        }
    }
}
