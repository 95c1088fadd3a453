//! Verifiers of signatures.

use crate::keys::KEY;
use crate::let_go;
use sshc_key::{KeyData, PublicKey, Signature, Verifier, Verify, parse_public_key_base64};
use sshc_wire::NoMemory;
use std::alloc::Global;

/// Accepts signatures whose bytes are those that were signed.
struct Echo;

impl Verifier for Echo {
    ghost use Rattle.std.specs.Prelude.{bytes_eq};

    ghost accepts = { λ v key bytes signature. bytes_eq bytes signature.body };

    fn verifies(&self, _key: &KeyData, bytes: &[u8], sig: &Signature) -> Result<bool, NoMemory> {
        Ok(bytes == sig.body.as_slice())
    }
}

/// A blob, the bytes that were signed, and whether it is a whole signature over them.
struct Row {
    name: &'static str,
    bytes: &'static [u8],
    blob: &'static [u8],
    want: bool,
}

const ROWS: &[Row] = &[
    Row {
        name: "a signature",
        bytes: b"signed",
        blob: b"\x00\x00\x00\x0bssh-ed25519\x00\x00\x00\x06signed",
        want: true,
    },
    Row {
        name: "of other bytes",
        bytes: b"other",
        blob: b"\x00\x00\x00\x0bssh-ed25519\x00\x00\x00\x06signed",
        want: false,
    },
    Row {
        name: "and one byte more",
        bytes: b"signed",
        blob: b"\x00\x00\x00\x0bssh-ed25519\x00\x00\x00\x06signed\x00",
        want: false,
    },
];

/// Whether the blob is judged so, as the client's signature and as the server's.
fn is_judged(key: &PublicKey, row: &Row) -> bool {
    key.verify_client_auth(&Echo, row.bytes, row.blob) == Ok(row.want)
        && key.verify_server_auth(&Echo, row.bytes, row.blob) == Ok(row.want)
}

fn is_row_right(alloc: Global, row: &Row) -> bool {
    match parse_public_key_base64(alloc, KEY) {
        Ok(key) => {
            let is_judged = is_judged(&key, row);
            let_go(key);
            is_judged
        }
        Err(_) => false,
    }
}

#[test]
fn whole_signatures_are_judged(rt: HostRuntime) {
    for row in ROWS {
        assert!(rt; is_row_right(rt.alloc(), row), "row {}", row.name);
    }
}
