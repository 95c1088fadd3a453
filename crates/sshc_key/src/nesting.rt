//! The bound on certificates in one another, which is tested before anything is read.

ghost use Rattle.std.specs.Prelude.{◌≡◌, ◌≤◌, ◌↔◌, IsOk, OnErr, Err};
ghost use Rattle.sshc_key.specs.Nesting.{markers};

use crate::error::Error;

/// What the name of each certificate has.
const MARKER: &[u8] = b"-cert-v01@";

/// The most places at which it may occur.
const MOST: usize = 8;

fn marker_count(blob: &[u8]) -> usize
    ensures { result ≡ markers blob.now }
{
    let mut count = 0;
    let mut left = blob;
    while let [first, rest @ ..] = left {
        if *first == b'-' && left.starts_with(MARKER) {
            count += 1;
        }
        left = rest;
    }
    count
}

/// Refuses a blob in which more than eight certificates could be nested.
pub fn check_cert_nesting(blob: &[u8]) -> Result<(), Error>
    ensures ok { IsOk result ↔ (markers blob.now ≤ 8) }
    ensures err { OnErr result (result ≡ Err Error.SshKey) }
{
    if marker_count(blob) <= MOST {
        Ok(())
    } else {
        Err(Error::SshKey)
    }
}
