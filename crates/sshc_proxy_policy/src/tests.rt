//! What a written policy is read as, and its faults.

use crate::{Fault, NamedKey, WrittenError, read_policy};
use base64::engine::general_purpose::STANDARD;
use sshc_wire::Octets;
use std::alloc::Global;
use std::test::Fail;

const WORK: &[u8] = b"AAAAC3NzaC1lZDI1NTE5AAAAIBERERERERERERERERERERERERERERERERERERERERER";

const FIRST: &[u8] = b"AAAAC3NzaC1lZDI1NTE5AAAAICIiIiIiIiIiIiIiIiIiIiIiIiIiIiIiIiIiIiIiIiIi";

const SECOND: &[u8] = b"AAAAC3NzaC1lZDI1NTE5AAAAIDMzMzMzMzMzMzMzMzMzMzMzMzMzMzMzMzMzMzMzMzMz";

const HOSTS: &str =
    "h ssh-ed25519 AAAAC3NzaC1lZDI1NTE5AAAAICIiIiIiIiIiIiIiIiIiIiIiIiIiIiIiIiIiIiIiIiIi\n\
    @revoked [h]:2222 ssh-ed25519 AAAAC3NzaC1lZDI1NTE5AAAAIDMzMzMzMzMzMzMzMzMzMzMzMzMzMzMzMzMzMzMzMzMz\n\
    [h]:2222 ssh-ed25519 AAAAC3NzaC1lZDI1NTE5AAAAICIiIiIiIiIiIiIiIiIiIiIiIiIiIiIiIiIiIiIiIiIi\n\
    [h]:2222 ssh-ed25519 AAAAC3NzaC1lZDI1NTE5AAAAIDMzMzMzMzMzMzMzMzMzMzMzMzMzMzMzMzMzMzMzMzMz\n\
    @revoked gone ssh-ed25519 AAAAC3NzaC1lZDI1NTE5AAAAICIiIiIiIiIiIiIiIiIiIiIiIiIiIiIiIiIiIiIiIiIi\n\
    gone ssh-ed25519 AAAAC3NzaC1lZDI1NTE5AAAAICIiIiIiIiIiIiIiIiIiIiIiIiIiIiIiIiIiIiIiIiIi\n\
    broken ssh-ed25519 AAAA\n";

/// A policy, and how many rules it has or its fault. The fingerprint is ssh-keygen's.
const ROWS: &[(&str, Result<usize, (u64, Fault)>)] = &[
    ("", Ok(0)),
    ("allow work@laptop alice@h", Ok(1)),
    (
        "# two\n\n allow  SHA256:SQfC+vTbLURn9cTkVxIS8fGQ3FKNAJWeB0o139+gV4M  h \nallow SHA256:SQfC+vTbLURn9cTkVxIS8fGQ3FKNAJWeB0o139+gV4M [h]:2222 via h h\n",
        Ok(2),
    ),
    (
        "allow work@laptop h\nallow work@laptop\n",
        Err((2, Fault::NotARule)),
    ),
    ("permit work@laptop h", Err((1, Fault::NotARule))),
    ("allow work@laptop h via", Err((1, Fault::NotARule))),
    ("allow work@laptop h over h", Err((1, Fault::NotARule))),
    ("allow work@laptop @h", Err((1, Fault::NotARule))),
    ("allow work@laptop a@b@h", Err((1, Fault::NotARule))),
    ("#\nallow home h", Err((2, Fault::UnknownKey))),
    ("allow twice h", Err((1, Fault::AmbiguousKey))),
    ("allow work@laptop H", Err((1, Fault::UnknownHost))),
    ("allow work@laptop h via gone", Err((1, Fault::UnknownHost))),
    ("allow work@laptop broken", Err((1, Fault::UnreadableHost))),
    (
        "allow work@laptop h via h h h h h h h h h h h h h h h h",
        Err((1, Fault::TooManyHops)),
    ),
];

fn named(alloc: Global, base64: &[u8], name: &[u8]) -> Result<NamedKey, Fail> {
    let blob = Octets::from_vec(STANDARD.decode(alloc, base64)?)?;
    Ok(NamedKey::new(alloc, blob, Octets::from_slice(alloc, name)?)?)
}

fn keys(alloc: Global) -> Result<Vec<NamedKey>, Fail> {
    let mut keys = Vec::new(alloc);
    keys.push(named(alloc, WORK, b"work@laptop")?)?;
    keys.push(named(alloc, FIRST, b"twice")?)?;
    keys.push(named(alloc, SECOND, b"twice")?)?;
    Ok(keys)
}

#[test]
fn policies_and_faults(rt: HostRuntime) -> Result<(), Fail> {
    let alloc = rt.alloc();
    let keys = keys(alloc)?;
    for (text, want) in ROWS {
        let got = match read_policy(alloc, text, keys.as_slice(), HOSTS) {
            Ok(policy) => Ok(policy.rules().len()),
            Err(WrittenError::BadLine { line, fault }) => Err((line, fault)),
            Err(WrittenError::NoMemory) => Ok(usize::MAX),
        };
        assert_eq!(rt; got, *want, "policy {text}");
    }
    Ok(())
}
