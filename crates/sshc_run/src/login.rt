//! How every generated script begins: a login, and a channel.

ghost use Rattle.std.specs.Prelude.{◌≡◌, ◌≤◌, length, IfOk, OnOk};
ghost use Rattle.sshc_wire.specs.Wire.{u32_text};
ghost use Rattle.sshc_run.specs.Events.{with_events};
ghost use Rattle.sshc_run.specs.Login.{accepted, beginning, by_password, confirmed, exchange_fields, channel_opened};
ghost use Rattle.sshc_run.specs.Login.{exchanged, logged_in};

use crate::generated::Generated;
use crate::kinds;
use sshc_wire::{NoMemory, msg};
use std::alloc::Global;

/// The host of a generated script.
pub const HOST: &str = "localhost";

/// Its port.
pub const PORT: u16 = 13265;

/// The known hosts text that accepts its host key.
pub const KNOWN: &str =
    "[localhost]:13265 ssh-ed25519 AAAAC3NzaC1lZDI1NTE5AAAAIJdD7y3aLq454yWBdwLWbieU1ebz9/cu7/QEXn9OIeZJ\n";

/// The fields of an exchange: an Ed25519 host key, the hash `session-id`, no signature, no secret, `curve25519-sha256`.
fn exchange_fields() -> &'static [u8]
    ensures short { length result.now ≤ 200 }
    ensures bytes { result.now ≡ exchange_fields }
{
    b"\x01\0\0\0\x33\0\0\0\x0bssh-ed25519\0\0\0\x20\x97\x43\xef\x2d\xda\x2e\xae\x39\xe3\x25\x81\x77\x02\xd6\x6e\x27\
        \x94\xd5\xe6\xf3\xf7\xf7\x2e\xef\xf4\x04\x5e\x7f\x4e\x21\xe6\x49\0\0\0\x0asession-id\0\0\0\0\0\0\0\0\0\0\0\0\
        \x11curve25519-sha256\0\0\0\0\0\0\0\0\0\0\0\0\0\0\0\0\0"
}

/// `alice` asks by the password `pw`, with ticket 1.
fn by_password() -> &'static [u8]
    ensures short { length result.now ≤ 200 }
    ensures bytes { result.now ≡ by_password }
{
    b"\0\0\0\x01\0\0\0\x05alice\x01\0\0\0\x02pw"
}

/// The server accepts the service.
fn accepted() -> &'static [u8]
    ensures short { length result.now ≤ 200 }
    ensures bytes { result.now ≡ accepted }
{
    b"\x06\0\0\0\x0cssh-userauth"
}

/// A channel is asked for, with ticket 2.
fn session() -> &'static [u8]
    ensures short { length result.now ≤ 200 }
    ensures bytes { result.now ≡ u32_text 2 }
{
    b"\0\0\0\x02"
}

/// The server confirms channel 1: its number 0, a window of 1,048,576 bytes and packets of at most 32,768.
fn confirmed() -> &'static [u8]
    ensures short { length result.now ≤ 200 }
    ensures bytes { result.now ≡ confirmed }
{
    b"\x5b\0\0\0\x01\0\0\0\0\0\x10\0\0\0\0\x80\0"
}

/// The peer's KEXINIT and an exchange.
pub(crate) fn exchange(script: &mut Generated, moment: u64) -> Result<(), NoMemory>
    ensures { OnOk result (script.new ≡ with_events (exchanged moment) script.old) }
{
    script.add(moment, kinds::PEER_KEXINIT, &[])?;
    script.add(moment, kinds::EXCHANGE_DONE, exchange_fields())
}

fn log_in(script: &mut Generated) -> Result<(), NoMemory>
    ensures { OnOk result (script.new ≡ with_events logged_in script.old) }
{
    script.add(0, kinds::AUTHENTICATE, by_password())?;
    script.add(0, kinds::PAYLOAD, accepted())?;
    script.add(0, kinds::PAYLOAD, &[msg::USERAUTH_SUCCESS])
}

fn open_channel(script: &mut Generated) -> Result<(), NoMemory>
    ensures { OnOk result (script.new ≡ with_events channel_opened script.old) }
{
    script.add(0, kinds::OPEN_SESSION, session())?;
    script.add(0, kinds::PAYLOAD, confirmed())
}

/// A login by a password and an open channel, all at moment 0.
pub(crate) fn begin(alloc: Global) -> Result<Generated, NoMemory>
    ensures { IfOk result (λ g. g ≡ beginning) }
{
    let mut script = Generated::new(alloc);
    exchange(&mut script, 0)?;
    log_in(&mut script)?;
    open_channel(&mut script)?;
    Ok(script)
}
