//! What a public key signs when a user logs in (RFC 4252, section 7), and the request to sign it.

ghost use Rattle.std.specs.Prelude.{◌≡◌, MatchResult, Ok, Err, option_map};
ghost use Rattle.sshc_proxy_session.specs.Userauth.{end_of, fields_at, fields_seen, is_login, login_with, only_string};
ghost use Rattle.sshc_proxy_session.specs.Userauth.{signing_at, signing_of, signing_seen, userauth_of, userauth_seen};
ghost use Rattle.sshc_wire.specs.Reads.{string_at};

use sshc_wire::{Cursor, WireError, msg};

/// The service that a login asks for.
const SSH_CONNECTION: &[u8] = b"ssh-connection";

/// The method of RFC 4252, section 7.
const PUBLICKEY: &[u8] = b"publickey";

/// The method of OpenSSH's PROTOCOL that names the server's host key too.
const HOSTBOUND: &[u8] = b"publickey-hostbound-v00@openssh.com";

/// A request of an agent's client to sign bytes with a key (draft-miller-ssh-agent, section 3.6).
#[derive(Clone, Copy)]
pub(crate) struct Signing<'a> {
    /// The key's blob.
    pub(crate) key: &'a [u8],
    pub(crate) bytes: &'a [u8],
    pub(crate) flags: u32,
}

/// The fields of a login, as they come.
#[derive(Clone, Copy)]
pub(crate) struct Fields<'a> {
    pub(crate) session_id: &'a [u8],
    pub(crate) number: u8,
    pub(crate) user: &'a [u8],
    pub(crate) service: &'a [u8],
    pub(crate) method: &'a [u8],
    pub(crate) flag: u8,
    pub(crate) algorithm: &'a [u8],
    pub(crate) key: &'a [u8],
}

/// A login for which a key is asked to sign.
#[derive(Clone, Copy)]
pub(crate) struct Userauth<'a> {
    pub(crate) session_id: &'a [u8],
    pub(crate) user: &'a [u8],
    pub(crate) algorithm: &'a [u8],
    /// The key's blob.
    pub(crate) key: &'a [u8],
    /// The blob of the server's host key, where the method is the one that names it.
    pub(crate) host_key: Option<&'a [u8]>,
}

#[tactic(auto, unfolding(crate::specs::Userauth::fields_at))]
fn read_fields<'a>(c: &mut Cursor<'a>) -> Result<Fields<'a>, WireError>
    ensures { MatchResult result (λ f. fields_at c.old ≡ Ok (fields_seen f, c.new)) (λ e. fields_at c.old ≡ Err e) }
{
    let session_id = c.bytes()?;
    let number = c.u8()?;
    let user = c.bytes()?;
    let service = c.bytes()?;
    let method = c.bytes()?;
    let flag = c.u8()?;
    let algorithm = c.bytes()?;
    let key = c.bytes()?;
    Ok(Fields {
        session_id,
        number,
        user,
        service,
        method,
        flag,
        algorithm,
        key,
    })
}

/// The string, if nothing follows it.
fn only_string(bytes: &[u8]) -> Option<&[u8]>
    ensures { option_map (λ text. text.now) result ≡ only_string (string_at bytes.now) }
{
    let mut c = Cursor::new(bytes);
    match c.bytes() {
        Ok(text) => {
            if c.rest().is_empty() {
                Some(text)
            } else {
                None
            }
        }
        Err(_) => None,
    }
}

/// What follows the fields, by the method: nothing, or the host key.
#[tactic(auto, unfolding(crate::specs::Userauth::end_of))]
fn end_of<'a>(method: &[u8], rest: &'a [u8]) -> Option<Option<&'a [u8]>>
    ensures { option_map (λ host. option_map (λ h. h.now) host) result ≡ end_of method.now rest.now }
{
    if method == PUBLICKEY {
        return if rest.is_empty() { Some(None) } else { None };
    }
    if method == HOSTBOUND {
        return match only_string(rest) {
            Some(host) => Some(Some(host)),
            None => None,
        };
    }
    None
}

/// Whether the fields are a login's: those of a request to the service `ssh-connection`, with a signature.
#[tactic(auto, unfolding(crate::specs::Userauth::is_login))]
fn is_login(f: &Fields<'_>) -> bool
    ensures { result ≡ is_login (fields_seen f.now) }
{
    f.number == msg::USERAUTH_REQUEST && f.flag == 1 && f.service == SSH_CONNECTION
}

/// The login that the bytes are signed for: exactly a request of the method `publickey`, or of the one that names the
/// host key too. `None` for any other bytes.
#[tactic(auto, unfolding(crate::specs::Userauth::userauth_of))]
pub(crate) fn userauth_of(bytes: &[u8]) -> Option<Userauth<'_>>
    ensures { option_map userauth_seen result ≡ userauth_of bytes.now }
{
    let mut c = Cursor::new(bytes);
    match read_fields(&mut c) {
        Ok(f) => {
            if is_login(&f) {
                login(&f, end_of(f.method, c.rest()))
            } else {
                None
            }
        }
        Err(_) => None,
    }
}

fn login<'a>(f: &Fields<'a>, end: Option<Option<&'a [u8]>>) -> Option<Userauth<'a>>
    ensures { option_map userauth_seen result
        ≡ login_with (fields_seen f.now) (option_map (λ host. option_map (λ h. h.now) host) end.entry) }
{
    match end {
        Some(host_key) => Some(Userauth {
            session_id: f.session_id,
            user: f.user,
            algorithm: f.algorithm,
            key: f.key,
            host_key,
        }),
        None => None,
    }
}

#[tactic(auto, unfolding(crate::specs::Userauth::signing_at))]
fn read_signing<'a>(c: &mut Cursor<'a>) -> Result<Signing<'a>, WireError>
    ensures { MatchResult result (λ s. signing_at c.old ≡ Ok (signing_seen s, c.new)) (λ e. signing_at c.old ≡ Err e) }
{
    let key = c.bytes()?;
    let bytes = c.bytes()?;
    let flags = c.u32()?;
    Ok(Signing { key, bytes, flags })
}

/// The request to sign in a message, after its number. `None` if it has other fields, or more.
#[tactic(auto, unfolding(crate::specs::Userauth::signing_of))]
pub(crate) fn signing_of(body: &[u8]) -> Option<Signing<'_>>
    ensures { option_map signing_seen result ≡ signing_of body.now }
{
    let mut c = Cursor::new(body);
    match read_signing(&mut c) {
        Ok(signing) => {
            if c.rest().is_empty() {
                Some(signing)
            } else {
                None
            }
        }
        Err(_) => None,
    }
}
