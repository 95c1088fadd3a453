//! Rows of a client's frame, where no answer is awaited.

ghost use Rattle.std.specs.Prelude.{◌≡◌, ◌∷◌, Some, option_map};
ghost use Rattle.sshc_proxy.specs.Binding.{binding_in, binding_of, binding_seen};
ghost use Rattle.sshc_proxy.specs.ProxyTable.{asked_by};
ghost use Rattle.sshc_proxy_session.specs.SessionTable.{Follows, bind_refusal, binding_row, bytes_refusal, forwards};
ghost use Rattle.sshc_proxy_session.specs.SessionTable.{frame_row, is_login_bound, login_refusal, parted, place_refusal};
ghost use Rattle.sshc_proxy_session.specs.SessionTable.{sign_refusal, sign_request_row};
ghost use Rattle.sshc_proxy_session.specs.Userauth.{signing_of, signing_seen, userauth_of, userauth_seen};
ghost use Rattle.sshc_proxy_session.specs.declared.event.SessionInput.TheVariants.{Frame};
ghost use Rattle.sshc_proxy_session.specs.declared.event.SessionOutput.TheVariants as outputs;
ghost use Rattle.sshc_proxy.specs.declared.waiting.Awaited.TheVariants.{Signature};

use super::SessionConnection;
use crate::bound::{Bound, is_known, names_host, parted};
use crate::event::SessionOutput;
use crate::refusal::Refusal;
use crate::session_policy::SessionPolicy;
use crate::userauth::{Signing, Userauth, signing_of, userauth_of};
use sshc_key::agent_msg;
use sshc_proxy::{Awaited, Binding, binding_of};
use sshc_wire::{NoMemory, Octets, framed};

/// The greatest number of sessions that are bound on one connection.
const MOST_BOUND: usize = 16;

/// Why a login isn't to be signed for, in the session that was bound last.
fn login_refusal(
    policy: &SessionPolicy,
    hops: &[Bound],
    last: &Bound,
    key: &[u8],
    login: &Userauth<'_>,
) -> Option<Refusal>
    ensures { result ≡ login_refusal policy.now hops.now last.now key.now (userauth_seen login.now) }
{
    if login.key == key {
        if login.session_id == last.session_id.as_slice() {
            if names_host(hops, last, login.host_key) {
                if policy.permits(hops, last, key, login.user) {
                    None
                } else {
                    Some(Refusal::NotAllowed)
                }
            } else {
                Some(Refusal::OtherHost)
            }
        } else {
            Some(Refusal::OtherSession)
        }
    } else {
        Some(Refusal::OtherKey)
    }
}

/// Why bytes aren't to be signed.
fn bytes_refusal(
    policy: &SessionPolicy,
    hops: &[Bound],
    last: &Bound,
    signing: &Signing<'_>,
) -> Option<Refusal>
    ensures { result ≡ bytes_refusal policy.now hops.now last.now signing.now.key.now
        (userauth_of signing.now.bytes.now) }
{
    match userauth_of(signing.bytes) {
        Some(login) => login_refusal(policy, hops, last, signing.key, &login),
        None => Some(Refusal::NoLogin),
    }
}

/// Why a request to sign isn't forwarded, where these sessions are bound.
fn place_refusal(
    policy: &SessionPolicy,
    bindings: &[Bound],
    signing: &Signing<'_>,
) -> Option<Refusal>
    ensures { result ≡ place_refusal policy.now (parted bindings.now) (signing_seen signing.now) }
{
    match parted(bindings) {
        Some((hops, last)) => {
            if last.is_forwarding {
                Some(Refusal::Forwarding)
            } else {
                bytes_refusal(policy, hops, last, signing)
            }
        }
        None => Some(Refusal::NothingBound),
    }
}

/// Why the message isn't forwarded, if it is one that asks for a signature.
fn sign_refusal(policy: &SessionPolicy, bindings: &[Bound], body: &[u8]) -> Option<Refusal>
    ensures { result ≡ sign_refusal policy.now bindings.now (signing_of body.now) }
{
    match signing_of(body) {
        Some(signing) => place_refusal(policy, bindings, &signing),
        None => Some(Refusal::Malformed),
    }
}

/// Whether a session in which the user logs in was bound last.
fn is_login_bound(bindings: &[Bound]) -> bool
    ensures { result ≡ is_login_bound (parted bindings.now) }
{
    match parted(bindings) {
        Some((_hops, last)) => !last.is_forwarding,
        None => false,
    }
}

/// Why a session isn't bound.
fn bind_refusal(bindings: &[Bound], binding: &Binding<'_>, is_verified: bool) -> Option<Refusal>
    ensures { result ≡ bind_refusal is_verified bindings.now (binding_seen binding.now) }
{
    if is_login_bound(bindings) {
        Some(Refusal::LoggedIn)
    } else if is_known(bindings, binding.session_id) {
        Some(Refusal::SameSession)
    } else if bindings.len() < MOST_BOUND {
        if is_verified {
            None
        } else {
            Some(Refusal::NotSigned)
        }
    } else {
        Some(Refusal::TooMany)
    }
}

impl SessionConnection {
    /// A frame, by its number.
    #[tactic(auto, unfolding(crate::specs::SessionTable::frame_row))]
    pub(super) fn frame(
        &mut self,
        policy: &SessionPolicy,
        whole: &[u8],
        is_verified: bool,
    ) -> Result<SessionOutput, NoMemory>
        ensures row { Follows (frame_row is_verified policy.now self.old.bindings whole.now)
            (Frame whole.now) self.old self.new result }
    {
        match whole {
            [agent_msg::REQUEST_IDENTITIES, _body @ ..] => self.forward(Awaited::Listing, whole),
            [agent_msg::SIGN_REQUEST, body @ ..] => self.sign_request(policy, body, whole),
            [agent_msg::EXTENSION, _body @ ..] => self.extension(whole, is_verified),
            [] => Ok(SessionOutput::Refused(Refusal::Malformed)),
            _ => Ok(SessionOutput::Refused(Refusal::NotSupported)),
        }
    }

    /// Forwards a frame, whose answer is awaited from now on.
    fn forward(&mut self, kind: Awaited, whole: &[u8]) -> Result<SessionOutput, NoMemory>
        requires { asked_by whole.now ≡ kind }
        ensures row { Follows (forwards whole.now) (Frame whole.now) self.old self.new result }
    {
        let frame = framed(self.alloc, whole)?;
        self.awaits = Some(kind);
        Ok(SessionOutput::Forward(frame))
    }

    /// SIGN_REQUEST (draft-miller-ssh-agent, section 3.6).
    #[tactic(auto, unfolding(crate::specs::SessionTable::sign_request_row))]
    fn sign_request(
        &mut self,
        policy: &SessionPolicy,
        body: &[u8],
        whole: &[u8],
    ) -> Result<SessionOutput, NoMemory>
        requires { asked_by whole.now ≡ Signature }
        ensures row { Follows (sign_request_row policy.now self.old.bindings body.now whole.now)
            (Frame whole.now) self.old self.new result }
    {
        match sign_refusal(policy, self.bindings.as_slice(), body) {
            Some(reason) => Ok(SessionOutput::Refused(reason)),
            None => self.forward(Awaited::Signature, whole),
        }
    }

    /// EXTENSION (OpenSSH's PROTOCOL.agent, section 1).
    fn extension(&mut self, whole: &[u8], is_verified: bool) -> Result<SessionOutput, NoMemory>
        ensures row { Follows (binding_row is_verified self.old.bindings (binding_of whole.now))
            (Frame whole.now) self.old self.new result }
    {
        match binding_of(whole) {
            Some(binding) => self.binding(&binding, whole, is_verified),
            None => Ok(SessionOutput::Refused(Refusal::NotSupported)),
        }
    }

    fn binding(
        &mut self,
        binding: &Binding<'_>,
        whole: &[u8],
        is_verified: bool,
    ) -> Result<SessionOutput, NoMemory>
        requires { binding_of whole.now ≡ Some (binding_seen binding.now) }
        ensures row { Follows (binding_row is_verified self.old.bindings (Some (binding_seen binding.now)))
            (Frame whole.now) self.old self.new result }
    {
        match bind_refusal(self.bindings.as_slice(), binding, is_verified) {
            Some(reason) => Ok(SessionOutput::Refused(reason)),
            None => self.bind(binding, whole),
        }
    }

    /// Binds the session.
    fn bind(&mut self, binding: &Binding<'_>, whole: &[u8]) -> Result<SessionOutput, NoMemory>
        requires { binding_of whole.now ≡ Some (binding_seen binding.now) }
        ensures row { Follows outputs.Bound (Frame whole.now) self.old self.new result }
    {
        let _whole = whole;
        let bound = Bound {
            host_key: Octets::from_slice(self.alloc, binding.host_key)?,
            session_id: Octets::from_slice(self.alloc, binding.session_id)?,
            is_forwarding: binding.is_forwarding,
        };
        self.bindings.push(bound)?;
        Ok(SessionOutput::Bound)
    }
}
