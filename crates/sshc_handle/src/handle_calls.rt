//! The calls of a handle. Each gives a line to the function of its name in `sshc_handle_calls`, and its clause says of
//! that line what the function's says: which message was submitted, and whose records were read.
#![tactic(auto, using(crate::proofs::Hints::handle_calls))]

ghost use Rattle.std.specs.Prelude.{◌≡◌, [], IfErr, IfOk};
ghost use Rattle.std.specs.Option.{option_map, unwrap_or};
ghost use Rattle.sshc_auth_event.specs.declared.channel_msg.ChannelMsg.TheVariants as asks;
ghost use Rattle.sshc_auth_event.specs.declared.method.Method.TheVariants as methods;
ghost use Rattle.sshc_client.specs.declared.message.Msg.TheVariants as msgs;
ghost use Rattle.sshc_handle_tickets.specs.Answers.{algs_answer, auth_answer, done_answer};
ghost use Rattle.sshc_handle_tickets.specs.Answers.{open_answer, port_answer, prompt_answer};
ghost use Rattle.sshc_handle_messages.specs.Messages.{asked_ticket, identity_of_certificate, identity_of_key};
ghost use Rattle.sshc_handle_calls.specs.Answering.{Answers, AnswersPrompts, AnswersWith, Replies};
ghost use Rattle.sshc_handle_calls.specs.Asking.{Asked, Asks, Requests, Responds, Tells, Told};
ghost use Rattle.sshc_handle_calls.specs.Gssapi.{StepsIn, stepping_at};
ghost use Rattle.sshc_handle_calls.specs.Lines.{IsDeclined, prompts_started, submitted};
ghost use Rattle.sshc_handle_calls.specs.Signing.{SignsIn, signing_at};
ghost use Rattle.sshc_handle.specs.SomeLine.{IsChannelOf, OnSomeLine, Opens};

use crate::channel::Channel;
use crate::handle::Handle;
use crate::line::HasLine;
use sshc_auth::Error;
use sshc_client::Handler;
use sshc_handle_calls::{self as calls, LoggedAuthenticator, LoggedSigner, WithError};
use sshc_handle_tickets::{AuthResult, KeyboardInteractiveAuthResponse};
use sshc_key::{Certificate, HashAlg, PrivateKey, PrivateKeyWithHashAlg, PublicKey};
use sshc_wire::{ChannelId, Disconnect, NoMemory, Octets, Text};
use std::sync::{Arc, Wait};

/// The calls of a `Handle`. An `impl` gives its lines and its channels, and can't change a call.
pub trait HandleCalls: HasLine {
    type User: Handler;

    /// The channel of this number, for example one that the server opened.
    fn channel(self, id: ChannelId) -> Result<Channel<Self::User>, NoMemory>
        ensures { IfOk result (λ c. c ≡ id) };

    /// Asks the server to listen (RFC 4254, section 7.1), and returns the port; 0 if it is the one that was asked for.
    final fn tcpip_forward<R: Wait>(self, rt: &R, address: &str, port: u32) -> Result<u32, Error>
        ensures call { OnSomeLine (Self.used self) (λ old new.
            Asks port_answer (submitted (msgs.TcpIpForward asked_ticket address.now port)) old new result) }
        ensures answer { Answers port_answer result }
    {
        let mut line = self.line();
        let answer = calls::tcpip_forward(rt, &mut line, self.alloc(), address, port);
        self.done(line);
        answer
    }

    /// Asks the server to listen no more (RFC 4254, section 7.1).
    final fn cancel_tcpip_forward<R: Wait>(
        self,
        rt: &R,
        address: &str,
        port: u32,
    ) -> Result<(), Error>
        ensures call { OnSomeLine (Self.used self) (λ old new.
            Asks done_answer (submitted (msgs.CancelTcpIpForward asked_ticket address.now port)) old new result) }
        ensures answer { Answers done_answer result }
    {
        let mut line = self.line();
        let answer = calls::cancel_tcpip_forward(rt, &mut line, self.alloc(), address, port);
        self.done(line);
        answer
    }

    /// Asks the server to listen on a Unix socket (OpenSSH's PROTOCOL, section 2.4).
    final fn streamlocal_forward<R: Wait>(self, rt: &R, socket_path: &str) -> Result<(), Error>
        ensures call { OnSomeLine (Self.used self) (λ old new.
            Asks done_answer (submitted (msgs.StreamLocalForward asked_ticket socket_path.now)) old new result) }
        ensures answer { Answers done_answer result }
    {
        let mut line = self.line();
        let answer = calls::streamlocal_forward(rt, &mut line, self.alloc(), socket_path);
        self.done(line);
        answer
    }

    /// Asks the server to listen on a Unix socket no more (OpenSSH's PROTOCOL, section 2.4).
    final fn cancel_streamlocal_forward<R: Wait>(
        self,
        rt: &R,
        socket_path: &str,
    ) -> Result<(), Error>
        ensures call { OnSomeLine (Self.used self) (λ old new.
            Asks done_answer (submitted (msgs.CancelStreamLocalForward asked_ticket socket_path.now))
            old new result) }
        ensures answer { Answers done_answer result }
    {
        let mut line = self.line();
        let answer = calls::cancel_streamlocal_forward(rt, &mut line, self.alloc(), socket_path);
        self.done(line);
        answer
    }

    /// Disconnects (RFC 4253, section 11.1).
    final fn disconnect<R: Wait>(
        self,
        rt: &R,
        reason: Disconnect,
        description: &str,
        language_tag: &str,
    ) -> Result<(), Error>
        ensures call { OnSomeLine (Self.used self) (λ old new.
            Tells (msgs.Disconnect reason description.now language_tag.now) old new result) }
        ensures declined { IfErr result IsDeclined }
    {
        let mut line = self.line();
        let answer = calls::disconnect(
            rt,
            &mut line,
            self.alloc(),
            reason,
            description,
            language_tag,
        );
        self.done(line);
        answer
    }

    /// Sends bytes on a channel (RFC 4254, section 5.2).
    final fn data<R: Wait>(self, rt: &R, id: ChannelId, body: &[u8]) -> Result<(), Error>
        ensures call { OnSomeLine (Self.used self) (λ old new.
            Tells (msgs.Channel id (asks.Data body.now)) old new result) }
        ensures declined { IfErr result IsDeclined }
    {
        let mut line = self.line();
        let answer = calls::data(rt, &mut line, self.alloc(), id, body);
        self.done(line);
        answer
    }

    /// Asks for a key exchange (RFC 4253, section 9).
    final fn rekey_soon<R: Wait>(self, rt: &R) -> Result<(), Error>
        ensures call { OnSomeLine (Self.used self) (λ old new. Told (msgs.Rekey) old new result) }
        ensures declined { IfErr result IsDeclined }
    {
        let mut line = self.line();
        let answer = calls::rekey_soon(rt, &mut line);
        self.done(line);
        answer
    }

    /// Sends a keepalive, without waiting for an answer.
    final fn send_keepalive<R: Wait>(self, rt: &R, want_reply: bool) -> Result<(), Error>
        ensures call { OnSomeLine (Self.used self) (λ old new. Told (msgs.Keepalive want_reply) old new result) }
        ensures declined { IfErr result IsDeclined }
    {
        let mut line = self.line();
        let answer = calls::send_keepalive(rt, &mut line, want_reply);
        self.done(line);
        answer
    }

    /// Sends a keepalive, and waits for its answer.
    final fn send_ping<R: Wait>(self, rt: &R) -> Result<(), Error>
        ensures call { OnSomeLine (Self.used self) (λ old new.
            Asked done_answer (submitted (msgs.Ping asked_ticket)) old new result) }
        ensures answer { Answers done_answer result }
    {
        let mut line = self.line();
        let answer = calls::send_ping(rt, &mut line);
        self.done(line);
        answer
    }

    /// Announces to the server that no more sessions will be opened (OpenSSH's PROTOCOL, section 2.2).
    final fn no_more_sessions<R: Wait>(self, rt: &R, want_reply: bool) -> Result<(), Error>
        ensures call { OnSomeLine (Self.used self) (λ old new. Told (msgs.NoMoreSessions want_reply) old new result) }
        ensures declined { IfErr result IsDeclined }
    {
        let mut line = self.line();
        let answer = calls::no_more_sessions(rt, &mut line, want_reply);
        self.done(line);
        answer
    }

    /// Asks the server to prove that it holds these keys (OpenSSH's PROTOCOL, section 2.5).
    final fn hostkeys_prove<R: Wait>(self, rt: &R, keys: Vec<PublicKey>) -> Result<(), Error>
        ensures call { OnSomeLine (Self.used self) (λ old new.
            Asks done_answer (submitted (msgs.HostKeysProve asked_ticket keys.items)) old new result) }
        ensures answer { Answers done_answer result }
    {
        let mut line = self.line();
        let answer = calls::hostkeys_prove(rt, &mut line, keys);
        self.done(line);
        answer
    }

    /// Sends a global request of the user's own (RFC 4254, section 4). If an answer is asked for, it returns the bytes
    /// after the answer's number.
    final fn send_global_request<R: Wait>(
        self,
        rt: &R,
        name: &str,
        body: &[u8],
        want_reply: bool,
    ) -> Result<Option<Octets>, Error>
        ensures call { OnSomeLine (Self.used self) (λ old new. Requests name.now body.now want_reply old new result) }
        ensures answer { Replies want_reply result }
    {
        let mut line = self.line();
        let answer = calls::send_global_request(
            rt,
            &mut line,
            self.alloc(),
            name,
            body,
            want_reply,
        );
        self.done(line);
        answer
    }

    /// The best hash for RSA by the names that the server announced (RFC 8308, section 3.1); `None` if it announced
    /// none.
    final fn best_supported_rsa_hash<R: Wait>(
        self,
        rt: &R,
    ) -> Result<Option<Option<HashAlg>>, Error>
        ensures call { OnSomeLine (Self.used self) (λ old new.
            Asked algs_answer (submitted (msgs.GetServerSigAlgs asked_ticket)) old new result) }
        ensures answer { Answers algs_answer result }
    {
        let mut line = self.line();
        let answer = calls::best_supported_rsa_hash(rt, &mut line);
        self.done(line);
        answer
    }

    /// Logs in by the method `none`, with only the user's name (RFC 4252, section 5.2).
    final fn authenticate_none<R: Wait>(self, rt: &R, user: &str) -> Result<AuthResult, Error>
        ensures call { OnSomeLine (Self.used self) (λ old new.
            Asks auth_answer (submitted (msgs.Authenticate user.now methods.None asked_ticket)) old new result) }
        ensures answer { Answers auth_answer result }
    {
        let mut line = self.line();
        let answer = calls::authenticate_none(rt, &mut line, self.alloc(), user);
        self.done(line);
        answer
    }

    /// Logs in by a password (RFC 4252, section 8).
    final fn authenticate_password<R: Wait>(
        self,
        rt: &R,
        user: &str,
        password: &str,
    ) -> Result<AuthResult, Error>
        ensures call { OnSomeLine (Self.used self) (λ old new.
            Asks auth_answer (submitted (msgs.Authenticate user.now (methods.Password password.now) asked_ticket))
            old new result) }
        ensures answer { Answers auth_answer result }
    {
        let mut line = self.line();
        let answer = calls::authenticate_password(rt, &mut line, self.alloc(), user, password);
        self.done(line);
        answer
    }

    /// Logs in by a key pair, with which the session's local signer signs (RFC 4252, section 7).
    final fn authenticate_publickey<R: Wait>(
        self,
        rt: &R,
        user: &str,
        key: PrivateKeyWithHashAlg,
    ) -> Result<AuthResult, Error>
        ensures call { OnSomeLine (Self.used self) (λ old new.
            Asks auth_answer (submitted (msgs.Authenticate user.now (methods.PublicKey key) asked_ticket))
            old new result) }
        ensures answer { Answers auth_answer result }
    {
        let mut line = self.line();
        let answer = calls::authenticate_publickey(rt, &mut line, self.alloc(), user, key);
        self.done(line);
        answer
    }

    /// Logs in by a certificate, with whose pair the session's local signer signs.
    final fn authenticate_openssh_cert<R: Wait>(
        self,
        rt: &R,
        user: &str,
        key: PrivateKey,
        cert: Certificate,
    ) -> Result<AuthResult, Error>
        ensures call { OnSomeLine (Self.used self) (λ old new.
            Asks auth_answer (submitted (msgs.Authenticate user.now (methods.OpenSshCertificate key cert) asked_ticket))
            old new result) }
        ensures answer { Answers auth_answer result }
    {
        let mut line = self.line();
        let answer = calls::authenticate_openssh_cert(rt, &mut line, self.alloc(), user, key, cert);
        self.done(line);
        answer
    }

    /// Begins a login with prompts (RFC 4256, section 3.1). `None` as the submethods is sent as the empty text.
    final fn authenticate_keyboard_interactive_start<R: Wait>(
        self,
        rt: &R,
        user: &str,
        submethods: Option<&str>,
    ) -> Result<KeyboardInteractiveAuthResponse, Error>
        ensures call { OnSomeLine (Self.used self) (λ old new.
            Asks prompt_answer (prompts_started user.now
            (unwrap_or (option_map (λ text. text.now) submethods.entry) [])) old new result) }
        ensures answer { Answers prompt_answer result }
    {
        let mut line = self.line();
        let answer = calls::start_prompts(
            rt,
            &mut line,
            self.alloc(),
            user,
            submethods.unwrap_or(""),
        );
        self.done(line);
        answer
    }

    /// Answers the prompts (RFC 4256, section 3.4) of the login with prompts that was begun last, and waits for its
    /// result or its next prompts. `RecvError` if no such login is open.
    final fn authenticate_keyboard_interactive_respond<R: Wait>(
        self,
        rt: &R,
        responses: Vec<Text>,
    ) -> Result<KeyboardInteractiveAuthResponse, Error>
        ensures call { OnSomeLine (Self.used self) (λ old new. Responds prompt_answer responses.items old new result) }
        ensures answer { AnswersPrompts prompt_answer result }
    {
        let mut line = self.line();
        let answer = calls::respond(rt, &mut line, responses);
        self.done(line);
        answer
    }

    /// Logs in by a key that the signer holds (RFC 4252, section 7). A refusal of the signer is returned as `Signer`.
    final fn authenticate_publickey_with<S: LoggedSigner, R: Wait>(
        self,
        rt: &R,
        user: &str,
        key: PublicKey,
        hash_alg: Option<HashAlg>,
        signer: &mut S,
    ) -> Result<AuthResult, WithError<S::Refusal>>
        ensures call { OnSomeLine (Self.used self) (λ old new. SignsIn (identity_of_key key) hash_alg
            (submitted (msgs.Authenticate user.now (methods.FuturePublicKey key hash_alg) asked_ticket))
            (signing_at old (S.calls signer.old) (S.refusals signer.old))
            (signing_at new (S.calls signer.new) (S.refusals signer.new)) result) }
        ensures answer { AnswersWith (S.refusals signer.old) (S.refusals signer.new) result }
    {
        let mut line = self.line();
        let answer = calls::authenticate_publickey_with(
            rt,
            &mut line,
            self.alloc(),
            user,
            key,
            hash_alg,
            signer,
        );
        self.done(line);
        answer
    }

    /// Logs in by a certificate whose key the signer holds.
    final fn authenticate_certificate_with<S: LoggedSigner, R: Wait>(
        self,
        rt: &R,
        user: &str,
        cert: Certificate,
        hash_alg: Option<HashAlg>,
        signer: &mut S,
    ) -> Result<AuthResult, WithError<S::Refusal>>
        ensures call { OnSomeLine (Self.used self) (λ old new. SignsIn (identity_of_certificate cert) hash_alg
            (submitted (msgs.Authenticate user.now (methods.FutureCertificate cert hash_alg) asked_ticket))
            (signing_at old (S.calls signer.old) (S.refusals signer.old))
            (signing_at new (S.calls signer.new) (S.refusals signer.new)) result) }
        ensures answer { AnswersWith (S.refusals signer.old) (S.refusals signer.new) result }
    {
        let mut line = self.line();
        let answer = calls::authenticate_certificate_with(
            rt,
            &mut line,
            self.alloc(),
            user,
            cert,
            hash_alg,
            signer,
        );
        self.done(line);
        answer
    }

    /// Logs in by GSSAPI with one of these mechanisms (RFC 4462, section 3). A refusal of the authenticator is returned
    /// as `Signer`, and nothing is submitted for it.
    final fn authenticate_gssapi_with_mic<G: LoggedAuthenticator, R: Wait>(
        self,
        rt: &R,
        user: &str,
        mechanism_oids: Vec<Octets>,
        authenticator: &mut G,
    ) -> Result<AuthResult, WithError<G::Refusal>>
        ensures call { OnSomeLine (Self.used self) (λ old new. StepsIn
            (submitted (msgs.Authenticate user.now (methods.GssapiWithMic mechanism_oids.items) asked_ticket))
            (stepping_at old (G.calls authenticator.old) (G.refusals authenticator.old))
            (stepping_at new (G.calls authenticator.new) (G.refusals authenticator.new)) result) }
        ensures answer { AnswersWith (G.refusals authenticator.old) (G.refusals authenticator.new) result }
    {
        let mut line = self.line();
        let answer = calls::authenticate_gssapi_with_mic(
            rt,
            &mut line,
            self.alloc(),
            user,
            mechanism_oids,
            authenticator,
        );
        self.done(line);
        answer
    }

    /// Opens a session channel (RFC 4254, section 6.1).
    final fn channel_open_session<R: Wait>(self, rt: &R) -> Result<Channel<Self::User>, Error>
        ensures call { OnSomeLine (Self.used self) (λ old new.
            Opens (submitted (msgs.ChannelOpenSession asked_ticket)) old new result) }
        ensures answer { Answers open_answer result }
    {
        let mut line = self.line();
        let opened = calls::channel_open_session(rt, &mut line);
        self.done(line);
        channel_of(self, opened)
    }

    /// Opens a channel of X11 (RFC 4254, section 6.3.2).
    final fn channel_open_x11<R: Wait>(
        self,
        rt: &R,
        originator_address: &str,
        originator_port: u32,
    ) -> Result<Channel<Self::User>, Error>
        ensures call { OnSomeLine (Self.used self) (λ old new.
            Opens (submitted (msgs.ChannelOpenX11 originator_address.now originator_port asked_ticket))
            old new result) }
        ensures answer { Answers open_answer result }
    {
        let mut line = self.line();
        let opened = calls::channel_open_x11(
            rt,
            &mut line,
            self.alloc(),
            originator_address,
            originator_port,
        );
        self.done(line);
        channel_of(self, opened)
    }

    /// Opens a connection from the server to a host (RFC 4254, section 7.2).
    final fn channel_open_direct_tcpip<R: Wait>(
        self,
        rt: &R,
        host: &str,
        port: u32,
        originator_address: &str,
        originator_port: u32,
    ) -> Result<Channel<Self::User>, Error>
        ensures call { OnSomeLine (Self.used self) (λ old new.
            Opens (submitted (msgs.ChannelOpenDirectTcpIp host.now port
            originator_address.now originator_port asked_ticket)) old new result) }
        ensures answer { Answers open_answer result }
    {
        let mut line = self.line();
        let opened = calls::channel_open_direct_tcpip(
            rt,
            &mut line,
            self.alloc(),
            host,
            port,
            originator_address,
            originator_port,
        );
        self.done(line);
        channel_of(self, opened)
    }

    /// Opens a connection from the server to a Unix socket (OpenSSH's PROTOCOL, section 2.4).
    final fn channel_open_direct_streamlocal<R: Wait>(
        self,
        rt: &R,
        socket_path: &str,
    ) -> Result<Channel<Self::User>, Error>
        ensures call { OnSomeLine (Self.used self) (λ old new.
            Opens (submitted (msgs.ChannelOpenDirectStreamLocal socket_path.now asked_ticket)) old new result) }
        ensures answer { Answers open_answer result }
    {
        let mut line = self.line();
        let opened = calls::channel_open_direct_streamlocal(
            rt,
            &mut line,
            self.alloc(),
            socket_path,
        );
        self.done(line);
        channel_of(self, opened)
    }
}

/// The channel that was opened.
fn channel_of<C: HandleCalls>(
    session: C,
    opened: Result<ChannelId, Error>,
) -> Result<Channel<C::User>, Error>
    ensures { IsChannelOf opened result }
{
    Ok(session.channel(opened?)?)
}

impl<'a, H: Handler> HandleCalls for &'a Handle<H> {
    type User = H;

    fn channel(self, id: ChannelId) -> Result<Channel<H>, NoMemory> {
        let shared = Arc::try_clone(&self.shared)?;
        Ok(Channel { shared, id })
    }
}
