//! Each public item by the crate that people take it from, so that an item that is missing there fails the gate.

pub mod wire {
    pub use sshc_wire::{
        AgentStream, ChannelOpenFailure, Clock, Cursor, Disconnect, Failed, Files, Found, List,
        MemFiles, MemSink, MemSource, MethodKind, MethodSet, Names, NoMemory, Octets, Outbox,
        PieceSink, PieceSource, Pty, Record, Resolution, Sig, Sink, Source, StdFiles, StdSink,
        StdSource, Text, Ticket, WireError, msg, put_bytes, put_names, put_text, put_u32,
    };
}

pub mod key {
    pub use sshc_key::{
        ALL_KEY_TYPES, AgentIdentity, AgentSessionBinding, Algorithm, Asker, CertType, Certificate,
        Constraint, EcdsaCurve, Error, HashAlg, KeyData, KeyRef, LocalSigner, PairData, PrivateKey,
        PrivateKeyWithHashAlg, PublicKey, PublicKeyBase64, PublicKeyExt, PublicKeyOrCertificate,
        SignRefused, Signature, Signer, Verifier, Verify, check_cert_nesting,
        load_openssh_certificate, load_public_key, parse_public_key, parse_public_key_base64,
        read_key_pair, read_signature, write_key_pair,
    };
}

pub mod hosts {
    pub use sshc_hosts::{
        check_known_hosts, check_known_hosts_path, hmac_sha1, host_text, judge_text,
        known_host_keys, known_host_keys_path, known_host_keys_text, learn_known_hosts,
        learn_known_hosts_path, learn_text, revoked_keys_text,
    };
}

pub mod audit {
    pub use sshc_audit::{AuditError, Salts, audit_words, drop_doubled, hash_names, remove_host};
}

pub mod transport {
    pub use sshc_transport::{
        ExchangeFlag, ExchangeKey, ExchangeNames, ExchangeResult, NamesChosen, PendingCount,
        Transport, TransportEvent,
    };
}

pub mod mux {
    pub use sshc_mux::{ChannelId, ChannelTable, MuxError};
}

pub mod auth {
    pub use sshc_auth::{
        Asks, AuthResult, Ended, Error, Event, ExchangeKey, ExchangeNames, ExchangeResult, Gate,
        GssapiAuthenticator, GssapiError, GssapiStep, Method, NamesChosen, Opening, Outbox, Phase,
        Prompt, Record, RemoteDisconnectInfo, Resolution, SharedMethod, Step, Ticket, Told,
        mic_data, to_sign, write_auth_request,
    };
}

pub mod client {
    pub use sshc_client::{
        ChannelMsg, Config, DisconnectReason, Ended, Error, Event, Handler,
        KeyboardInteractiveAuthResponse, Msg, OpenAnswer, RemoteDisconnectInfo, ReplyEntry,
        ReplyKind, Session, Step,
    };
}

pub mod agent {
    pub use sshc_agent::msg::{
        ADD_ID_CONSTRAINED, ADD_IDENTITY, ADD_SMARTCARD_KEY, ADD_SMARTCARD_KEY_CONSTRAINED,
        CONSTRAIN_CONFIRM, CONSTRAIN_EXTENSION, CONSTRAIN_LIFETIME, EXTENSION, EXTENSION_RESPONSE,
        FAILURE, IDENTITIES_ANSWER, LOCK, MAX_AGENT_FRAME_LEN, REMOVE_ALL_IDENTITIES,
        REMOVE_IDENTITY, REMOVE_SMARTCARD_KEY, REQUEST_IDENTITIES, SIGN_REQUEST, SIGN_RESPONSE,
        SSH_AGENT_RSA_SHA2_256, SSH_AGENT_RSA_SHA2_512, SUCCESS, UNLOCK,
    };
    pub use sshc_agent::{
        Acceptor, Agent, AgentCore, AgentInput, AgentOutput, AgentShared, AgentState, Call,
        CallRefused, Cause, CloseError, Entry, Frames, LastingListener, Listener, MessageType,
        NotAccepted, Pause, Seat, ServerError, serve, serve_one,
    };
}

pub mod ask {
    pub use sshc_ask::{AgentClient, Opener, connect_env, connect_uds};
}

pub mod handle {
    pub use sshc_handle::{
        Channel, Handle, HandleState, Maker, Runner, Turn, WithError, algs_answer, auth_answer,
        connect, connect_stream, done_answer, open_answer, port_answer, prompt_answer,
        reply_answer,
    };
}

pub mod run {
    pub use sshc_run::{
        Config, KnownHostsHandler, RunError, ToySigner, ToyVerifier, generate, run_script,
        run_words, serve_words,
    };
}

pub mod proxy {
    pub use sshc_proxy::{
        Policy, PolicyError, ProxyCore, ProxyError, ProxyInput, ProxyOutput, parse_policy,
        proxy_run, proxy_words,
    };
}

pub mod forward {
    pub use sshc_forward::{
        ForwardCore, FwdError, FwdEvent, FwdOutput, FwdRefused, Given, PairEvent, Reading,
        ServedPair, SharedSocket, Socket, SocketReader, SocketWriter, StreamEnd, account,
        forward_words, run_forward, serve_pair, split_socket,
    };
}
