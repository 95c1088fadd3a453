//! A session with its transport, driven turn by turn at moments that a test names.

use crate::answers::{let_go, together};
use sshc_client::{Config, Error, Msg};
use sshc_handle::{
    HandleState, KeyboardInteractiveAuthResponse, Turn, algs_answer, done_answer, prompt_answer,
};
use sshc_sample_fakes::{Coming, FakeTransport, Host, Keeper, fake_key};
use sshc_toy::{RefusingVerifier, ToySigner};
use sshc_transport::TransportEvent;
use sshc_wire::{ChannelId, Disconnect, List, NoMemory, Octets, Record, Text, Ticket};
use std::alloc::Global;

/// What a test does to the session.
#[derive(Clone, Copy)]
pub(crate) enum Act {
    /// Takes a turn at this moment, in milliseconds.
    Turn(u64),
    /// Takes turns at moment 0 until one takes nothing, at most 40.
    Settle,
    /// Submits what a user asks.
    Submit(Asked),
    /// The server sends this packet.
    Sends(&'static [u8]),
    /// The server closes the stream.
    Closes,
    /// Takes the answer of this ticket.
    Take(Kept, u32),
    /// Asks whether an answer of the user is awaited.
    Awaits,
    /// Asks how the session has ended.
    Ended,
}

/// What a user asks.
#[derive(Clone, Copy)]
pub(crate) enum Asked {
    Ping,
    /// About the server's signature algorithms.
    Algorithms,
    /// That the server prove a host key.
    Prove,
    /// That channel 5, which the server opened, is accepted.
    Accept,
    /// A login by prompts.
    Prompts,
    /// Responses to prompts, of which there are none.
    Responses,
    Disconnect,
    /// No user is left.
    Gone,
}

/// How an answer is read.
#[derive(Clone, Copy)]
pub(crate) enum Kept {
    /// Of a call that reports success or an error.
    Done,
    /// Of a login by prompts.
    Prompts,
    /// Of a question about signature algorithms.
    Algorithms,
}

/// What it was answered.
#[derive(Clone, Copy, PartialEq, Eq)]
pub(crate) enum Saw {
    /// A turn that took an event.
    Took,
    /// A turn that took nothing.
    Idle,
    /// A turn that ended the session.
    Ended,
    /// A turn that refused the session, or a call that was refused.
    Refused(Error),
    /// No turn can be taken any more.
    Over,
    /// What was submitted has this ticket; 0 for none.
    Submitted(u32),
    /// A success.
    Success,
    /// Prompts of the server.
    Prompted,
    /// The server named its algorithms, and none is for RSA keys.
    NoRsaName,
    /// No answer is held.
    Nothing,
    /// Another answer than these.
    Other,
    Yes,
    No,
}

/// What is done, and what it is answered.
pub(crate) type Done = (Act, Saw);

/// What the session is made with.
#[derive(Clone, Copy)]
pub(crate) struct Scene {
    /// In milliseconds.
    pub(crate) inactivity_timeout: Option<u64>,
    /// In milliseconds.
    pub(crate) keepalive_interval: Option<u64>,
    /// Whether the first exchange opens the session.
    pub(crate) anonymous: bool,
    pub(crate) first: First,
    pub(crate) host: Kind,
    /// How many packets the transport takes before it fails.
    pub(crate) good: u64,
}

/// What comes from the server at first.
#[derive(Clone, Copy)]
pub(crate) enum First {
    Nothing,
    Kexinit,
    Exchange,
}

/// Which server there is.
#[derive(Clone, Copy)]
pub(crate) enum Kind {
    Granting,
    Refusing,
    /// It answers no ping.
    Silent,
}

/// A session that its first exchange opens.
pub(crate) const OPENED: Scene = Scene {
    inactivity_timeout: None,
    keepalive_interval: None,
    anonymous: true,
    first: First::Exchange,
    host: Kind::Granting,
    good: 99,
};

/// A session that has to log in.
pub(crate) const GREETING: Scene = Scene {
    inactivity_timeout: None,
    keepalive_interval: None,
    anonymous: false,
    first: First::Exchange,
    host: Kind::Granting,
    good: 99,
};

/// A session to which nothing comes.
pub(crate) const QUIET: Scene = Scene {
    inactivity_timeout: None,
    keepalive_interval: None,
    anonymous: false,
    first: First::Nothing,
    host: Kind::Granting,
    good: 99,
};

/// A session with its transport and signer.
#[derive(Drop)]
struct Bench {
    alloc: Global,
    state: Box<HandleState<Keeper>>,
    transport: Box<FakeTransport<Host>>,
    signer: ToySigner,
}

fn config_of(alloc: Global, scene: Scene) -> Result<Config, NoMemory> {
    let mut config = Config::default_in(alloc)?;
    config.inactivity_timeout = scene.inactivity_timeout;
    config.keepalive_interval = scene.keepalive_interval;
    config.anonymous = scene.anonymous;
    Ok(config)
}

fn host_of(alloc: Global, kind: Kind) -> Host {
    match kind {
        Kind::Granting => Host::new(alloc, 1),
        Kind::Refusing => Host::refusing(alloc),
        Kind::Silent => Host::ponging(alloc, b""),
    }
}

fn coming_of(alloc: Global, host: &Host, first: First) -> Result<Coming, NoMemory> {
    match first {
        First::Nothing => Ok(Coming::new(alloc)),
        First::Kexinit => begun(alloc),
        First::Exchange => host.greeting(),
    }
}

/// The server begins an exchange.
fn begun(alloc: Global) -> Result<Coming, NoMemory> {
    let mut coming = Coming::new(alloc);
    coming.event(TransportEvent::PeerKexinit)?;
    Ok(coming)
}

fn transport_of(alloc: Global, scene: Scene) -> Result<Box<FakeTransport<Host>>, NoMemory> {
    let host = host_of(alloc, scene.host);
    let coming = coming_of(alloc, &host, scene.first)?;
    Ok(Box::new(alloc, FakeTransport::new(host, coming, scene.good))?)
}

fn state_of(alloc: Global, scene: Scene) -> Result<Box<HandleState<Keeper>>, NoMemory> {
    let config = config_of(alloc, scene)?;
    let state = HandleState::new(config, Octets::new(alloc))?;
    Ok(Box::new(alloc, state)?)
}

impl Bench {
    fn new(alloc: Global, scene: Scene) -> Result<Bench, NoMemory> {
        let (state, transport) = together(state_of(alloc, scene), transport_of(alloc, scene))?;
        Ok(Bench {
            alloc,
            state,
            transport,
            signer: ToySigner::new(alloc),
        })
    }

    /// Takes a turn, unless the session has ended.
    fn turn(&mut self, now: u64) -> Saw {
        if self.state.is_over() {
            Saw::Over
        } else {
            turned(
                self.state.turn(
                    now,
                    &mut *self.transport,
                    &mut Keeper,
                    &mut self.signer,
                    &RefusingVerifier,
                ),
            )
        }
    }

    fn settle(&mut self) -> Saw {
        let mut saw = Saw::Idle;
        for _ in 0..40 {
            saw = self.turn(0);
            if saw != Saw::Took {
                return saw;
            }
        }
        saw
    }

    fn submit(&mut self, msg: Msg) -> Saw {
        submitted(self.state.submit(msg))
    }

    fn prove(&mut self) -> Saw {
        match proof_asked(self.alloc) {
            Ok(msg) => self.submit(msg),
            Err(NoMemory) => Saw::Refused(Error::NoMemory),
        }
    }

    fn start_prompts(&mut self) -> Saw {
        submitted(
            self.state
                .start_prompts(Text::new(self.alloc), Text::new(self.alloc)),
        )
    }

    fn respond(&mut self) -> Saw {
        responded(self.state.respond(List::new(self.alloc)))
    }

    fn ask(&mut self, asked: Asked) -> Saw {
        match asked {
            Asked::Ping => self.submit(ping()),
            Asked::Algorithms => self.submit(algorithms_asked()),
            Asked::Prove => self.prove(),
            Asked::Accept => self.submit(accepted()),
            Asked::Prompts => self.start_prompts(),
            Asked::Responses => self.respond(),
            Asked::Disconnect => self.submit(disconnection(self.alloc)),
            Asked::Gone => done(self.state.gone()),
        }
    }

    fn take(&mut self, kept: Kept, ticket: u32) -> Saw {
        match self.state.poll(Ticket(ticket)) {
            Some(record) => read(kept, record),
            None => Saw::Nothing,
        }
    }

    fn close(&mut self) -> Saw {
        self.transport.ends();
        Saw::Success
    }

    fn act(&mut self, act: Act) -> Saw {
        match act {
            Act::Turn(now) => self.turn(now),
            Act::Settle => self.settle(),
            Act::Submit(asked) => self.ask(asked),
            Act::Sends(packet) => sent(self.transport.comes(packet)),
            Act::Closes => self.close(),
            Act::Take(kept, ticket) => self.take(kept, ticket),
            Act::Awaits => yes_or_no(self.state.awaits_answer()),
            Act::Ended => ended(&self.state),
        }
    }

    /// Does all of this in order, up to the first that is answered otherwise than its line says, and returns the number
    /// of that line.
    fn play(&mut self, lines: &[Done]) -> Option<usize> {
        for (at, (act, awaited)) in lines.iter().enumerate() {
            let saw = self.act(*act);
            if saw != *awaited {
                return Some(at);
            }
        }
        None
    }
}

fn ping() -> Msg {
    Msg::Ping {
        ticket: Some(Ticket(0)),
    }
}

fn algorithms_asked() -> Msg {
    Msg::GetServerSigAlgs {
        ticket: Some(Ticket(0)),
    }
}

fn accepted() -> Msg {
    Msg::ServerChannelOpenReply {
        id: ChannelId(5),
        result: Ok(()),
    }
}

fn disconnection(alloc: Global) -> Msg {
    Msg::Disconnect {
        reason: Disconnect::ByApplication,
        description: Text::new(alloc),
        language_tag: Text::new(alloc),
    }
}

fn proof_asked(alloc: Global) -> Result<Msg, NoMemory> {
    let mut keys = List::new(alloc);
    keys.push(fake_key(alloc)?)?;
    Ok(Msg::HostKeysProve {
        ticket: Some(Ticket(0)),
        keys,
    })
}

fn played(bench: Bench, lines: &[Done]) -> Option<usize> {
    let mut bench = bench;
    let at = bench.play(lines);
    let_go(bench);
    at
}

/// Does all of this in a new session, and returns the number of the first line that is answered otherwise, from 0;
/// `None` if each is answered as its line says.
pub(crate) fn differs(
    alloc: Global,
    scene: Scene,
    lines: &[Done],
) -> Result<Option<usize>, NoMemory> {
    match Bench::new(alloc, scene) {
        Ok(bench) => Ok(played(bench, lines)),
        Err(NoMemory) => Err(NoMemory),
    }
}

fn turned(turn: Turn<Error>) -> Saw {
    match turn {
        Turn::Took => Saw::Took,
        Turn::Idle => Saw::Idle,
        Turn::Ended(_) => Saw::Ended,
        Turn::Refused(e) => Saw::Refused(e),
    }
}

fn submitted(ticket: Result<Option<Ticket>, Error>) -> Saw {
    match ticket {
        Ok(Some(ticket)) => Saw::Submitted(ticket.0),
        Ok(None) => Saw::Submitted(0),
        Err(e) => Saw::Refused(e),
    }
}

fn done(answer: Result<(), Error>) -> Saw {
    match answer {
        Ok(()) => Saw::Success,
        Err(e) => Saw::Refused(e),
    }
}

fn sent(came: Result<(), NoMemory>) -> Saw {
    match came {
        Ok(()) => Saw::Success,
        Err(NoMemory) => Saw::Refused(Error::NoMemory),
    }
}

fn yes_or_no(yes: bool) -> Saw {
    if yes { Saw::Yes } else { Saw::No }
}

fn responded(answer: Result<Ticket, Error>) -> Saw {
    match answer {
        Ok(ticket) => Saw::Submitted(ticket.0),
        Err(e) => Saw::Refused(e),
    }
}

fn read(kept: Kept, record: Record) -> Saw {
    match kept {
        Kept::Done => read_done(record),
        Kept::Prompts => read_prompts(record),
        Kept::Algorithms => read_algorithms(record),
    }
}

fn read_done(record: Record) -> Saw {
    match done_answer(record) {
        Some(answer) => done(answer),
        None => Saw::Other,
    }
}

fn read_prompts(record: Record) -> Saw {
    match prompt_answer(record) {
        Some(answer) => prompted(answer),
        None => Saw::Other,
    }
}

fn prompted(answer: Result<KeyboardInteractiveAuthResponse, Error>) -> Saw {
    match answer {
        Ok(KeyboardInteractiveAuthResponse::InfoRequest { .. }) => Saw::Prompted,
        Ok(_) => Saw::Other,
        Err(e) => Saw::Refused(e),
    }
}

fn read_algorithms(record: Record) -> Saw {
    match algs_answer(record) {
        Some(Ok(Some(None))) => Saw::NoRsaName,
        Some(Err(e)) => Saw::Refused(e),
        _ => Saw::Other,
    }
}

fn ended(state: &HandleState<Keeper>) -> Saw {
    match state.ended() {
        Ok(Some(_)) => Saw::Ended,
        Ok(None) => Saw::No,
        Err(e) => Saw::Refused(e),
    }
}
