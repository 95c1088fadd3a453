//! The agent's core: one step for each moment, connection and input.

ghost use Rattle.std.specs.Prelude.{◌≡◌, IfOk};
ghost use Rattle.std.specs.BTreeMap.{get};
ghost use Rattle.std.specs.Option.{is_some};
ghost use Rattle.std.specs.Ordering.{nat_cmp};
ghost use Rattle.sshc_agent_core.specs.Deadlines.{Agree, AreApart};
ghost use Rattle.sshc_agent_core.specs.AgentHistory.{KeepsOthers};
ghost use Rattle.sshc_agent_core.specs.AgentList.{aged, empty_list, forgotten};
ghost use Rattle.sshc_agent_core.specs.AgentTable.{asked_turn, frame_turn, is_refused, key_answer_turn, message_turn};
ghost use Rattle.sshc_agent_core.specs.AgentTable.{request_answer_turn, tested_turn};
ghost use Rattle.sshc_agent_core.specs.KeyList.{AreListable, listing};
ghost use Rattle.sshc_agent_core.specs.Connections.{awaits_in, standing_of};
ghost use Rattle.sshc_agent_core.specs.Turn.{Follows, answered};

use crate::connections::{Connections, Standing};
use crate::input::AgentOutput;
use crate::key_list::KeyList;
use crate::message::message_type;
use sshc_key::agent_msg;
use sshc_wire::{List, MessageType, NoMemory, Octets, framed};
use std::alloc::Global;
use std::collections::BTreeMap;
use std::marker::Model;

mod add;
mod asking;
mod lock;
mod remove;
mod sign;
mod step;
pub(crate) mod turn;

use turn::Turn;

/// Keys, a lock and connections, which contracts see as plain data.
#[derive(Drop)]
pub struct AgentCore {
    alloc: Global,
    asks: bool,
    latest: u64,
    keys: KeyList,
    passphrase: Option<Octets>,
    conns: Connections,
}

impl Model for AgentCore {
    ghost use Rattle.sshc_agent_core.specs.AgentList.{AgentList};
    ghost use Rattle.sshc_agent_core.specs.KeyList.{AreListable};
    ghost use Rattle.std.specs.Coded.{codes};
    ghost use Rattle.sshc_key.specs.PairCode.{key_pair_code};

    ghost Value = { AgentList };

    ghost coded = { Prim.hlevel (codes, key_pair_code) };

    ghost view = { λ a. record {
      asks = a.asks;
      latest = a.latest;
      keys = a.keys;
      passphrase = a.passphrase;
      conns = a.conns;
    } };

    ghost invariant = { λ a. AreListable a.keys };
}

impl AgentCore {
    /// No keys and no lock. If `asks`, the user is asked about each request.
    #[tactic(auto, using(crate::proofs::Listable::none_listable))]
    pub fn new(alloc: Global, asks: bool) -> AgentCore
        ensures { result ≡ empty_list asks }
    {
        AgentCore {
            alloc,
            asks,
            latest: 0,
            keys: KeyList::new(alloc),
            passphrase: None,
            conns: Connections::new(alloc),
        }
    }

    /// The blobs of the held keys that have a deadline, by their deadlines, in milliseconds. Takes no memory.
    pub fn deadlines(&self) -> &BTreeMap<u64, List<Octets>>
        ensures agree { Agree self.now.keys (get nat_cmp result.now) }
        ensures apart { AreApart self.now.keys }
    {
        self.keys.deadlines()
    }

    /// Whether a question is open on the connection.
    pub fn awaits(&self, conn: u32) -> bool
        ensures { result ≡ awaits_in (standing_of self.now.conns conn) }
    {
        match self.conns.standing(conn) {
            Some(Standing::RequestAsked(_)) => true,
            Some(Standing::KeyAsked(_)) => true,
            _ => false,
        }
    }

    /// Forgets a connection, as one that ended and whose number no later one has. Takes no memory.
    pub fn forget(&mut self, conn: u32)
        ensures list { self.new ≡ forgotten conn self.old }
        // Every other connection is as it was.
        ensures others { KeepsOthers conn self.old self.new }
    {
        self.conns.forget(conn);
    }

    /// Answers with a frame of this body. No question is open afterwards.
    fn answers<'a>(&self, body: &[u8]) -> Result<Turn<'a>, NoMemory>
        ensures { IfOk result (λ t. t ≡ answered body.now) }
    {
        let frame = framed(self.alloc, body)?;
        Ok(Turn::Says(Standing::Open, AgentOutput::Answer(frame)))
    }

    /// A message whose number is known; `whole` is its frame.
    fn message<'a>(
        &mut self,
        message: MessageType,
        number: u8,
        body: &'a [u8],
        whole: &'a [u8],
    ) -> Result<Turn<'a>, NoMemory>
        ensures row { Follows (message_turn message number body.now whole.now self.old) self.old self.new result }
    {
        match message {
            MessageType::RequestKeys => self.identities(),
            MessageType::Sign => self.sign_request(body, whole),
            MessageType::AddKeys => self.add(number == agent_msg::ADD_ID_CONSTRAINED, body),
            MessageType::RemoveKeys => self.remove(body),
            MessageType::RemoveAllKeys => self.remove_all(),
            MessageType::Lock => self.lock(body),
            MessageType::Unlock => self.unlock(body),
        }
    }

    /// REQUEST_IDENTITIES (draft-miller-ssh-agent, section 3.5).
    fn identities<'a>(&self) -> Result<Turn<'a>, NoMemory>
        ensures { IfOk result (λ t. t ≡ answered (listing self.now.keys)) }
    {
        let frame = self.keys.listing(self.alloc)?;
        Ok(Turn::Says(Standing::Open, AgentOutput::Answer(frame)))
    }

    /// Whether the lock refuses the message: a locked agent refuses all messages but an unlock, an unlocked one only an
    /// unlock.
    fn refuses(&self, message: MessageType) -> bool
        ensures { result ≡ is_refused message (is_some self.now.passphrase) }
    {
        let is_locked = self.passphrase.is_some();
        match message {
            MessageType::Unlock => !is_locked,
            _ => is_locked,
        }
    }

    /// A frame on a connection on which no question is open.
    #[tactic(auto, unfolding(crate::specs::AgentTable::frame_turn))]
    fn frame<'a>(&mut self, whole: &'a [u8]) -> Result<Turn<'a>, NoMemory>
        ensures row { Follows (frame_turn whole.now self.old) self.old self.new result }
    {
        match whole {
            [] => self.answers(&[agent_msg::FAILURE]),
            [number, body @ ..] => self.asked(message_type(*number), *number, body, whole),
        }
    }

    fn asked<'a>(
        &mut self,
        message: Option<MessageType>,
        number: u8,
        body: &'a [u8],
        whole: &'a [u8],
    ) -> Result<Turn<'a>, NoMemory>
        ensures row { Follows (asked_turn message number body.now whole.now self.old) self.old self.new result }
    {
        let Some(message) = message else {
            return self.answers(&[agent_msg::FAILURE]);
        };
        if self.refuses(message) {
            return self.answers(&[agent_msg::FAILURE]);
        }
        if self.asks {
            let whole = Octets::from_slice(self.alloc, whole)?;
            return Ok(Turn::Says(
                Standing::RequestAsked(whole),
                AgentOutput::AskRequest(message),
            ));
        }
        self.message(message, number, body, whole)
    }

    /// The user's decision on the request in this frame. The lock is tested again.
    #[tactic(auto, unfolding(crate::specs::AgentTable::request_answer_turn))]
    fn request_answer<'a>(
        &mut self,
        is_allowed: bool,
        whole: &'a [u8],
    ) -> Result<Turn<'a>, NoMemory>
        ensures row { Follows (request_answer_turn is_allowed whole.now self.old) self.old self.new result }
    {
        if !is_allowed {
            return self.answers(&[agent_msg::FAILURE]);
        }
        match whole {
            [] => self.answers(&[agent_msg::FAILURE]),
            [number, body @ ..] => self.tested(message_type(*number), *number, body, whole),
        }
    }

    fn tested<'a>(
        &mut self,
        message: Option<MessageType>,
        number: u8,
        body: &'a [u8],
        whole: &'a [u8],
    ) -> Result<Turn<'a>, NoMemory>
        ensures row { Follows (tested_turn message number body.now whole.now self.old) self.old self.new result }
    {
        let Some(message) = message else {
            return self.answers(&[agent_msg::FAILURE]);
        };
        if self.refuses(message) {
            return self.answers(&[agent_msg::FAILURE]);
        }
        self.message(message, number, body, whole)
    }

    /// The user's decision on the use of the key of this frame. The lock is tested again.
    #[tactic(auto, unfolding(crate::specs::AgentTable::key_answer_turn))]
    fn key_answer<'a>(&mut self, is_confirmed: bool, whole: &'a [u8]) -> Result<Turn<'a>, NoMemory>
        ensures row { Follows (key_answer_turn is_confirmed whole.now self.old) self.old self.new result }
    {
        if !is_confirmed || self.passphrase.is_some() {
            return self.answers(&[agent_msg::FAILURE]);
        }
        self.confirmed(whole)
    }

    /// The listing of the keys has at most as many bytes as a frame may have.
    fn is_listable(&self)
        ensures { AreListable self.now.keys }
    {
        let _keys = &self.keys;
    }

    /// Moves the clock to `now`, unless an earlier moment was later, and drops the keys whose deadline has come.
    #[tactic(auto, using(crate::proofs::Listable::unexpired_listable))]
    fn age(&mut self, now: u64)
        ensures { self.new ≡ aged now self.old }
    {
        self.latest = self.latest.max(now);
        self.keys.expire(self.latest);
    }
}
