//! SIGN_REQUEST (draft-miller-ssh-agent, section 3.6).

ghost use Rattle.std.specs.Prelude.{◌≡◌, ◌∷◌, IfOk, IsSome, Some};
ghost use Rattle.sshc_wire.specs.Reads.{string_at};
ghost use Rattle.sshc_wire.specs.Wire.{string_text};
ghost use Rattle.sshc_key.specs.Asking.{SignRequest, asks};
ghost use Rattle.sshc_agent_core.specs.AgentList.{standing};
ghost use Rattle.sshc_agent_core.specs.AgentTable.Sign.{confirmed_in, confirmed_turn, held_turn, sign_request_turn};
ghost use Rattle.sshc_agent_core.specs.AgentTable.Sign.{sign_row, signed_row};
ghost use Rattle.sshc_agent_core.specs.Asked.{told_of};
ghost use Rattle.sshc_agent_core.specs.Connections.{standing_of};
ghost use Rattle.sshc_agent_core.specs.Turn.{Follows, FollowsTold, signs};
ghost use Rattle.sshc_agent_core.specs.declared.connections.Standing.TheVariants.{Closed};
ghost use Rattle.sshc_agent_core.specs.declared.key_list.HeldKey.{HeldKey as Held};

use super::AgentCore;
use super::turn::Turn;
use crate::connections::Standing;
use crate::input::{AgentOutput, Cause};
use crate::key_list::HeldKey;
use crate::signing::Told;
use sshc_key::agent_msg::{FAILURE, SIGN_REQUEST, SIGN_RESPONSE};
use sshc_wire::{Cursor, NoMemory, Octets, begin_string, end_string, put_bytes};
use std::alloc::Global;

/// The bytes before the signature in an answer: the frame's length, its number and the signature's length.
const ANSWER_HEAD: usize = 9;

/// The longest signature, in bytes.
const LONGEST_SIGNATURE: usize = 65_536;

impl AgentCore {
    /// A request to sign, on a connection on which no question is open; `whole` is its frame.
    #[tactic(auto, unfolding(crate::specs::AgentTable::Sign::sign_request_turn))]
    pub(super) fn sign_request<'a>(
        &mut self,
        body: &'a [u8],
        whole: &'a [u8],
    ) -> Result<Turn<'a>, NoMemory>
        ensures row { Follows (sign_request_turn body.now whole.now self.old) self.old self.new result }
    {
        let mut c = Cursor::new(body);
        let Ok(blob) = c.bytes() else {
            return Ok(Turn::Says(Standing::Closed, AgentOutput::Closed(Cause::Unreadable)));
        };
        match self.keys.find(blob) {
            None => self.answers(&[FAILURE]),
            Some(key) => self.held(key, c.rest(), whole),
        }
    }

    /// Lets the key sign, or asks the user first; `rest` is what follows its blob in the request.
    fn held<'a>(&self, key: &HeldKey, rest: &'a [u8], whole: &'a [u8]) -> Result<Turn<'a>, NoMemory>
        ensures row { Follows (held_turn (Some key.now) rest.now whole.now self.now) self.now self.now result }
    {
        if key.constraints.confirm {
            let blob = key.blob.copy()?;
            let whole = Octets::from_slice(self.alloc, whole)?;
            Ok(Turn::Says(Standing::KeyAsked(whole), AgentOutput::AskKey(blob)))
        } else {
            self.signs(key, rest)
        }
    }

    /// Lets the key sign.
    fn signs<'a>(&self, _key: &HeldKey, rest: &'a [u8]) -> Result<Turn<'a>, NoMemory>
        ensures row { Follows (signs self.now _key.now rest.now) self.now self.now result }
    {
        Ok(Turn::Signs(rest))
    }

    /// Lets the key of the frame sign, if it is a sign request and the key is still held.
    #[tactic(auto, unfolding(crate::specs::AgentTable::Sign::confirmed_turn))]
    pub(super) fn confirmed<'a>(&mut self, whole: &'a [u8]) -> Result<Turn<'a>, NoMemory>
        ensures row { Follows (confirmed_turn whole.now self.old) self.old self.new result }
    {
        match whole {
            [] => self.answers(&[FAILURE]),
            [number, body @ ..] => {
                if *number == SIGN_REQUEST {
                    self.confirmed_body(body)
                } else {
                    self.answers(&[FAILURE])
                }
            }
        }
    }

    fn confirmed_body<'a>(&mut self, body: &'a [u8]) -> Result<Turn<'a>, NoMemory>
        ensures row { Follows (confirmed_in (string_at body.now) self.old) self.old self.new result }
    {
        let mut c = Cursor::new(body);
        let Ok(blob) = c.bytes() else {
            return self.answers(&[FAILURE]);
        };
        match self.keys.find(blob) {
            None => self.answers(&[FAILURE]),
            Some(key) => self.signs(key, c.rest()),
        }
    }

    /// Takes the signer's answer; `rest` is what follows the key's blob in the request.
    #[tactic(auto, unfolding(crate::specs::AgentTable::Sign::sign_row))]
    pub(super) fn sign(
        &mut self,
        conn: u32,
        rest: &[u8],
        told: Told<'_>,
    ) -> Result<AgentOutput, NoMemory>
        requires seen { IsSome (standing_of self.old.conns conn) }
        ensures row { (key : Held) → FollowsTold (sign_row conn self.old key rest.now)
            self.old self.new (told_of told.entry) result }
    {
        let mut c = Cursor::new(rest);
        let Ok(_bytes) = c.bytes() else {
            return Ok(self.unreadable(conn));
        };
        let Ok(_flags) = c.u32() else {
            return Ok(self.unreadable(conn));
        };
        self.answer(conn, told)
    }

    /// Closes the connection, because its request can't be read.
    fn unreadable(&mut self, conn: u32) -> AgentOutput
        requires { IsSome (standing_of self.old.conns conn) }
        ensures list { self.new ≡ standing conn Closed self.old }
        ensures output { result ≡ AgentOutput.Closed Cause.Unreadable }
    {
        self.conns.set(conn, Standing::Closed);
        AgentOutput::Closed(Cause::Unreadable)
    }

    /// Answers with the signature, or closes the connection because the signer refused.
    fn answer(&mut self, conn: u32, told: Told<'_>) -> Result<AgentOutput, NoMemory>
        requires { IsSome (standing_of self.old.conns conn) }
        ensures row { (q : SignRequest) → FollowsTold (asks q (λ answer. signed_row conn self.old answer))
            self.old self.new (told_of told.entry) result }
    {
        match told {
            Told::Signed(signature) => {
                let frame = framed_signature(self.alloc, signature)?;
                self.conns.set(conn, Standing::Open);
                Ok(AgentOutput::Answer(frame))
            }
            Told::Refused => {
                self.conns.set(conn, Standing::Closed);
                Ok(AgentOutput::Closed(Cause::SignerRefused))
            }
            Told::Unanswered => Err(NoMemory),
        }
    }
}

/// The answer with the signature, as a whole frame. `NoMemory` also for a signature of more than 65536 bytes.
fn framed_signature(alloc: Global, signature: &[u8]) -> Result<Octets, NoMemory>
    ensures { IfOk result (λ o. o ≡ string_text (SIGN_RESPONSE ∷ string_text signature.now)) }
{
    if signature.len() > LONGEST_SIGNATURE {
        return Err(NoMemory);
    }
    let mut frame = Vec::new(alloc);
    frame.reserve(signature.len() + ANSWER_HEAD)?;
    let at = begin_string(&mut frame)?;
    frame.push(SIGN_RESPONSE)?;
    put_bytes(&mut frame, signature)?;
    end_string(&mut frame, at)?;
    Octets::from_vec(frame)
}
