//! Messages to an agent, written part by part (draft-miller-ssh-agent, section 3).

ghost use Rattle.std.specs.Prelude.{◌≡◌, ◌≤◌, [], ◌∷◌, ◌++◌, drop, length, IfOk, OnOk};
ghost use Rattle.sshc_wire.specs.Wire.{bool_text, counted_text, string_text, u32_text};
ghost use Rattle.sshc_key.specs.PairGrammar.{key_pair_text};
ghost use Rattle.sshc_ask.specs.AgentCalls.Frames.{constraint_text, constraints_text};

use sshc_key::{Constraint, PrivateKey, agent_msg, write_key_pair};
use sshc_wire::{NoMemory, put_bool, put_bytes, put_u32};
use std::alloc::Global;
use std::marker::Model;

/// One more than the greatest length of a string.
const TOO_LONG: usize = 1 << 32;

/// A message that is being written, which contracts see as its bytes. Room for its length is already reserved in front
/// of them.
#[derive(Drop)]
pub(crate) struct Message {
    bytes: Vec<u8>,
}

impl Model for Message {
    ghost use Rattle.std.specs.Prelude.{List, ℕ, ◌≤◌, drop, length};

    ghost Value = { List ℕ };

    ghost view = { λ m. drop 4 m.bytes.items };

    ghost invariant = { λ m. 4 ≤ length m.bytes.items };
}

impl Message {
    /// A message with this number and no fields yet.
    pub(crate) fn new(alloc: Global, number: u8) -> Result<Message, NoMemory>
        ensures { IfOk result (λ m. m ≡ number ∷ []) }
    {
        Ok(Message {
            bytes: vec![in alloc; 0u8, 0, 0, 0, number]?,
        })
    }

    /// Appends a string. One of 2^32 bytes or more counts as out of memory.
    pub(crate) fn string(&mut self, text: &[u8]) -> Result<(), NoMemory>
        ensures { OnOk result (self.new ≡ self.old ++ string_text text.now) }
    {
        if text.len() >= TOO_LONG {
            return Err(NoMemory);
        }
        put_bytes(&mut self.bytes, text)
    }

    /// Appends a number of four bytes.
    pub(crate) fn number(&mut self, number: u32) -> Result<(), NoMemory>
        ensures { OnOk result (self.new ≡ self.old ++ u32_text number) }
    {
        put_u32(&mut self.bytes, number)
    }

    /// Appends a boolean.
    pub(crate) fn flag(&mut self, flag: bool) -> Result<(), NoMemory>
        ensures { OnOk result (self.new ≡ self.old ++ bool_text flag) }
    {
        put_bool(&mut self.bytes, flag)
    }

    /// Appends a key pair.
    pub(crate) fn pair(&mut self, key: &PrivateKey) -> Result<(), NoMemory>
        ensures { OnOk result (self.new ≡ self.old ++ key_pair_text key.now) }
    {
        write_key_pair(&mut self.bytes, key)
    }

    /// Appends a byte.
    fn byte(&mut self, byte: u8) -> Result<(), NoMemory>
        ensures { OnOk result (self.new ≡ self.old ++ byte ∷ []) }
    {
        self.bytes.push(byte)?;
        Ok(())
    }

    fn constraint(&mut self, constraint: &Constraint) -> Result<(), NoMemory>
        ensures { OnOk result (self.new ≡ self.old ++ constraint_text constraint.now) }
    {
        match constraint {
            Constraint::KeyLifetime { seconds } => {
                self.byte(agent_msg::CONSTRAIN_LIFETIME)?;
                self.number(*seconds)
            }
            Constraint::Confirm => self.byte(agent_msg::CONSTRAIN_CONFIRM),
            Constraint::Extensions { name, details } => {
                self.byte(agent_msg::CONSTRAIN_EXTENSION)?;
                self.string(name.as_slice())?;
                self.string(details.as_slice())
            }
        }
    }

    /// Appends constraints, one after another.
    pub(crate) fn constraints(&mut self, constraints: &[Constraint]) -> Result<(), NoMemory>
        ensures { OnOk result (self.new ≡ self.old ++ constraints_text constraints.now) }
    {
        for constraint in constraints {
            self.constraint(constraint)?;
        }
        Ok(())
    }

    /// Appends the number of constraints, and then the constraints. `NoMemory` also for 2^32 constraints or more.
    #[tactic(auto, unfolding(sshc_wire::specs::Wire::counted_text))]
    pub(crate) fn counted_constraints(&mut self, constraints: &[Constraint]) -> Result<(), NoMemory>
        ensures { OnOk result (self.new ≡ self.old ++ counted_text constraint_text constraints.now) }
    {
        if constraints.len() >= TOO_LONG {
            return Err(NoMemory);
        }
        self.number(constraints.len() as u32)?;
        self.constraints(constraints)
    }

    /// The frame of the message. A message of 2^32 bytes or more counts as out of memory.
    #[tactic(auto, unfolding(sshc_wire::specs::Wire::string_text), using(crate::proofs::MessageLemmas::behind_four))]
    pub(crate) fn into_frame(self) -> Result<Vec<u8>, NoMemory>
        ensures { IfOk result (λ v. v.items ≡ string_text self) }
    {
        let mut bytes = self.bytes;
        let length = bytes.len() - 4;
        if length >= TOO_LONG {
            return Err(NoMemory);
        }
        put_length(&mut bytes, length as u32);
        Ok(bytes)
    }
}

/// Writes a length into the room reserved at the front.
#[tactic(auto, unfolding(sshc_wire::specs::Wire::u32_text))]
fn put_length(frame: &mut [u8], count: u32)
    requires { 4 ≤ length frame.old }
    ensures { frame.new ≡ u32_text count ++ drop 4 frame.old }
{
    frame[..4].copy_from_slice(&count.to_be_bytes());
}
