//! One entry of an agent's history.

ghost use Rattle.std.specs.Prelude.{◌≡◌, IfOk};

use crate::input::{AgentInput, AgentOutput};
use sshc_wire::{NoMemory, Octets};

/// An input of a connection, with its signature and its output.
#[derive(Drop, PartialEq, Eq)]
pub struct Entry {
    pub conn: u32,
    /// The index of this entry among those of its connection, from 0.
    pub number: u32,
    /// In milliseconds.
    pub moment: u64,
    pub input: AgentInput,
    /// The signature that the signer returned, if the step signed.
    pub signature: Option<Octets>,
    pub output: AgentOutput,
}

fn copied(signature: &Option<Octets>) -> Result<Option<Octets>, NoMemory>
    ensures { IfOk result (λ s. s ≡ signature.now) }
{
    match signature {
        None => Ok(None),
        Some(signature) => Ok(Some(signature.copy()?)),
    }
}

impl Entry {
    pub fn copy(&self) -> Result<Entry, NoMemory>
        ensures { IfOk result (λ e. e ≡ self.now) }
    {
        let input = self.input.copy()?;
        let signature = copied(&self.signature)?;
        let output = self.output.copy()?;
        Ok(Entry {
            conn: self.conn,
            number: self.number,
            moment: self.moment,
            input,
            signature,
            output,
        })
    }
}
