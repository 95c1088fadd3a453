//! A call of a seat, which corresponds to one entry of the history.

ghost use Rattle.std.specs.Prelude.{◌≡◌, IfOk};

use sshc_agent_core::{AgentInput, AgentOutput};
use sshc_wire::NoMemory;

/// An input at a moment in milliseconds, and its output.
#[derive(Drop)]
pub struct Call {
    pub moment: u64,
    pub input: AgentInput,
    pub output: AgentOutput,
}

impl Call {
    pub fn copy(&self) -> Result<Call, NoMemory>
        ensures { IfOk result (λ c. c ≡ self.now) }
    {
        let input = self.input.copy()?;
        let output = self.output.copy()?;
        Ok(Call {
            moment: self.moment,
            input,
            output,
        })
    }
}
