//! The state of a run.

ghost use Rattle.std.specs.Prelude.{◌≡◌, IfOk};
ghost use Rattle.sshc_client_state.specs.Start.{new_session};
ghost use Rattle.sshc_run_agent.specs.AgentTurns.{idle};
ghost use Rattle.sshc_run_script.specs.Configured.{run_settings_of};

use crate::record_lines::LineBuffer;
use sshc_client::{Config, Session};
use sshc_run_agent::ServedAgent;
use sshc_wire::{NoMemory, Octets, Outbox};
use std::alloc::Global;

/// Memory that is kept from one event to the next: of an agent's records, and where lines are made.
#[derive(Drop)]
pub struct Buffers {
    pub output: Outbox,
    pub lines: LineBuffer,
}

/// The state of a run: the session, the agent with the bytes of its connections, the place of the
/// next event, the last moment, and the buffers.
#[derive(Drop)]
pub struct Point {
    pub session: Session,
    pub agents: ServedAgent,
    pub place: u64,
    pub last: u64,
    pub buffers: Buffers,
}

impl Point {
    /// The state at the start of a run.
    pub fn at_start(alloc: Global, config: &Config) -> Result<Point, NoMemory>
        ensures session { IfOk result (λ p. p.session
            ≡ new_session (run_settings_of config.now).session (run_settings_of config.now).opening) }
        ensures agents { IfOk result (λ p. p.agents ≡ idle (run_settings_of config.now).agent_asks) }
        ensures place { IfOk result (λ p. p.place ≡ 0) }
        ensures last { IfOk result (λ p. p.last ≡ 0) }
    {
        let session = Session::with_settings(
            alloc,
            config.session_settings(Octets::new(alloc)),
            config.opening_settings(),
        )?;
        Ok(Point {
            session,
            agents: ServedAgent::new(alloc, config.agent_asks),
            place: 0,
            last: 0,
            buffers: Buffers {
                output: Outbox::new(alloc),
                lines: LineBuffer::new(alloc),
            },
        })
    }
}
