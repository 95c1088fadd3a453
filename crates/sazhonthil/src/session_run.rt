//! A session that takes events as bytes, and its records that weren't read yet.

ghost use Rattle.std.specs.Prelude.{◌≡◌, [], IfOk};
ghost use Rattle.sshc_run_script.specs.PausedRuns.{nothing_yet, IsRun};
ghost use Rattle.sazhonthil.specs.RecordReads.{ReadsRecord};
ghost use Rattle.sazhonthil.specs.Taking.{asked_by, TakesEvents};

use crate::settings::{Settings, config_of};
use crate::step_answer::{StepAnswer, answer_of};
use sshc_c_calls::copy_out;
use sshc_c_calls::status::{NOTHING, OK};
use sshc_run_script::{KeptRecords, PausedRun, RefusingSigner, RefusingVerifier};
use sshc_wire::NoMemory;
use std::alloc::Global;
use std::marker::Model;

/// A run of a script whose events come one at a time, and its records that weren't read yet.
#[derive(Drop)]
pub struct SessionRun {
    run: PausedRun,
    records: KeptRecords,
}

impl Model for SessionRun {
    ghost use Rattle.sazhonthil.specs.Taking.{Taking, taking_code};

    ghost Value = { Taking };

    ghost coded = { taking_code };

    ghost view = { λ s. record { run = s.run; left = s.records } };
}

impl SessionRun {
    /// A session before its first event: host keys are judged by the known hosts text, for the host at the port.
    pub fn start(
        alloc: Global,
        settings: &Settings,
        host: &str,
        port: u16,
        known: &str,
    ) -> Result<SessionRun, NoMemory>
        // It is the run of no event, by the tables.
        ensures run { IfOk result (λ s. IsRun (asked_by settings.now host.now port known.now) nothing_yet s.run) }
        ensures left { IfOk result (λ s. s.left ≡ []) }
    {
        let config = config_of(alloc, settings)?;
        Ok(SessionRun {
            run: PausedRun::start(alloc, &config, host, port, known)?,
            records: KeptRecords::new(alloc),
        })
    }

    /// Takes the events of these bytes, mostly one. Their records come after those that weren't read yet.
    pub fn take(&mut self, alloc: Global, events: &[u8]) -> StepAnswer
        ensures takes { TakesEvents self.old events.now self.new result }
    {
        let mut signer = RefusingSigner::new(alloc);
        let step = self
            .run
            .take_kept(events, &mut signer, &RefusingVerifier, &mut self.records);
        let answer = answer_of(&step);
        let_go(step);
        answer
    }

    /// Copies the bytes of the next record to the front of the caller's memory, if they fit, and tells how many there
    /// are.
    #[tactic(auto, using(crate::proofs::SessionReads::copied_first, crate::proofs::SessionReads::kept_first, crate::proofs::SessionReads::none_left))]
    pub fn next_record(&mut self, to: &mut [u8], size: &mut usize) -> u32
        ensures reads { ReadsRecord self.old self.new to.old to.new size.new result }
    {
        let Some(record) = self.records.first() else {
            *size = 0;
            return NOTHING;
        };
        let status = copy_out(record, to, size);
        if status == OK {
            self.records.drop_first();
        }
        status
    }
}

/// Lets a value go: its variants needn't be told apart.
fn let_go<T: Drop>(_value: T) {}
