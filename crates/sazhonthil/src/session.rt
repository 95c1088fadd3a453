//! A session: the struct of the caller's, and the calls.

ghost use Rattle.std.specs.Prelude.{◌≡◌, ◌≢◌, ◌⊎◌, [], Option, Some, None, IsNone, IsSome, IfSome, IfOk, option_map};
ghost use Rattle.std.specs.Str.{IsUtf8};
ghost use Rattle.sshc_run_script.specs.PausedRuns.{nothing_yet, IsRun};
ghost use Rattle.sazhonthil.specs.RecordReads.{ReadsRecord};
ghost use Rattle.sazhonthil.specs.StepAnswers.{step_answer};
ghost use Rattle.sazhonthil.specs.Taking.{asked_by, TakesEvents};

use crate::held_session::HeldSession;
use crate::session_run::SessionRun;
use crate::settings::Settings;
use sshc_c_calls::status::{MISUSE, NO_MEMORY, NOT_TEXT, OK};
use sshc_wire::NoMemory;
use std::alloc::Global;
use std::mem::replace;

/// A session, or nothing: what a caller in C has in its own memory. Zeroed memory holds nothing.
#[repr(C)]
#[derive(Drop)]
pub struct SessionHandle {
    pub live: u32,
    pub held: HeldSession,
    ghost empty: { live ≡ 0 → IsNone held.run },
    ghost full: { live ≢ 0 → IsSome held.run },
}

impl SessionHandle {
    fn empty(alloc: Global) -> SessionHandle
        ensures { result.held.run ≡ None }
    {
        SessionHandle {
            live: 0,
            held: HeldSession::empty(alloc),
        }
    }

    fn of_box(run: Box<SessionRun>) -> SessionHandle
        ensures { result.held.run ≡ Some run.value }
    {
        SessionHandle {
            live: 1,
            held: HeldSession::of_box(run),
        }
    }

    /// Takes out what it holds.
    fn take(&mut self, alloc: Global) -> Option<Box<SessionRun>>
        ensures taken { option_map (λ b. b.value) result ≡ self.old.held.run }
        ensures rest { self.new.held.run ≡ None }
    {
        if self.live == 0 {
            return None;
        }
        let SessionHandle { live: _, held } = replace(self, SessionHandle::empty(alloc));
        Some(held.into_box())
    }
}

/// A session in memory of its own.
fn boxed(
    alloc: Global,
    settings: &Settings,
    host: &str,
    port: u16,
    known: &str,
) -> Result<Box<SessionRun>, NoMemory>
    ensures run { IfOk result (λ b. IsRun (asked_by settings.now host.now port known.now) nothing_yet b.value.run) }
    ensures left { IfOk result (λ b. b.value.left ≡ []) }
{
    let run = SessionRun::start(alloc, settings, host, port, known)?;
    match Box::new(alloc, run) {
        Ok(run) => Ok(run),
        Err(_) => Err(NoMemory),
    }
}

/// Makes a session, where the struct holds nothing. It accepts the plain host keys that the known hosts text accepts
/// for the host at the port, and no other. The texts are UTF-8.
#[unsafe(no_mangle)]
pub extern "C" fn sshc_session_new(
    alloc: Global,
    session: &mut SessionHandle,
    settings: &Settings,
    host: &[u8],
    port: u16,
    known: &[u8],
) -> u32
    // The session is the run of no event: what is handed in later has all promises of a run of a script.
    ensures made { result ≡ 0 → IfSome session.new.held.run
        (λ s. IsRun (asked_by settings.now host.now port known.now) nothing_yet s.run × (s.left ≡ [])) }
    ensures held { result ≡ 0 → IsSome session.new.held.run }
    ensures kept { result ≢ 0 → session.new.held.run ≡ session.old.held.run }
    ensures misuse { IsSome session.old.held.run → result ≡ 2 }
    // The status where it holds nothing.
    ensures text { session.old.held.run ≡ None → IsUtf8 host.now → IsUtf8 known.now → (result ≡ 0) ⊎ (result ≡ 20) }
    ensures no_text { session.old.held.run ≡ None → (IsUtf8 host.now → IsUtf8 known.now → ⊥) → result ≡ 3 }
{
    if session.live != 0 {
        return MISUSE;
    }
    let Ok(host) = str::from_utf8(host) else {
        return NOT_TEXT;
    };
    let Ok(known) = str::from_utf8(known) else {
        return NOT_TEXT;
    };
    match boxed(alloc, settings, host, port, known) {
        Ok(run) => {
            *session = SessionHandle::of_box(run);
            OK
        }
        Err(NoMemory) => NO_MEMORY,
    }
}

/// Hands in events, mostly one, as a script has them: a length, a moment, a kind, fields. Their records come after those
/// of earlier calls that weren't read yet. `detail` is the place or line that an error names, and otherwise 0.
#[unsafe(no_mangle)]
pub extern "C" fn sshc_session_take(
    alloc: Global,
    session: &mut SessionHandle,
    events: &[u8],
    detail: &mut u64,
) -> u32
    // Whatever it was handed before: what was handed in, and the records, have all promises of a run of a script.
    ensures takes { IfSome session.old.held.run (λ before. IfSome session.new.held.run (λ after.
        TakesEvents before events.now after (step_answer result detail.new))) }
    ensures held { IsSome session.old.held.run → IsSome session.new.held.run }
    ensures misuse { session.old.held.run ≡ None →
        (result ≡ 2) × (detail.new ≡ 0) × (session.new.held.run ≡ None) }
{
    match session.take(alloc) {
        None => {
            *detail = 0;
            MISUSE
        }
        Some(mut run) => {
            let answer = run.take(alloc, events);
            *session = SessionHandle::of_box(run);
            *detail = answer.detail;
            answer.status
        }
    }
}

/// Copies the next record that wasn't read yet to the front of the caller's memory, if it fits, and tells how many bytes
/// it has. Nothing is taken where it doesn't fit.
#[unsafe(no_mangle)]
pub extern "C" fn sshc_session_record(
    alloc: Global,
    session: &mut SessionHandle,
    to: &mut [u8],
    size: &mut usize,
) -> u32
    ensures reads { IfSome session.old.held.run (λ before. IfSome session.new.held.run (λ after.
        ReadsRecord before after to.old to.new size.new result)) }
    ensures held { IsSome session.old.held.run → IsSome session.new.held.run }
    ensures misuse { session.old.held.run ≡ None →
        (result ≡ 2) × (size.new ≡ 0) × (to.new ≡ to.old) × (session.new.held.run ≡ None) }
{
    match session.take(alloc) {
        None => {
            *size = 0;
            MISUSE
        }
        Some(mut run) => {
            let status = run.next_record(to, size);
            *session = SessionHandle::of_box(run);
            status
        }
    }
}

/// Frees what the struct holds, which is nothing afterwards.
#[unsafe(no_mangle)]
pub extern "C" fn sshc_session_free(alloc: Global, session: &mut SessionHandle)
    ensures { session.new.held.run ≡ None }
{
    match session.take(alloc) {
        None => {}
        Some(run) => drop(run),
    }
}
