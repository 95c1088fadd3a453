//! What is done to a session that the handler is lent.

ghost use Rattle.sshc_client_table.specs.Grown.{Grown};

use super::gave::gave_line;
use super::methods::call_method;
use super::plan::behind;
use crate::files::put_line;
use sshc_client::Session;
use sshc_wire::NoMemory;
use std::alloc::Global;

/// Calls a method, and notes what it returned.
pub fn act(
    alloc: Global,
    session: &mut Session,
    method: &str,
    heard: &mut String,
) -> Result<(), NoMemory>
    ensures { Grown session.old session.new }
{
    let gave = call_method(alloc, session, method);
    let line = gave_line(alloc, gave)?;
    put_line(heard, line.as_str())
}

/// Does what a line of the plan states for a call.
#[tactic(auto, using(sshc_client_table::specs::GrownLaws::grown_same))]
fn follow_line(
    alloc: Global,
    session: &mut Session,
    line: &str,
    call: &str,
    heard: &mut String,
) -> Result<(), NoMemory>
    ensures { Grown session.old session.new }
{
    match behind(line, call, "does") {
        Some(method) => act(alloc, session, method, heard),
        None => Ok(()),
    }
}

/// Does what the plan states for a call.
#[tactic(auto, using(sshc_client_table::specs::GrownLaws::grown_same, sshc_client_table::specs::GrownLaws::grown_next))]
pub fn follow(
    alloc: Global,
    session: &mut Session,
    plan: &str,
    call: &str,
    heard: &mut String,
) -> Result<(), NoMemory>
    ensures { Grown session.old session.new }
{
    for line in plan.lines() {
        follow_line(alloc, session, line, call, heard)?;
    }
    Ok(())
}
