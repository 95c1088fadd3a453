//! The result of a step, as a line.

use super::listening::Refused;
use sshc_client::{Ended, Step};
use std::alloc::{AllocError, Global};

/// The line of an end.
fn ended_line(alloc: Global, ended: &Ended) -> Result<String, AllocError> {
    match ended {
        Ended::RemoteDisconnect(info) => format!(in alloc;
            "step ended remote-disconnect {} \"{}\" \"{}\"",
            info.reason_code.code(),
            info.message.as_str(),
            info.lang_tag.as_str()
        ),
        Ended::Disconnected => String::from_str(alloc, "step ended disconnected"),
        Ended::Closed => String::from_str(alloc, "step ended closed"),
        Ended::ScriptEnd => String::from_str(alloc, "step ended script-end"),
    }
}

fn refused_line(alloc: Global, refused: &Refused) -> Result<String, AllocError> {
    let output = refused.output(alloc)?;
    format!(in alloc; "step refused {output}")
}

/// The line of a step; `None` if the session continues and wasn't opened by the step.
pub fn step_line(alloc: Global, step: &Step<Refused>) -> Result<Option<String>, AllocError> {
    let line = match step {
        Step::Went => return Ok(None),
        Step::Opened => String::from_str(alloc, "step opened"),
        Step::Ended(ended) => ended_line(alloc, ended),
        Step::Refused(refused) => refused_line(alloc, refused),
        Step::Closed => String::from_str(alloc, "step closed"),
    };
    Ok(Some(line?))
}
