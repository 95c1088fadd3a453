//! Requests on a channel whose methods' names begin with `request_`.

ghost use Rattle.sshc_client_table.specs.Grown.{Grown};

use super::nothing;
use crate::steps::gave::Gave;
use crate::steps::words::Words;
use sshc_client::{Error, Session};
use sshc_wire::{NoMemory, Pty};
use std::alloc::Global;

/// Modes of a terminal with their values, from words in pairs.
fn modes_of(alloc: Global, words: &mut Words<'_>) -> Result<Vec<(Pty, u32)>, NoMemory> {
    let mut modes = Vec::new(alloc);
    for _ in 0..256 {
        if words.is_empty() {
            break;
        }
        let code = Pty(words.text().parse::<u8>().unwrap_or(0));
        modes.push((code, words.number()))?;
    }
    Ok(modes)
}

/// A terminal: its name, columns, rows, the same in pixels, and its modes.
#[tactic(auto, using(sshc_client_table::specs::GrownLaws::grown_same))]
fn pty(alloc: Global, session: &mut Session, words: &mut Words<'_>) -> Result<Gave, Error>
    ensures { Grown session.old session.new }
{
    let (id, want_reply, term) = (words.id(), words.flag(), words.text());
    let (columns, rows) = (words.number(), words.number());
    let (width, height) = (words.number(), words.number());
    let modes = modes_of(alloc, words)?;
    nothing(session.request_pty(
        id,
        want_reply,
        term,
        columns,
        rows,
        width,
        height,
        modes.as_slice(),
    ))
}

fn x11(session: &mut Session, words: &mut Words<'_>) -> Result<Gave, Error>
    ensures { Grown session.old session.new }
{
    let (id, want_reply, single) = (words.id(), words.flag(), words.flag());
    let (protocol, cookie, screen) = (words.text(), words.text(), words.number());
    nothing(session.request_x11(id, want_reply, single, protocol, cookie, screen))
}

/// Calls a method for a request.
#[tactic(auto, using(sshc_client_table::specs::GrownLaws::grown_same))]
pub(super) fn call(
    alloc: Global,
    session: &mut Session,
    name: &str,
    words: &mut Words<'_>,
) -> Result<Gave, Error>
    ensures { Grown session.old session.new }
{
    match name {
        "request_pty" => pty(alloc, session, words),
        "request_x11" => x11(session, words),
        "request_shell" => {
            let (want_reply, id) = (words.flag(), words.id());
            nothing(session.request_shell(want_reply, id))
        }
        "request_subsystem" => {
            let (want_reply, id) = (words.flag(), words.id());
            nothing(session.request_subsystem(want_reply, id, words.text()))
        }
        _ => Ok(Gave::NoSuchMethod),
    }
}
