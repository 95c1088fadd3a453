//! Extensions that a server announces in EXT_INFO (RFC 8308, sections 2.3 and 3.1), and what they change.

ghost use Rattle.std.specs.Prelude.{◌≡◌, ◌≤◌, ◌+◌, ◌++◌, IfOk, OnOk, filter, length, map};
ghost use Rattle.std.specs.Vec.{vec_capacity};
ghost use Rattle.sshc_wire.specs.Counted.{times_at};
ghost use Rattle.sshc_auth.specs.Extensions.{extension_at, extensions_at, answers_seen, answers_to, last_listed};
ghost use Rattle.sshc_auth.specs.Extensions.{names_of, others, still_waiting};
ghost use Rattle.sshc_auth.specs.Reading.{ReadsOr};
ghost use Rattle.sshc_auth.specs.Row.{resolved};
ghost use Rattle.sshc_auth.specs.SignatureNames.{is_signature_name};
ghost use Rattle.sshc_wire.specs.declared.resolution.Resolution.TheVariants.{ExtInfoSeen};

use crate::error::Error;
use crate::opening::{Waiter, resolved};
use crate::signature_names::is_signature_name;
use sshc_wire::{Cursor, List, Names, NoMemory, Record, Resolution, Text, Ticket};
use std::alloc::Global;

/// How many EXT_INFO a server may send (RFC 8308, section 2.4).
pub const MOST_EXT_INFOS: u32 = 2;

/// The fewest bytes of an extension: two strings that are empty.
pub const LEAST_EXTENSION: u32 = 8;

/// An extension of the server: its name and, if it is `server-sig-algs`, the known names in its list.
#[derive(Drop)]
pub struct Extension {
    pub name: Text,
    pub sig_algs: Option<List<Text>>,
}

/// The known names, in their order.
fn known_names(alloc: Global, names: Names<'_>) -> Result<List<Text>, NoMemory>
    ensures { IfOk result (λ l. l ≡ filter is_signature_name names.entry) }
{
    let mut known = List::new(alloc);
    for name in names {
        if is_signature_name(name) {
            known.push(Text::from_str(alloc, name)?)?;
        }
    }
    Ok(known)
}

/// The extension at the front.
fn read_extension(alloc: Global, packet: &mut Cursor<'_>) -> Result<Extension, Error>
    ensures { ReadsOr (extension_at packet.old) packet.new result }
{
    let name = packet.text()?;
    if name == "server-sig-algs" {
        let names = packet.names()?;
        let known = known_names(alloc, names)?;
        let name = Text::from_str(alloc, name)?;
        Ok(Extension {
            name,
            sig_algs: Some(known),
        })
    } else {
        let _value = packet.bytes()?;
        let name = Text::from_str(alloc, name)?;
        Ok(Extension {
            name,
            sig_algs: None,
        })
    }
}

/// Reads `n` extensions.
fn read_so_many(alloc: Global, packet: &mut Cursor<'_>, n: u32) -> Result<List<Extension>, Error>
    ensures { ReadsOr (times_at n extension_at packet.old) packet.new result }
{
    let mut extensions = List::new(alloc);
    for _ in 0..n {
        match read_extension(alloc, packet) {
            Ok(extension) => extensions.push(extension)?,
            Err(e) => return Err(e),
        }
    }
    Ok(extensions)
}

/// Reads the number of extensions and the extensions. A number that is too large for the remaining bytes is refused
/// before anything is allocated for it.
#[tactic(auto, unfolding(crate::specs::Extensions::extensions_at, sshc_wire::specs::Counted::counted_at))]
pub fn read_extensions(alloc: Global, packet: &mut Cursor<'_>) -> Result<List<Extension>, Error>
    ensures { ReadsOr (extensions_at packet.old) packet.new result }
{
    let n = packet.u32()?;
    if !packet.has_room(n, LEAST_EXTENSION) {
        return Err(Error::SshEncoding);
    }
    read_so_many(alloc, packet, n)
}

/// Adds the record that resolves a waiter's ticket.
fn answer(ticket: Ticket, answers: &mut Vec<Record>) -> Result<(), NoMemory>
    ensures { OnOk result (answers.new.items ≡ answers.old.items ++ resolved ticket ExtInfoSeen) }
{
    if let Some(output) = resolved(ticket, Resolution::ExtInfoSeen) {
        answers.push(output)?;
    }
    Ok(())
}

/// Adds the answers to those who wait for this extension, in their order.
fn answer_seen(waiters: &[&Waiter], name: &str, answers: &mut Vec<Record>) -> Result<(), NoMemory>
    ensures { OnOk result
        (answers.new.items ≡ answers.old.items ++ answers_seen name.now (map (λ w. w.now) waiters.now)) }
{
    for waiter in waiters {
        if waiter.extension_name.as_str() == name {
            answer(waiter.ticket, answers)?;
        }
    }
    Ok(())
}

/// Where each of them is.
fn places<'a>(alloc: Global, waiters: &'a [Waiter]) -> Result<Vec<&'a Waiter>, NoMemory>
    ensures { IfOk result (λ v. map (λ w. w.now) v.items ≡ waiters.now) }
{
    let mut places = Vec::new(alloc);
    for waiter in waiters {
        places.push(waiter)?;
    }
    Ok(places)
}

/// Leaves those who wait for another extension.
fn leave_others(left: &mut Vec<&Waiter>, name: &str)
    ensures { map (λ w. w.now) left.new.items ≡ others name.now (map (λ w. w.now) left.old.items) }
{
    left.retain(|waiter| waiter.extension_name.as_str() != name);
}

/// The answers to those who wait for one of these extensions, extension by extension.
pub fn answers_to(
    alloc: Global,
    extensions: &[Extension],
    waiters: &[Waiter],
) -> Result<Vec<Record>, NoMemory>
    ensures { IfOk result (λ a. a.items ≡ answers_to extensions.now waiters.now) }
{
    let mut answers = Vec::new(alloc);
    let mut left = places(alloc, waiters)?;
    for extension in extensions {
        let name = extension.name.as_str();
        answer_seen(left.as_slice(), name, &mut answers)?;
        leave_others(&mut left, name);
    }
    Ok(answers)
}

/// Keeps those who wait for another extension.
fn keep_others(waiters: &mut Vec<Waiter>, name: &str)
    ensures { waiters.new.items ≡ others name.now waiters.old.items }
{
    waiters.retain(|waiter| waiter.extension_name.as_str() != name);
}

/// Takes these extensions, for whose names there is room, in order.
pub fn take_extensions(
    extensions: Vec<Extension>,
    sig_algs: &mut Option<List<Text>>,
    seen: &mut Vec<Text>,
    waiters: &mut Vec<Waiter>,
)
    requires { length seen.old.items + length extensions.items ≤ vec_capacity seen.old }
    ensures listed { sig_algs.new ≡ last_listed extensions.items sig_algs.old }
    ensures seen { seen.new.items ≡ seen.old.items ++ names_of extensions.items }
    ensures waiting { waiters.new.items ≡ still_waiting extensions.items waiters.old.items }
{
    for extension in extensions {
        keep_others(waiters, extension.name.as_str());
        seen.push_reserved(extension.name);
        if let Some(names) = extension.sig_algs {
            *sig_algs = Some(names);
        }
    }
}
