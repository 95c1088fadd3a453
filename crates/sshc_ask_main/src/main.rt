//! Asks an agent at a Unix socket, whose path is the first argument. Each line of standard input is a command over one
//! connection: `list`, `sign COMMENT HEX`, `lock WORD`, `unlock WORD`, `remove COMMENT`, `clear`.
#![tactic(auto)]

use sshc_ask::{AgentClient, UnixAgentStream, UnixOpener, connect_env};
use sshc_key::{AgentIdentity, Error, HashAlg, PublicKeyBase64};
use std::alloc::Global;
use std::env;

type Client = AgentClient<UnixAgentStream>;

/// A command: its name and its arguments, which are empty if the line has fewer words.
#[derive(Clone, Copy)]
struct Command<'a> {
    name: &'a str,
    first: &'a str,
    second: &'a str,
}

fn command_of(line: &str) -> Command<'_> {
    let mut words = line.split_whitespace();
    let name = words.next().unwrap_or("");
    let first = words.next().unwrap_or("");
    let second = words.next().unwrap_or("");
    Command {
        name,
        first,
        second,
    }
}

/// A line for a key: its blob in base64, and its comment.
fn add_identity(text: &mut String, identity: &AgentIdentity) -> Result<(), Error> {
    match identity {
        AgentIdentity::PublicKey { key, .. } => text.push_str(&key.public_key_base64()?)?,
        AgentIdentity::Certificate { .. } => text.push_str("certificate")?,
    }
    text.push(' ')?;
    text.push_str(identity.comment())?;
    text.push('\n')?;
    Ok(())
}

/// A line for each key, and the number of keys.
fn listing(alloc: Global, client: &mut Client) -> Result<String, Error> {
    let found = client.request_identities()?;
    let mut text = String::new(alloc);
    for identity in found.iter() {
        add_identity(&mut text, identity)?;
    }
    text.push_str(&format!(in alloc; "{} keys", found.len())?)?;
    Ok(text)
}

/// The first of the keys that has this comment.
fn named<'a>(found: &'a [AgentIdentity], comment: &str) -> Option<&'a AgentIdentity> {
    for identity in found {
        if identity.comment() == comment {
            return Some(identity);
        }
    }
    None
}

/// The bytes and the signature behind them, in hexadecimal.
fn signed_by(
    alloc: Global,
    client: &mut Client,
    identity: &AgentIdentity,
    body: &str,
) -> Result<String, Error> {
    match hex::decode(alloc, body) {
        Ok(bytes) => {
            let signed = client.sign_request(identity, Some(HashAlg::Sha512), bytes)?;
            Ok(hex::encode(alloc, &signed)?)
        }
        Err(_) => Err(Error::Decode),
    }
}

/// A signature by the first key of the agent with this comment.
fn signed(alloc: Global, client: &mut Client, comment: &str, body: &str) -> Result<String, Error> {
    let found = client.request_identities()?;
    match named(&found, comment) {
        Some(identity) => signed_by(alloc, client, identity, body),
        None => Err(Error::CouldNotReadKey),
    }
}

/// Removes the first key of the agent with this comment.
fn removed(client: &mut Client, comment: &str) -> Result<(), Error> {
    let found = client.request_identities()?;
    match named(&found, comment) {
        Some(AgentIdentity::PublicKey { key, .. }) => client.remove_identity(key),
        _ => Err(Error::CouldNotReadKey),
    }
}

fn answer(alloc: Global, client: &mut Client, command: Command<'_>) -> Result<String, Error> {
    match command.name {
        "list" => return listing(alloc, client),
        "sign" => return signed(alloc, client, command.first, command.second),
        "lock" => client.lock(command.first.as_bytes())?,
        "unlock" => client.unlock(command.first.as_bytes())?,
        "remove" => removed(client, command.first)?,
        "clear" => client.remove_all_identities()?,
        _ => return Ok(String::from_str(alloc, "unknown command")?),
    }
    Ok(String::from_str(alloc, "done")?)
}

/// Prints the result of the command in a line, or the name of its error.
fn reply(rt: &HostRuntime, client: &mut Client, line: &str) -> anyhow::Result<()> {
    match answer(rt.alloc(), client, command_of(line)) {
        Ok(text) => println!(rt; "{text}")?,
        Err(error) => println!(rt; "{error}")?,
    }
    Ok(())
}

/// Replies to each line of standard input.
fn serve(rt: &HostRuntime, client: &mut Client) -> anyhow::Result<()> {
    for line in rt.lines(rt.alloc()) {
        reply(rt, client, &line?)?;
    }
    Ok(())
}

/// The first command-line argument.
fn path_of(rt: &HostRuntime) -> anyhow::Result<Option<String>> {
    let mut words = env::args(rt)?;
    let _program = words.next();
    Ok(words.next())
}

fn main(rt: HostRuntime) -> anyhow::Result<()> {
    let path = path_of(&rt)?;
    let mut opener = UnixOpener::new(&rt);
    match connect_env(rt.alloc(), path.as_deref(), &mut opener) {
        Ok(mut client) => serve(&rt, &mut client),
        Err(error) => {
            println!(rt; "{error}")?;
            Ok(())
        }
    }
}
