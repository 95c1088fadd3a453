//! A case, read from a source.

use sshc_wire::{Cursor, Failed, Source, WireError, read_into};

/// How many bytes a length has.
const LENGTH_BYTES: usize = 4;

/// Which program a case is for.
#[derive(Clone, Copy, PartialEq, Eq)]
pub enum Kind {
    /// `sshc`, with arguments and a file.
    Words,
    /// `sshc_proxy_main`, with a policy, the client's bytes and the agent's.
    Proxy,
    /// `sshc_forward_main`, with events.
    Forwards,
}

/// What a program is given.
#[derive(Clone, Copy)]
pub struct Case<'a> {
    pub kind: Kind,
    /// The command-line arguments, separated by line feeds.
    pub words: &'a str,
    /// The bytes of the file that is named `file`: a known hosts text, or a policy.
    pub file: &'a [u8],
    /// The bytes of standard input.
    pub input: &'a [u8],
    /// The bytes that the agent sends.
    pub answers: &'a [u8],
}

/// Why no case is read.
#[derive(Clone, Copy, PartialEq, Eq)]
pub enum Broken {
    NoMemory,
    /// A read failed.
    Fault,
    /// The bytes are those of no case.
    NoCase,
}

impl From<WireError> for Broken {
    fn from(_error: WireError) -> Broken {
        Broken::NoCase
    }
}

impl From<Failed> for Broken {
    fn from(failed: Failed) -> Broken {
        match failed {
            Failed::NoMemory => Broken::NoMemory,
            Failed::Fault => Broken::Fault,
        }
    }
}

fn kind_of(number: u8) -> Result<Kind, Broken> {
    match number {
        0 => Ok(Kind::Words),
        1 => Ok(Kind::Proxy),
        2 => Ok(Kind::Forwards),
        _ => Err(Broken::NoCase),
    }
}

/// The case in these bytes.
fn case_in(bytes: &[u8]) -> Result<Case<'_>, Broken> {
    let mut c = Cursor::new(bytes);
    let case = Case {
        kind: kind_of(c.u8()?)?,
        words: c.text()?,
        file: c.bytes()?,
        input: c.bytes()?,
        answers: c.bytes()?,
    };
    c.ensure_end()?;
    Ok(case)
}

/// Reads the next case into the bytes, whose memory is used again; `None` at the end of the source.
pub fn read_case<'a, S: Source>(
    source: &mut S,
    bytes: &'a mut Vec<u8>,
) -> Result<Option<Case<'a>>, Broken> {
    read_into(bytes, source, LENGTH_BYTES)?;
    if bytes.is_empty() {
        return Ok(None);
    }
    let length = Cursor::new(bytes.as_slice()).u32()? as usize;
    if length == 0 {
        return Err(Broken::NoCase);
    }
    read_into(bytes, source, length)?;
    if bytes.len() < length {
        return Err(Broken::NoCase);
    }
    Ok(Some(case_in(bytes.as_slice())?))
}
