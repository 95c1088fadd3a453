//! Places that hold known hosts: texts, files by their paths, and home directories.

use crate::keys::FOUR_LINES;
use sshc_wire::{MemFiles, NoMemory, Octets, Text};
use std::alloc::Global;

/// Adds a file.
pub fn add_file(
    contents: &mut Vec<(Text, Octets)>,
    path: &str,
    bytes: &[u8],
) -> Result<(), NoMemory> {
    let alloc = *contents.allocator();
    let path = Text::from_str(alloc, path)?;
    let bytes = Octets::from_slice(alloc, bytes)?;
    contents.push((path, bytes))?;
    Ok(())
}

/// Files of which the calls with these numbers fail.
pub fn files_of(contents: Vec<(Text, Octets)>, failing: &[u64]) -> Result<MemFiles, NoMemory> {
    let failing = Vec::from_slice(*contents.allocator(), failing)?;
    Ok(MemFiles::new(contents, failing))
}

/// One line with K1 for `h`.
const HOME: &[u8] =
    b"h ssh-ed25519 AAAAC3NzaC1lZDI1NTE5AAAAIJdD7y3aLq454yWBdwLWbieU1ebz9/cu7/QEXn9OIeZJ";

fn add_some(contents: &mut Vec<(Text, Octets)>) -> Result<(), NoMemory> {
    add_file(contents, "known", FOUR_LINES.as_bytes())?;
    add_file(contents, "bytes", &[0xff])?;
    add_file(contents, "/home/a/.ssh/known_hosts", HOME)
}

/// Files with the four lines at `known`, bytes that aren't UTF-8 at `bytes`, and one line in a home directory. The
/// calls with these numbers fail.
pub fn some_files(alloc: Global, failing: &[u64]) -> Result<MemFiles, NoMemory> {
    let mut contents = Vec::new(alloc);
    add_some(&mut contents)?;
    files_of(contents, failing)
}

/// What holds known hosts: a text, the file at a path, or the known hosts file of a home directory.
pub enum Place {
    Text(&'static str),
    Path(&'static str),
    Home(Option<&'static str>),
}
