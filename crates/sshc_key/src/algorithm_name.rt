//! The name of an algorithm, as it is written.

ghost use Rattle.std.specs.Prelude.{◌≡◌, ◌++◌, IfOk, OnOk};
ghost use Rattle.sshc_wire.specs.Wire.{string_text};
ghost use Rattle.sshc_key.specs.AlgorithmNames.{marked_name};
ghost use Rattle.sshc_key.specs.LentNames.{spelled};

use crate::reading::parts_of;
use sshc_wire::{NoMemory, Text, begin_string, end_string, string_size};
use std::alloc::Global;

/// The mark of certificates, which stands before the `@` of a name.
const MARK: &str = "-cert-v01";

/// The name of an algorithm, which borrows the texts of which it is made.
#[derive(Clone, Copy)]
pub enum AlgorithmName<'a> {
    /// A name of the table.
    Known(&'static str),
    /// A name with a domain.
    Own(&'a str),
    /// The name of a certificate for a key of this name, which has a domain.
    Certified(&'a str),
}

/// Writes a name with the mark of certificates before its `@`.
fn put_marked(out: &mut Vec<u8>, name: &str) -> Result<(), NoMemory>
    ensures { OnOk result (out.new.items ≡ out.old.items ++ marked_name name.now) }
{
    match parts_of(name) {
        Some((front, domain)) => {
            out.extend_from_slice(front.as_bytes())?;
            out.extend_from_slice(MARK.as_bytes())?;
            out.push(b'@')?;
            out.extend_from_slice(domain.as_bytes())?;
        }
        None => {
            out.extend_from_slice(name.as_bytes())?;
            out.extend_from_slice(MARK.as_bytes())?;
        }
    }
    Ok(())
}

/// The name with the mark of certificates before its `@`.
fn marked(alloc: Global, name: &str) -> Result<Text, NoMemory>
    ensures { IfOk result (λ t. t ≡ marked_name name.now) }
{
    let mut marked = String::new(alloc);
    match parts_of(name) {
        Some((front, domain)) => {
            marked.push_str(front)?;
            marked.push_str("-cert-v01@")?;
            marked.push_str(domain)?;
        }
        None => {
            marked.push_str(name)?;
            marked.push_str("-cert-v01")?;
        }
    }
    Text::from_string(marked)
}

impl<'a> AlgorithmName<'a> {
    /// How many bytes the name takes as a string.
    pub fn size(&self) -> usize {
        match self {
            AlgorithmName::Known(name) => string_size(name.len()),
            AlgorithmName::Own(name) => string_size(name.len()),
            AlgorithmName::Certified(name) => string_size(name.len()).saturating_add(MARK.len()),
        }
    }

    fn put_bytes(&self, out: &mut Vec<u8>) -> Result<(), NoMemory>
        ensures { OnOk result (out.new.items ≡ out.old.items ++ spelled self.now) }
    {
        match self {
            AlgorithmName::Known(name) => out.extend_from_slice(name.as_bytes())?,
            AlgorithmName::Own(name) => out.extend_from_slice(name.as_bytes())?,
            AlgorithmName::Certified(name) => put_marked(out, name)?,
        }
        Ok(())
    }

    /// Writes the name as a string.
    #[tactic(auto, using(sshc_wire::specs::NestedLaws::string_ended))]
    pub fn put(&self, out: &mut Vec<u8>) -> Result<(), NoMemory>
        ensures { OnOk result (out.new.items ≡ out.old.items ++ string_text (spelled self.now)) }
    {
        let at = begin_string(out)?;
        self.put_bytes(out)?;
        end_string(out, at)
    }

    pub fn to_text(&self, alloc: Global) -> Result<Text, NoMemory>
        ensures { IfOk result (λ t. t ≡ spelled self.now) }
    {
        match self {
            AlgorithmName::Known(name) => Text::from_str(alloc, name),
            AlgorithmName::Own(name) => Text::from_str(alloc, name),
            AlgorithmName::Certified(name) => marked(alloc, name),
        }
    }
}
