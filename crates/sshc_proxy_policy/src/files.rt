//! The files of keys that a policy names.

ghost use Rattle.std.specs.Prelude.{◌≡◌, IfOk, map, option_map};
ghost use Rattle.sshc_proxy_policy.specs.WrittenPolicy.{is_file, key_file, key_files};

use crate::rule_line::fields;
use sshc_hosts::cut;
use sshc_wire::{NoMemory, Text};
use std::alloc::Global;

/// Whether a key's name is the path of a file.
fn is_file(name: &str) -> bool
    ensures { result ≡ is_file name.now }
{
    name.as_bytes().ends_with(b".pub")
}

/// The key's name in a rule with these fields, where it is the path of a file.
fn key_file<'a>(parts: &[&'a str]) -> Option<&'a str>
    ensures { option_map (λ file. file.now) result ≡ key_file (map (λ part. part.now) parts.now) }
{
    match parts {
        [word, key, ..] if *word == "allow" && is_file(key) => Some(*key),
        _ => None,
    }
}

/// The paths of files by which the rules of a policy name their keys: names that end in `.pub`. Whoever reads the policy
/// reads these files first, and has their keys under their paths.
pub fn key_files(alloc: Global, text: &str) -> Result<Vec<Text>, NoMemory>
    ensures { IfOk result (λ files. files.items ≡ key_files text.now) }
{
    let mut files = Vec::new(alloc);
    let mut left = text;
    'lines: loop {
        let (line, rest) = cut(left, b'\n');
        let parts = fields(alloc, line)?;
        if let Some(file) = key_file(parts.as_slice()) {
            files.push(Text::from_str(alloc, file)?)?;
        }
        match rest {
            None => return Ok(files),
            Some(others) => left = others,
        }
    }
}
