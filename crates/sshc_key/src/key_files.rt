//! Certificates and public keys in files.

ghost use Rattle.std.specs.Prelude.{◌≡◌, ◌++◌, Some, None, MatchOption, option_copied};
ghost use Rattle.std.specs.List.{before_first};
ghost use Rattle.sshc_key.specs.Gives.{GivesAll};
ghost use Rattle.sshc_key.specs.KeyFiles.{AnswersBy, HasReadCause, is_space, at_space, named_certificate};
ghost use Rattle.sshc_key.specs.KeyFiles.{certificate_in, certificate_at_path, is_key_line, key_line, at_white_space};
ghost use Rattle.sshc_key.specs.KeyFiles.{key_fields, public_key_in, public_key_at_path};

use crate::error::Error;
use crate::key_data::{Certificate, KeyData};
use crate::key_text::parse_public_key_base64;
use crate::public_key::PublicKey;
use sshc_wire::{Failed, Files, Found, Text};
use std::alloc::Global;

/// The texts before and after the first space.
#[tactic(auto, unfolding(crate::specs::KeyFiles::at_space))]
fn space_parts(text: &str) -> Option<(&str, &str)>
    ensures { MatchOption result (at_space text.now ≡ None) (λ x. at_space text.now ≡ Some (x.0.now, x.1.now)) }
{
    text.split_once(' ')
}

/// The text before the first space, or all of it.
#[tactic(auto, using(crate::proofs::FieldLemmas::whole_field))]
fn first_field(text: &str) -> &str
    ensures { result.now ≡ before_first is_space text.now }
{
    match text.split_once(' ') {
        Some((field, _)) => field,
        None => text,
    }
}

/// The certificate, if the key is one of this name.
fn certificate_of(alloc: Global, name: &str, key: &PublicKey) -> Result<Certificate, Error>
    ensures { GivesAll (λ c. c) result (named_certificate name.now key.now.0) }
{
    let own = key.key.name().to_text(alloc)?;
    match &key.key {
        KeyData::Certificate(certificate) => {
            let _ = certificate.is_certificate();
            if own.as_str() != name {
                return Err(Error::SshKey);
            }
            Ok(certificate.copy()?)
        }
        _ => Err(Error::SshKey),
    }
}

/// The certificate of a file's text.
#[tactic(auto, unfolding(crate::specs::KeyFiles::certificate_in))]
fn certificate_text(alloc: Global, text: &str) -> Result<Certificate, Error>
    ensures { GivesAll (λ c. c) result (certificate_in text.now) }
{
    let Some((name, rest)) = space_parts(text.trim_end()) else {
        return Err(Error::CouldNotReadKey);
    };
    match parse_public_key_base64(alloc, first_field(rest)) {
        Ok(key) => certificate_of(alloc, name, &key),
        Err(error) => Err(error),
    }
}

/// Reads the certificate of a file: a name, the base64 of the certificate and a rest, with single spaces between them.
pub fn load_openssh_certificate<F: Files>(
    alloc: Global,
    files: &mut F,
    path: &str,
) -> Result<Certificate, Error>
    ensures answer { AnswersBy (λ c. c) result (F.contents files.old) (certificate_at_path path.now) }
    ensures same { F.contents files.new ≡ F.contents files.old }
    ensures cause { HasReadCause (F.read_faults files.old) (F.read_faults files.new) result }
    ensures others { F.append_faults files.new ≡ F.append_faults files.old }
{
    match files.read_text(path) {
        Ok(Found::Text(text)) => certificate_text(alloc, text.as_str()),
        Ok(Found::NotOpened) => Err(Error::CouldNotReadKey),
        Ok(Found::NotText) => Err(Error::Utf8),
        Err(Failed::Fault) => Err(Error::ReadFault),
        Err(Failed::NoMemory) => Err(Error::NoMemory),
    }
}

/// Whether the trimmed line is neither blank nor a comment.
fn is_key_line(line: &str) -> bool
    ensures { result ≡ is_key_line line.now }
{
    match line.as_bytes().first() {
        Some(b) => *b != b'#',
        None => false,
    }
}

/// The first line of a key, trimmed.
#[tactic(auto, unfolding(crate::specs::KeyFiles::key_line))]
fn key_line(text: &str) -> Option<&str>
    ensures { option_copied result ≡ key_line text.now }
{
    text.lines()
        .map(|line| line.trim())
        .find(|line| is_key_line(line))
}

/// The texts before and after the first white space.
#[tactic(auto, unfolding(crate::specs::KeyFiles::at_white_space))]
fn white_space_parts(text: &str) -> Option<(&str, &str)>
    ensures { MatchOption result (at_white_space text.now ≡ None)
        (λ x. at_white_space text.now ≡ Some (x.0.now, x.1.now)) }
{
    text.split_once(|c: char| c.is_whitespace())
}

/// The base64 and the comment of a line.
#[tactic(auto, unfolding(crate::specs::KeyFiles::key_fields))]
fn key_fields(line: &str) -> (&str, &str)
    ensures { (result.0.now, result.1.now) ≡ key_fields line.now }
{
    let Some((_name, rest)) = white_space_parts(line) else {
        return (line, "");
    };
    let rest = rest.trim_start();
    match white_space_parts(rest) {
        Some((key, comment)) => (key, comment.trim()),
        None => (rest, ""),
    }
}

/// The public key of a file's text.
#[tactic(auto, unfolding(crate::specs::KeyFiles::public_key_in))]
fn public_key_text(alloc: Global, text: &str) -> Result<PublicKey, Error>
    ensures { GivesAll (λ key. key) result (public_key_in text.now) }
{
    let Some(line) = key_line(text) else {
        return Err(Error::CouldNotReadKey);
    };
    let (key, comment) = key_fields(line);
    let comment = Text::from_str(alloc, comment)?;
    let bare = parse_public_key_base64(alloc, key)?;
    Ok(PublicKey {
        key: bare.key,
        comment,
    })
}

/// Reads the public key of a file: of its lines the first that is neither blank nor begins with `#`. That line is the
/// base64 of the key, or a name, the base64 and a comment, with white space between them. The name isn't compared with
/// the key's.
pub fn load_public_key<F: Files>(
    alloc: Global,
    files: &mut F,
    path: &str,
) -> Result<PublicKey, Error>
    ensures answer { AnswersBy (λ key. key) result (F.contents files.old) (public_key_at_path path.now) }
    ensures same { F.contents files.new ≡ F.contents files.old }
    ensures cause { HasReadCause (F.read_faults files.old) (F.read_faults files.new) result }
    ensures others { F.append_faults files.new ≡ F.append_faults files.old }
{
    match files.read_text(path) {
        Ok(Found::Text(text)) => public_key_text(alloc, text.as_str()),
        Ok(Found::NotOpened) => Err(Error::CouldNotReadKey),
        Ok(Found::NotText) => Err(Error::Utf8),
        Err(Failed::Fault) => Err(Error::ReadFault),
        Err(Failed::NoMemory) => Err(Error::NoMemory),
    }
}
