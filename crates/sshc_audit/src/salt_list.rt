//! Salts read from a text.

ghost use Rattle.std.specs.Prelude.{◌≡◌, IfOk, length};
ghost use Rattle.base64.specs.GeneralPurpose.{IsBytes};
ghost use Rattle.sshc_audit.specs.SaltLines.{salts_in, all_salts};

use crate::salts::Salts;
use hex::FromHex;
use sshc_hosts::cut;
use sshc_wire::{Failed, NoMemory};
use std::alloc::Global;
use std::marker::Model;

/// A list of salts, which are returned one after the other. If none remains, it counts a fault.
#[derive(Drop)]
pub struct SaltList {
    salts: Vec<[u8; 20]>,
    next: usize,
    faults: u64,
}

impl Model for SaltList {
    ghost use Rattle.std.specs.Prelude.{◌≤◌, length};
    ghost use Rattle.sshc_audit.specs.SaltLines.{SaltsHeld};

    ghost Value = { SaltsHeld };

    ghost view = { λ s. record { salts = s.salts.items; next = s.next; faults = s.faults } };

    ghost invariant = { λ s. s.next ≤ length s.salts.items };
}

/// The salts of a text's lines, up to the first that isn't 40 hexadecimal digits.
fn salts_in(alloc: Global, text: &str) -> Result<Vec<[u8; 20]>, NoMemory>
    ensures { IfOk result (λ salts. salts.items ≡ salts_in text.now) }
{
    let mut salts = Vec::new(alloc);
    let mut left = text;
    'lines: loop {
        let (line, rest) = cut(left, b'\n');
        match <[u8; 20] as FromHex>::from_hex(line) {
            Err(_) => return Ok(salts),
            Ok(salt) => salts.push(salt)?,
        }
        match rest {
            None => return Ok(salts),
            Some(others) => left = others,
        }
    }
}

/// Shows the verifier that the numbers in a slice of bytes are bytes.
fn holds_bytes(_bytes: &[u8])
    ensures { IsBytes _bytes.now }
{}

/// Shows the verifier that a salt has 20 bytes.
fn is_salt(salt: &[u8; 20])
    ensures long { length salt.now ≡ 20 }
    ensures bytes { IsBytes salt.now }
{
    holds_bytes(salt);
}

impl SaltList {
    /// The salts of a text's lines, up to the first that isn't 40 hexadecimal digits, of either case.
    pub fn from_text(alloc: Global, text: &str) -> Result<SaltList, NoMemory>
        ensures { IfOk result (λ list. list ≡ all_salts text.now) }
    {
        Ok(SaltList {
            salts: salts_in(alloc, text)?,
            next: 0,
            faults: 0,
        })
    }
}

impl Salts for SaltList {
    ghost use Rattle.sshc_audit.specs.SaltLines.{state_of};

    ghost state = { state_of };

    /// Fails exactly if no salt remains.
    fn salt(&mut self) -> Result<[u8; 20], Failed> {
        if self.next < self.salts.len() {
            let salt = self.salts[self.next];
            is_salt(&salt);
            self.next += 1;
            Ok(salt)
        } else {
            self.faults = self.faults.saturating_add(1);
            Err(Failed::Fault)
        }
    }
}
