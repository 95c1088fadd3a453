//! Texts that are joined with a separator while they are written.

ghost use Rattle.std.specs.Prelude.{◌≡◌, ◌++◌, ◌∷◌, ◌<◌, [], IfOk, OnOk, Some, true, false, if◌then◌else◌};
ghost use Rattle.std.specs.Prelude.{string_bytes};
ghost use Rattle.base64.specs.Engines.{standard};
ghost use Rattle.base64.specs.GeneralPurpose.{encode_of};
ghost use Rattle.sshc_audit.specs.Joining.{nothing_joined, lead, with_piece, with_start, with_text};

use base64::engine::general_purpose::STANDARD;
use sshc_wire::{NoMemory, Text};
use std::alloc::Global;
use std::marker::Model;

/// Texts joined into one, separated by an ASCII byte.
#[derive(Drop)]
pub struct Joining {
    separator: u8,
    text: String,
    is_first: bool,
}

impl Model for Joining {
    ghost use Rattle.std.specs.Prelude.{◌<◌, string_bytes};
    ghost use Rattle.sshc_audit.specs.Joining.{Joined};

    ghost Value = { Joined };

    ghost view = { λ j. record { separator = j.separator; text = string_bytes j.text; is_first = j.is_first } };

    ghost invariant = { λ j. j.separator < 128 };
}

impl Joining {
    pub fn new(alloc: Global, separator: u8) -> Joining
        requires { separator < 128 }
        ensures { result ≡ nothing_joined separator }
    {
        Joining {
            separator,
            text: String::new(alloc),
            is_first: true,
        }
    }

    /// Begins one more text.
    pub fn start(&mut self) -> Result<(), NoMemory>
        ensures { OnOk result (self.new ≡ with_start self.old) }
    {
        if self.is_first {
            self.is_first = false;
        } else {
            self.text.push(char::from(self.separator))?;
        }
        Ok(())
    }

    /// Adds a piece to the text that was begun last.
    pub fn push(&mut self, piece: &str) -> Result<(), NoMemory>
        ensures { OnOk result (self.new ≡ with_piece self.old piece.now) }
    {
        self.text.push_str(piece)?;
        Ok(())
    }

    /// Adds the padded base64 of the bytes to the text that was begun last.
    pub fn push_base64(&mut self, bytes: &[u8]) -> Result<(), NoMemory>
        ensures { OnOk result (self.new ≡ with_piece self.old (encode_of standard bytes.now)) }
    {
        STANDARD.encode_string(bytes, &mut self.text)?;
        Ok(())
    }

    /// Adds one more text.
    pub fn add(&mut self, text: &str) -> Result<(), NoMemory>
        ensures { OnOk result (self.new ≡ with_text self.old (Some text.now)) }
    {
        self.start()?;
        self.push(text)
    }

    /// Whether no text was begun.
    pub fn is_empty(&self) -> bool
        ensures { result ≡ self.now.is_first }
    {
        self.is_first
    }

    /// The joined text.
    pub fn into_text(self) -> Result<Text, NoMemory>
        ensures { IfOk result (λ t. t ≡ self.text) }
    {
        Text::from_string(self.text)
    }
}
