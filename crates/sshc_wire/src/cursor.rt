//! Reads parts from the front of a packet (RFC 4251, section 5).

ghost use Rattle.std.specs.Prelude.{◌≡◌, ◌*◌, ◌≤◌, [], IsTrue, IsUtf8, IfOk, Err, OnErr, IsOk, ◌↔◌, length};
ghost use Rattle.std.specs.Int.{w32, w64};
ghost use Rattle.sshc_wire.specs.Wire.{IsBytes};
ghost use Rattle.sshc_wire.specs.Names.{names_at};
ghost use Rattle.sshc_wire.specs.Reads.{Reads, byte_at, number_at, boolean_at, string_at, text_at};

use crate::error::WireError;
use crate::names::Names;
use std::marker::Model;

/// The bytes of a packet that are still unread, which contracts see as that list.
#[derive(Drop)]
pub struct Cursor<'a> {
    bytes: &'a [u8],
}

impl<'a> Model for Cursor<'a> {
    ghost use Rattle.std.specs.Prelude.{List, ℕ};
    ghost use Rattle.sshc_wire.specs.Wire.{IsBytes};

    ghost Value = { List ℕ };

    ghost view = { λ c. c.bytes.now };

    ghost invariant = { λ c. IsBytes c.bytes.now };
}

impl<'a> Cursor<'a> {
    pub fn new(bytes: &'a [u8]) -> Cursor<'a>
        ensures { result ≡ bytes.now }
    {
        Cursor { bytes }
    }

    #[tactic(auto, unfolding(crate::specs::Reads::byte_at))]
    pub fn u8(&mut self) -> Result<u8, WireError>
        ensures { Reads (λ n. n) result self.old self.new (byte_at self.old) }
    {
        match self.bytes {
            [] => Err(WireError::Short),
            [first, rest @ ..] => {
                self.bytes = rest;
                Ok(*first)
            }
        }
    }

    #[tactic(auto, unfolding(crate::specs::Reads::number_at))]
    pub fn u32(&mut self) -> Result<u32, WireError>
        ensures { Reads (λ n. n) result self.old self.new (number_at w32 self.old) }
    {
        if self.bytes.len() < 4 {
            return Err(WireError::Short);
        }
        let (front, rest) = self.bytes.split_at(4);
        self.bytes = rest;
        Ok(u32::from_be_bytes([front[0], front[1], front[2], front[3]]))
    }

    #[tactic(auto, unfolding(crate::specs::Reads::number_at))]
    pub fn u64(&mut self) -> Result<u64, WireError>
        ensures { Reads (λ n. n) result self.old self.new (number_at w64 self.old) }
    {
        if self.bytes.len() < 8 {
            return Err(WireError::Short);
        }
        let (front, rest) = self.bytes.split_at(8);
        self.bytes = rest;
        Ok(u64::from_be_bytes([
            front[0], front[1], front[2], front[3], front[4], front[5], front[6], front[7],
        ]))
    }

    /// A boolean: each byte but 0 is true.
    #[tactic(auto, unfolding(crate::specs::Reads::boolean_at))]
    pub fn boolean(&mut self) -> Result<bool, WireError>
        ensures { Reads (λ b. b) result self.old self.new (boolean_at self.old) }
    {
        Ok(self.u8()? != 0)
    }

    /// A string: four bytes of length, and that many bytes.
    #[tactic(auto, unfolding(crate::specs::Reads::string_at, crate::specs::Reads::number_at))]
    pub fn bytes(&mut self) -> Result<&'a [u8], WireError>
        ensures { Reads (λ b. b.now) result self.old self.new (string_at self.old) }
    {
        let mut after = Cursor { bytes: self.bytes };
        let len = after.u32()? as usize;
        if after.bytes.len() < len {
            return Err(WireError::Short);
        }
        let (body, rest) = after.bytes.split_at(len);
        self.bytes = rest;
        Ok(body)
    }

    /// A string that is UTF-8.
    #[tactic(auto, unfolding(crate::specs::Reads::text_at), using(crate::proofs::Utf8::utf8_tests))]
    pub fn text(&mut self) -> Result<&'a str, WireError>
        ensures reads { Reads (λ t. t.now) result self.old self.new (text_at self.old) }
        ensures utf8 { IfOk result (λ t. IsUtf8 t.now) }
    {
        let mut after = Cursor { bytes: self.bytes };
        let body = after.bytes()?;
        match str::from_utf8(body) {
            Ok(text) => {
                self.bytes = after.bytes;
                Ok(text)
            }
            Err(_) => Err(WireError::NotText),
        }
    }

    /// A list of names.
    #[tactic(auto, unfolding(crate::specs::Names::names_at))]
    pub fn names(&mut self) -> Result<Names<'a>, WireError>
        ensures { Reads (λ n. n) result self.old self.new (names_at self.old) }
    {
        Ok(Names::new(self.text()?))
    }

    /// Whether the unread bytes can hold so many parts of at least so many bytes each. What is counted by a number of
    /// four bytes is refused by this test before anything is allocated for it.
    pub fn has_room(&self, count: u32, least: u32) -> bool
        ensures { IsTrue result ↔ (count * least ≤ length self.now) }
    {
        u64::from(count) * u64::from(least) <= self.bytes.len() as u64
    }

    /// What is still unread.
    pub fn rest(&self) -> &'a [u8]
        ensures same { result.now ≡ self.now }
        ensures bytes { IsBytes self.now }
    {
        self.bytes
    }

    pub fn ensure_end(&self) -> Result<(), WireError>
        ensures ok { IsOk result ↔ (self.now ≡ []) }
        ensures err { OnErr result (result ≡ Err WireError.Trailing) }
    {
        if self.bytes.is_empty() {
            Ok(())
        } else {
            Err(WireError::Trailing)
        }
    }
}
