//! A UTF-8 text that a string of the wire can hold.

ghost use Rattle.std.specs.Prelude.{◌≡◌, ◌<◌, ◌^◌, [], IfOk, bytes_eq, length, string_bytes, IsUtf8};
ghost use Rattle.std.specs.Cmp.{partial_equiv_from_equiv};
ghost use Rattle.std.specs.Cmp.Lexicographic.{nat_list_eq_equiv};

use crate::error::NoMemory;
use std::alloc::Global;
use std::marker::Model;

/// A UTF-8 text of fewer than 2^32 bytes, which contracts see as its bytes.
#[derive(Drop)]
pub struct Text {
    text: String,
}

impl Model for Text {
    ghost use Rattle.std.specs.Prelude.{List, ℕ, ◌<◌, ◌^◌, length, string_bytes};

    ghost Value = { List ℕ };

    ghost view = { λ t. string_bytes t.text };

    ghost invariant = { λ t. length (string_bytes t.text) < 2 ^ 32 };
}

impl Text {
    /// The empty text.
    pub fn new(alloc: Global) -> Text
        ensures { result ≡ [] }
    {
        Text {
            text: String::new(alloc),
        }
    }

    /// A copy of the text. More than 2^32 - 1 bytes count as out of memory.
    pub fn from_str(alloc: Global, text: &str) -> Result<Text, NoMemory>
        ensures { IfOk result (λ t. t ≡ text.now) }
    {
        if text.len() < 1 << 32 {
            Ok(Text {
                text: String::from_str(alloc, text)?,
            })
        } else {
            Err(NoMemory)
        }
    }

    /// The text, which stays where it is. More than 2^32 - 1 bytes count as out of memory.
    pub fn from_string(text: String) -> Result<Text, NoMemory>
        ensures { IfOk result (λ t. t ≡ string_bytes text) }
    {
        if text.len() < 1 << 32 {
            Ok(Text { text })
        } else {
            Err(NoMemory)
        }
    }

    /// The allocator of which the bytes are.
    pub fn allocator(&self) -> Global {
        *self.text.allocator()
    }

    pub fn as_str(&self) -> &str
        ensures same { result.now ≡ self.now }
        ensures utf8 { IsUtf8 self.now }
        ensures short { length self.now < 2 ^ 32 }
    {
        self.text.as_str()
    }

    pub fn copy(&self) -> Result<Text, NoMemory>
        ensures { IfOk result (λ t. t ≡ self.now) }
    {
        Ok(Text {
            text: self.text.clone()?,
        })
    }
}

impl PartialEq for Text {
    ghost eq = { λ a b. bytes_eq a b };

    ghost laws = { partial_equiv_from_equiv nat_list_eq_equiv };

    fn eq(&self, other: &Text) -> bool {
        self.text.as_str() == other.text.as_str()
    }
}

impl Eq for Text {
    ghost laws = { nat_list_eq_equiv };
}
