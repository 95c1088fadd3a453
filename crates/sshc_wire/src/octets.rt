//! A list of bytes that a string of the wire can hold.

ghost use Rattle.std.specs.Prelude.{◌≡◌, ◌<◌, ◌^◌, [], IfOk, bytes_eq, length};
ghost use Rattle.sshc_wire.specs.Wire.{IsBytes};
ghost use Rattle.std.specs.Cmp.{partial_equiv_from_equiv};
ghost use Rattle.std.specs.Cmp.Lexicographic.{nat_list_eq_equiv};

use crate::cursor::Cursor;
use crate::error::NoMemory;
use std::alloc::Global;
use std::marker::Model;

/// A list of fewer than 2^32 bytes, which contracts see as that list.
#[derive(Drop)]
pub struct Octets {
    bytes: Vec<u8>,
}

impl Model for Octets {
    ghost use Rattle.std.specs.Prelude.{List, ℕ, ◌<◌, ◌^◌, length};

    ghost Value = { List ℕ };

    ghost view = { λ o. o.bytes.items };

    ghost invariant = { λ o. length o.bytes.items < 2 ^ 32 };
}

impl Octets {
    /// No bytes.
    pub fn new(alloc: Global) -> Octets
        ensures { result ≡ [] }
    {
        Octets {
            bytes: Vec::new(alloc),
        }
    }

    /// A copy of the bytes. More than 2^32 - 1 of them count as out of memory.
    pub fn from_slice(alloc: Global, bytes: &[u8]) -> Result<Octets, NoMemory>
        ensures { IfOk result (λ o. o ≡ bytes.now) }
    {
        if bytes.len() < 1 << 32 {
            Ok(Octets {
                bytes: Vec::from_slice(alloc, bytes)?,
            })
        } else {
            Err(NoMemory)
        }
    }

    /// The bytes, which stay where they are. More than 2^32 - 1 of them count as out of memory.
    pub fn from_vec(bytes: Vec<u8>) -> Result<Octets, NoMemory>
        ensures { IfOk result (λ o. o ≡ bytes.items) }
    {
        if bytes.len() < 1 << 32 {
            Ok(Octets { bytes })
        } else {
            Err(NoMemory)
        }
    }

    /// The bytes, of which there are few enough.
    pub fn from_short(bytes: Vec<u8>) -> Octets
        requires { length bytes.items < 2 ^ 32 }
        ensures { result ≡ bytes.items }
    {
        Octets { bytes }
    }

    /// The allocator of which the bytes are.
    pub fn allocator(&self) -> Global {
        *self.bytes.allocator()
    }

    pub fn as_slice(&self) -> &[u8]
        ensures same { result.now ≡ self.now }
        ensures short { length self.now < 2 ^ 32 }
        ensures bytes { IsBytes self.now }
    {
        // A cursor's clauses say that what it reads are bytes.
        Cursor::new(self.bytes.as_slice()).rest()
    }

    pub fn into_vec(self) -> Vec<u8>
        ensures same { result.items ≡ self }
        ensures short { length self < 2 ^ 32 }
    {
        self.bytes
    }

    pub fn copy(&self) -> Result<Octets, NoMemory>
        ensures { IfOk result (λ o. o ≡ self.now) }
    {
        Ok(Octets {
            bytes: self.bytes.clone()?,
        })
    }
}

impl PartialEq for Octets {
    ghost eq = { λ a b. bytes_eq a b };

    ghost laws = { partial_equiv_from_equiv nat_list_eq_equiv };

    fn eq(&self, other: &Octets) -> bool {
        self.bytes.as_slice() == other.bytes.as_slice()
    }
}

impl Eq for Octets {
    ghost laws = { nat_list_eq_equiv };
}
