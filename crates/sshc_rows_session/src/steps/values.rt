//! The values of a call, as its line shows them: numbers, texts in quotes, bytes in hexadecimal.

use sshc_wire::NoMemory;
use std::alloc::{AllocError, Global};

/// The values of a call, each after a space.
#[derive(Drop)]
pub struct Values {
    alloc: Global,
    text: String,
    ran_out: bool,
}

impl Values {
    /// No values.
    pub fn new(alloc: Global) -> Values {
        Values {
            alloc,
            text: String::new(alloc),
            ran_out: false,
        }
    }

    fn put(&mut self, word: Result<String, AllocError>) {
        self.ran_out = self.ran_out
            || match word {
                Ok(word) => self.text.push_str(word.as_str()).is_err(),
                Err(_) => true,
            };
    }

    pub fn number(mut self, n: u32) -> Values {
        let word = format!(in self.alloc; " {n}");
        self.put(word);
        self
    }

    pub fn flag(mut self, flag: bool) -> Values {
        let word = format!(in self.alloc; " {flag}");
        self.put(word);
        self
    }

    pub fn text(mut self, text: &str) -> Values {
        let word = format!(in self.alloc; " \"{text}\"");
        self.put(word);
        self
    }

    pub fn bytes(mut self, bytes: &[u8]) -> Values {
        let word = String::from_str(self.alloc, " 0x");
        self.put(word);
        let digits = hex::encode(self.alloc, bytes);
        self.put(digits);
        self
    }

    /// The text so far; `NoMemory` if memory ran out meanwhile.
    pub fn as_str(&self) -> Result<&str, NoMemory> {
        if self.ran_out {
            return Err(NoMemory);
        }
        Ok(self.text.as_str())
    }
}
