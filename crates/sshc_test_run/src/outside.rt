//! A writer that takes no byte once.

use std::io::{self, ErrorKind, Write};

/// A writer that takes each piece whole, except that at the call of one number, from 0, it takes no byte.
#[derive(Drop)]
pub(crate) struct StoppingWriter<'a> {
    pub(crate) held: &'a mut Vec<u8>,
    pub(crate) calls: u64,
    pub(crate) stop: u64,
}

impl<'a> Write for StoppingWriter<'a> {
    fn write(&mut self, buf: &[u8]) -> io::Result<usize> {
        let call = self.calls;
        self.calls = call.saturating_add(1);
        if call == self.stop {
            return Ok(0);
        }
        match self.held.extend_from_slice(buf) {
            Ok(()) => Ok(buf.len()),
            Err(_) => Err(io::Error::from(ErrorKind::OutOfMemory)),
        }
    }

    fn flush(&mut self) -> io::Result<()> {
        Ok(())
    }
}
