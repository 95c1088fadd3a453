//! How a stream ends that a pair writes to.

use sshc_wire::MemSink;

/// The ends of a stream: what tells whoever waits at its other end, and its own reader, that nothing more comes.
pub trait StreamEnd {
    /// No more bytes will be written, so that the other side reads the stream's end. What comes from there may still be
    /// read.
    fn end_writing(&mut self);

    /// Nothing more is written or read. A read that waits has to return, also one that another thread makes.
    fn close(&mut self);
}

/// A sink in memory has nobody who waits for its end.
impl StreamEnd for MemSink {
    fn end_writing(&mut self) {}

    fn close(&mut self) {}
}
