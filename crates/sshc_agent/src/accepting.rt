//! A listener that outlasts streams that can't be made.

ghost use Rattle.std.specs.Prelude.{◌≡◌, ℕ};
ghost use Rattle.sshc_agent.specs.Accepting.{CountsOver};

use crate::outside::Listener;
use sshc_wire::{AgentStream, Failed};
use std::sync::Wait;

/// Why no stream was accepted.
#[derive(Clone, Copy, PartialEq, Eq)]
pub enum NotAccepted {
    /// No later call can accept a stream.
    Over,
    /// This stream alone can't be made: its client went away, or descriptors or memory ran out. A later call may accept
    /// one.
    NotNow,
}

/// Accepts one stream after another, and counts the failures that no later call can mend.
pub trait Acceptor {
    type Stream: AgentStream + Send + Drop;

    ghost faults: { Self → ℕ };

    /// Waits for the next stream and returns it.
    fn try_accept(&mut self) -> Result<Self::Stream, NotAccepted>
        ensures over { CountsOver (faults self.old) (faults self.new) result };

    /// Waits for a moment, after a stream that couldn't be made.
    fn wait(&mut self)
        ensures same { faults self.new ≡ faults self.old };
}

/// A listener over an acceptor. A stream that can't be made is dropped alone: after a wait the next one is accepted. It
/// fails only where no later stream can be accepted, and never returns `NoMemory`.
#[derive(Drop)]
pub struct LastingListener<'a, A, R> {
    acceptor: A,
    rt: &'a R,
}

impl<'a, A: Acceptor, R: Wait> LastingListener<'a, A, R> {
    pub fn new(rt: &'a R, acceptor: A) -> LastingListener<'a, A, R> {
        LastingListener { acceptor, rt }
    }
}

impl<'a, A: Acceptor, R: Wait> Listener for LastingListener<'a, A, R> {
    type Stream = A::Stream;

    ghost faults = { λ l. A.faults l.acceptor };

    fn accept(&mut self) -> Result<A::Stream, Failed> {
        for _ in self.rt.forever() {
            match self.acceptor.try_accept() {
                Ok(stream) => return Ok(stream),
                Err(NotAccepted::Over) => return Err(Failed::Fault),
                Err(NotAccepted::NotNow) => self.acceptor.wait(),
            }
        }
        unreachable!()
    }
}
