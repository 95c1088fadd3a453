//! Which ends of a pair were given so far.

ghost use Rattle.std.specs.Prelude.{◌≡◌};
ghost use Rattle.sshc_forward_core.specs.PairAccount.{none_given, given_with, given_after};

use crate::output::FwdOutput;

/// What was given of a pair: EOF on its channel, the end of writing to its stream, the channel's close, and the
/// stream's close, after which the pair is gone.
#[derive(Clone, Copy, PartialEq, Eq)]
pub struct Given {
    pub eof: bool,
    pub ending: bool,
    pub close: bool,
    pub gone: bool,
}

impl Given {
    /// Nothing was given.
    pub(crate) fn nothing() -> Given
        ensures { result ≡ none_given }
    {
        Given {
            eof: false,
            ending: false,
            close: false,
            gone: false,
        }
    }

    /// What was given after one more output.
    fn with(self, output: &FwdOutput) -> Given
        ensures { result ≡ given_with self output.now }
    {
        match output {
            FwdOutput::SendEof { .. } => Given { eof: true, ..self },
            FwdOutput::EndWriting { .. } => Given {
                ending: true,
                ..self
            },
            FwdOutput::CloseChannel { .. } => Given {
                close: true,
                ..self
            },
            FwdOutput::CloseStream { .. } => Given { gone: true, ..self },
            FwdOutput::OpenChannel { .. }
            | FwdOutput::SendData { .. }
            | FwdOutput::WriteBytes { .. } => self,
        }
    }

    /// What was given after these outputs.
    pub(crate) fn after(self, outputs: &[FwdOutput]) -> Given
        ensures { result ≡ given_after self outputs.now }
    {
        let mut given = self;
        for output in outputs {
            given = given.with(output);
        }
        given
    }
}
