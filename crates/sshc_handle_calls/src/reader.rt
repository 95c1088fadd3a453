//! How a call reads its answer, one type per reader.

ghost use Rattle.std.specs.Prelude.{◌≡◌, Option, Result};
ghost use Rattle.sshc_wire.specs.declared.record.Record.{Record as Output};
ghost use Rattle.sshc_auth.specs.declared.error.Error.{Error as Refusal};

use sshc_auth::Error;
use sshc_handle_tickets::{
    AuthResult, KeyboardInteractiveAuthResponse, algs_answer, auth_answer, done_answer,
    open_answer, port_answer, prompt_answer, reply_answer,
};
use sshc_wire::{ChannelId, HashAlg, Octets, Record};

/// Reads an answer from a record of its ticket; `None` if the record isn't one that it reads.
pub(crate) trait Reader {
    type Answer;

    ghost reads: { Output → Option (Result Self.Answer Refusal) };

    fn read(output: Record) -> Option<Result<Self::Answer, Error>>
        ensures { result ≡ reads output };
}

/// The result of a login.
pub(crate) struct Login;

impl Reader for Login {
    type Answer = AuthResult;

    ghost use Rattle.sshc_handle_tickets.specs.Answers.{auth_answer};

    ghost reads = { auth_answer };

    fn read(output: Record) -> Option<Result<AuthResult, Error>> {
        auth_answer(output)
    }
}

/// The result of a login with prompts, or its next prompts.
pub(crate) struct Prompted;

impl Reader for Prompted {
    type Answer = KeyboardInteractiveAuthResponse;

    ghost use Rattle.sshc_handle_tickets.specs.Answers.{prompt_answer};

    ghost reads = { prompt_answer };

    fn read(output: Record) -> Option<Result<KeyboardInteractiveAuthResponse, Error>> {
        prompt_answer(output)
    }
}

/// The number of a channel that was opened.
pub(crate) struct Opened;

impl Reader for Opened {
    type Answer = ChannelId;

    ghost use Rattle.sshc_handle_tickets.specs.Answers.{open_answer};

    ghost reads = { open_answer };

    fn read(output: Record) -> Option<Result<ChannelId, Error>> {
        open_answer(output)
    }
}

/// A request was granted.
pub(crate) struct Done;

impl Reader for Done {
    type Answer = ();

    ghost use Rattle.sshc_handle_tickets.specs.Answers.{done_answer};

    ghost reads = { done_answer };

    fn read(output: Record) -> Option<Result<(), Error>> {
        done_answer(output)
    }
}

/// The port at which the server listens.
pub(crate) struct Port;

impl Reader for Port {
    type Answer = u32;

    ghost use Rattle.sshc_handle_tickets.specs.Answers.{port_answer};

    ghost reads = { port_answer };

    fn read(output: Record) -> Option<Result<u32, Error>> {
        port_answer(output)
    }
}

/// The bytes of a reply.
pub(crate) struct Reply;

impl Reader for Reply {
    type Answer = Octets;

    ghost use Rattle.sshc_handle_tickets.specs.Answers.{reply_answer};

    ghost reads = { reply_answer };

    fn read(output: Record) -> Option<Result<Octets, Error>> {
        reply_answer(output)
    }
}

/// The best hash for RSA.
pub(crate) struct Algs;

impl Reader for Algs {
    type Answer = Option<Option<HashAlg>>;

    ghost use Rattle.sshc_handle_tickets.specs.Answers.{algs_answer};

    ghost reads = { algs_answer };

    fn read(output: Record) -> Option<Result<Option<Option<HashAlg>>, Error>> {
        algs_answer(output)
    }
}
