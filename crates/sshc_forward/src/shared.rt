//! What the two threads of a pair share.

use crate::deeds::{Deed, deed_for};
use sshc_auth::{ChannelMsg, Error};
use sshc_client::{Handler, Msg};
use sshc_forward_core::{FwdOutput, Given, PairEvent, ServedPair};
use sshc_handle::Handle;
use sshc_wire::{ChannelId, NoMemory, Octets};
use std::alloc::Global;
use std::sync::{Mutex, Wait};

/// The handle, the channel's number, and the pair under its lock.
#[derive(Drop)]
pub(crate) struct Shared<'a, H: Handler> {
    pub(crate) alloc: Global,
    handle: &'a Handle<H>,
    id: ChannelId,
    pair: Mutex<ServedPair>,
}

/// What an event left once it was taken: bytes that are to be written to the stream, and which ends were given.
#[derive(Drop)]
pub(crate) struct Taken {
    pub(crate) bytes: Option<Octets>,
    pub(crate) given: Given,
}

impl<'a, H: Handler> Shared<'a, H> {
    /// A pair for this channel.
    pub(crate) fn new(
        alloc: Global,
        handle: &'a Handle<H>,
        id: ChannelId,
    ) -> Result<Shared<'a, H>, NoMemory> {
        let pair = ServedPair::new(alloc, id.0)?;
        Ok(Shared {
            alloc,
            handle,
            id,
            pair: Mutex::new(pair),
        })
    }

    /// Submits a message of the channel. Returns false if the session has ended.
    fn submit<R: Wait>(&self, rt: &R, msg: ChannelMsg) -> Result<bool, NoMemory> {
        match self.handle.submit(rt, Msg::Channel(self.id, msg)) {
            Ok(_ticket) => Ok(true),
            Err(Error::NoMemory) => Err(NoMemory),
            Err(_ended) => Ok(false),
        }
    }

    /// Does what is to be done on the channel, and hands on what is to be written to the stream. Returns false if the
    /// session has ended.
    fn perform<R: Wait>(
        &self,
        rt: &R,
        output: FwdOutput,
        bytes_to_write: &mut Option<Octets>,
    ) -> Result<bool, NoMemory> {
        match deed_for(output) {
            Deed::Submit(msg) => self.submit(rt, msg),
            Deed::Write(bytes) => {
                *bytes_to_write = Some(bytes);
                Ok(true)
            }
            Deed::Nothing => Ok(true),
        }
    }

    fn perform_all<R: Wait>(
        &self,
        rt: &R,
        outputs: Vec<FwdOutput>,
        bytes_to_write: &mut Option<Octets>,
    ) -> Result<bool, NoMemory> {
        for output in outputs {
            if !self.perform(rt, output, bytes_to_write)? {
                return Ok(false);
            }
        }
        Ok(true)
    }

    /// Takes an event by one step under the pair's lock. What is to be sent is submitted under it too, so that both
    /// threads' messages are submitted in the order of their steps. If the session has ended the channel counts as
    /// gone.
    pub(crate) fn take<R: Wait>(&self, rt: &R, event: PairEvent) -> Result<Taken, NoMemory> {
        let mut bytes = None;
        let mut pair = self.pair.lock(rt);
        let outputs = pair.take(event)?;
        if !self.perform_all(rt, outputs, &mut bytes)? {
            let _closed = pair.take(PairEvent::ChannelClose)?;
        }
        let given = pair.given();
        Ok(Taken { bytes, given })
    }

    /// What a thread of the pair ended with. If memory ran out the stream counts as failed, so that the channel is
    /// closed and the other thread ends too.
    pub(crate) fn ended<R: Wait>(
        &self,
        rt: &R,
        done: Result<(), NoMemory>,
    ) -> Result<(), NoMemory> {
        if done.is_err() {
            let _failed = self.take(rt, PairEvent::StreamFailed);
        }
        done
    }
}
