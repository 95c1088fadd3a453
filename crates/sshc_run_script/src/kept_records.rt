//! Records that a run left, until they are read.

ghost use Rattle.std.specs.Prelude.{◌≡◌, ◌+◌, ◌++◌, ◌∷◌, ◌≤◌, ℕ, [], Some, OnOk, OnErr, drop, length, option_copied, slice_get};
ghost use Rattle.sshc_wire.specs.Contents.{append, WroteFront, WritesMove, WritesFor};
ghost use Rattle.sshc_wire.specs.DigitLines.{text_line};
ghost use Rattle.sshc_wire.specs.Faults.{HasCause};
ghost use Rattle.sshc_wire.specs.Outgoing.{text_in};
ghost use Rattle.sshc_run_script.specs.RecordLines.{lines, text_lines};

use crate::record_lines::LineBuffer;
use crate::record_sink::RecordSink;
use sshc_wire::{Failed, NoMemory, Octets, Outbox};
use std::alloc::Global;
use std::marker::Model;

/// Records in order, each as its text (its number and fields, `docs/FORMATS.md`), which contracts see as that list. Their
/// memory is let go when the last of them is dropped.
#[derive(Drop)]
pub struct KeptRecords {
    alloc: Global,
    texts: Vec<Octets>,
    first: usize,
}

impl Model for KeptRecords {
    ghost use Rattle.std.specs.Prelude.{ℕ, List, ◌≤◌, drop, length};

    ghost Value = { List (List ℕ) };

    ghost view = { λ k. drop k.first k.texts.items };

    ghost invariant = { λ k. k.first ≤ length k.texts.items };
}

impl KeptRecords {
    /// No records.
    pub fn new(alloc: Global) -> KeptRecords
        ensures { result ≡ [] }
    {
        KeptRecords {
            alloc,
            texts: Vec::new(alloc),
            first: 0,
        }
    }

    /// The text of the first record. Takes no memory.
    pub fn first(&self) -> Option<&[u8]>
        ensures { option_copied result ≡ slice_get self.now 0 }
    {
        match self.texts.get(self.first) {
            Some(text) => Some(text.as_slice()),
            None => None,
        }
    }

    /// Lets the first record go, if there is one.
    #[tactic(auto, using(crate::proofs::Keeping::next_kept, crate::proofs::Keeping::last_kept))]
    pub fn drop_first(&mut self)
        ensures { self.new ≡ drop 1 self.old }
    {
        if self.texts.len() - self.first > 1 {
            self.first += 1;
        } else {
            self.texts.clear();
            self.first = 0;
        }
    }

    /// Keeps the record at a place, or changes nothing.
    fn keep(&mut self, records: &Outbox, at: usize) -> Result<(), Failed>
        ensures whole { OnOk result
            (text_lines self.new ≡ text_lines self.old ++ text_line (text_in (slice_get records.now.records at))) }
        ensures same { OnErr result (self.new ≡ self.old) }
        ensures cause { HasCause 0 0 result }
    {
        let text = match records.text(at) {
            Some(text) => text,
            None => &[],
        };
        match kept(self.alloc, &mut self.texts, text) {
            Ok(()) => Ok(()),
            Err(NoMemory) => Err(Failed::NoMemory),
        }
    }
}

/// Adds a copy of the text, or changes nothing.
fn kept(alloc: Global, texts: &mut Vec<Octets>, text: &[u8]) -> Result<(), NoMemory>
    ensures ok { OnOk result (texts.new.items ≡ texts.old.items ++ text.now ∷ []) }
    ensures err { OnErr result (texts.new.items ≡ texts.old.items) }
{
    texts.reserve(1)?;
    let text = Octets::from_slice(alloc, text)?;
    texts.push_reserved(text);
    Ok(())
}

impl RecordSink for KeptRecords {
    ghost contents = { λ k. Some (text_lines k) };

    ghost faults = { λ k. 0 };

    ghost writes = { λ k. 0 };

    ghost empty_writes = { λ k. 0 };

    fn put_records(&mut self, buffer: &mut LineBuffer, records: &Outbox) -> Result<(), Failed>
        ensures whole { OnOk result
            (Some (text_lines self.new) ≡ append (Some (text_lines self.old)) (lines records.now.records)) }
        ensures cut { OnErr result
            (WroteFront (Some (text_lines self.old)) (Some (text_lines self.new)) (lines records.now.records)) }
        ensures moved { OnOk result (WritesMove (Some (text_lines self.old)) (Some (text_lines self.new)) 0 0) }
        ensures writes { OnErr result (WritesFor (Some (text_lines self.old)) (Some (text_lines self.new)) 0 0) }
        ensures cause { HasCause 0 0 result }
    {
        for at in 0..records.len() {
            self.keep(records, at)?;
        }
        Ok(())
    }
}
