//! Bytes, texts and lists, and the names and numbers of the enums.

use crate::let_go;
use sshc_wire::{
    ChannelOpenFailure, Disconnect, List, MethodKind, MethodSet, NoMemory, Octets, Sig, Text,
};
use std::alloc::Global;

fn is_copied(bytes: &Octets) -> Result<bool, NoMemory> {
    let copy = bytes.copy()?;
    Ok(copy == *bytes)
}

/// Whether the bytes are made again of those that they give up.
fn is_made_again(bytes: &Octets) -> Result<bool, NoMemory> {
    let given_up = bytes.copy()?.into_vec();
    let made = Octets::from_vec(given_up)?;
    Ok(made == *bytes)
}

/// Whether bytes are copied and made again, and differ from none.
fn are_bytes_right(alloc: Global) -> Result<bool, NoMemory> {
    let bytes = Octets::from_slice(alloc, b"ab")?;
    let differ = Octets::new(bytes.allocator()) != bytes;
    Ok(differ && is_copied(&bytes) == Ok(true) && is_made_again(&bytes) == Ok(true))
}

fn is_text_copied(text: &Text) -> Result<bool, NoMemory> {
    let copy = text.copy()?;
    Ok(copy == *text)
}

/// Whether the text is made again of a string with its characters.
fn is_text_made_again(text: &Text) -> Result<bool, NoMemory> {
    let made = Text::from_string(String::from_str(text.allocator(), "ab")?)?;
    Ok(made == *text)
}

/// Whether a text is copied, and made of a string.
fn is_text_right(alloc: Global) -> Result<bool, NoMemory> {
    let text = Text::from_str(alloc, "ab")?;
    Ok(is_text_copied(&text) == Ok(true) && is_text_made_again(&text) == Ok(true))
}

/// Whether a list has a text that is pushed, and a list that is made of its items has it too.
fn is_list_right(alloc: Global) -> Result<bool, NoMemory> {
    let text = Text::from_str(alloc, "ab")?;
    let mut list = List::new(alloc);
    list.push(text)?;
    let has_one = list.as_slice().len() == 1;
    let list = List::from_vec(list.into_vec())?;
    Ok(has_one && list.as_slice().len() == 1)
}

#[test]
fn values_are_made_and_copied(rt: HostRuntime) {
    assert!(rt; are_bytes_right(rt.alloc()) == Ok(true));
    assert!(rt; is_text_right(rt.alloc()) == Ok(true));
    assert!(rt; is_list_right(rt.alloc()) == Ok(true));
}

const METHODS: &[(&str, Option<MethodKind>)] = &[
    ("publickey", Some(MethodKind::PublicKey)),
    ("gssapi-with-mic", Some(MethodKind::GssapiWithMic)),
    ("public", None),
];

#[test]
fn names_of_methods(rt: HostRuntime) {
    for (name, method) in METHODS {
        assert!(rt; MethodKind::from_name(name) == *method, "{name}");
    }
}

/// Whether a set has a method once that was inserted twice, and its copy too.
fn is_method_kept_once(alloc: Global) -> Result<bool, NoMemory> {
    let mut methods = MethodSet::empty(alloc);
    methods.insert(MethodKind::Password)?;
    methods.insert(MethodKind::Password)?;
    let copy = methods.copy()?;
    Ok(copy.as_slice() == [MethodKind::Password].as_slice())
}

#[test]
fn a_set_has_a_method_once(rt: HostRuntime) {
    assert!(rt; is_method_kept_once(rt.alloc()) == Ok(true));
}

/// Names of signals, and whether the signal is `KILL`.
const SIGNALS: &[(&str, bool)] = &[("KILL", true), ("other", false)];

/// Whether the signal of this name has the name, and is `KILL` or not.
fn is_signal(alloc: Global, name: &str, is_kill: bool) -> Result<bool, NoMemory> {
    let signal = Sig::from_name(alloc, name)?;
    let is_right = signal.name() == name && matches!(&signal, Sig::KILL) == is_kill;
    let_go(signal);
    Ok(is_right)
}

#[test]
fn names_of_signals(rt: HostRuntime) {
    for (name, is_kill) in SIGNALS {
        assert!(rt; is_signal(rt.alloc(), name, *is_kill) == Ok(true), "{name}");
    }
}

const REASONS: &[(u32, Option<Disconnect>)] = &[(11, Some(Disconnect::ByApplication)), (16, None)];

#[test]
fn numbers_of_reasons(rt: HostRuntime) {
    for (number, reason) in REASONS {
        assert!(rt; Disconnect::from_u32(*number) == *reason, "{number}");
    }
    assert!(rt; ChannelOpenFailure::from_u32(5).is_none());
}
