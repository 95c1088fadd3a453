//! Methods of authentication by their names (RFC 4252, section 5; RFC 4256, section 3.1; RFC 4462, section 3).

ghost use Rattle.std.specs.Prelude.{map, ◌≡◌, ◌↔◌, ◌++◌, ◌∷◌, [], IsTrue, OnOk, OnErr, IfOk, find, bytes_eq};
ghost use Rattle.std.specs.Cmp.{partial_equiv_from_equiv};
ghost use Rattle.std.specs.Cmp.Lexicographic.{pointwise, lists_equiv};
ghost use Rattle.std.specs.List.{flat_map, join_with_byte};
ghost use Rattle.sshc_wire.specs.Names.{behind_comma};
ghost use Rattle.sshc_wire.specs.Extending.{Extends};
ghost use Rattle.sshc_wire.specs.Wire.{names_text};
ghost use Rattle.sshc_wire.specs.Methods.{HasNoDoubles, has_method, is_method, method_name, method_of, with_method};
ghost use Rattle.sshc_wire.specs.MethodsLaws.{method_equiv};

use crate::error::NoMemory;
use crate::names::put_behind_comma;
use crate::put::{begin_string, end_string};
use std::alloc::Global;
use std::marker::Model;

/// A method of authentication.
#[derive(Clone, Copy, Debug, PartialEq, Eq)]
pub enum MethodKind {
    None,
    Password,
    PublicKey,
    HostBased,
    KeyboardInteractive,
    GssapiWithMic,
}

impl MethodKind {
    /// The methods that have a name here.
    pub const ALL: [MethodKind; 6] = [
        MethodKind::None,
        MethodKind::Password,
        MethodKind::PublicKey,
        MethodKind::HostBased,
        MethodKind::KeyboardInteractive,
        MethodKind::GssapiWithMic,
    ];

    pub fn name(self) -> &'static str
        ensures { result.now ≡ method_name self }
    {
        match self {
            MethodKind::None => "none",
            MethodKind::Password => "password",
            MethodKind::PublicKey => "publickey",
            MethodKind::HostBased => "hostbased",
            MethodKind::KeyboardInteractive => "keyboard-interactive",
            MethodKind::GssapiWithMic => "gssapi-with-mic",
        }
    }

    /// The method of this name; `None` for another name.
    pub fn from_name(name: &str) -> Option<MethodKind>
        ensures { result ≡ method_of name.now }
    {
        MethodKind::ALL
            .iter()
            .copied()
            .find(|method| method.name() == name)
    }
}

/// Methods without doubles in the order of their adding, which contracts see as that list.
#[derive(Drop)]
pub struct MethodSet {
    methods: Vec<MethodKind>,
}

impl Model for MethodSet {
    ghost use Rattle.std.specs.Prelude.{List};
    ghost use Rattle.sshc_wire.specs.declared.methods.MethodKind.{MethodKind as Kind};
    ghost use Rattle.sshc_wire.specs.Methods.{HasNoDoubles};

    ghost Value = { List Kind };

    ghost view = { λ m. m.methods.items };

    ghost invariant = { λ m. HasNoDoubles m.methods.items };
}

impl MethodSet {
    /// No methods.
    pub fn empty(alloc: Global) -> MethodSet
        ensures { result ≡ [] }
    {
        MethodSet {
            methods: Vec::new(alloc),
        }
    }

    pub fn is_empty(&self) -> bool
        ensures { IsTrue result ↔ (self.now ≡ []) }
    {
        self.methods.is_empty()
    }

    #[tactic(auto, unfolding(crate::specs::Methods::has_method))]
    pub fn contains(&self, method: MethodKind) -> bool
        ensures { result ≡ has_method self.now method }
    {
        self.methods.iter().any(|held| held.name() == method.name())
    }

    pub fn as_slice(&self) -> &[MethodKind]
        ensures same { result.now ≡ self.now }
        ensures distinct { HasNoDoubles self.now }
    {
        self.methods.as_slice()
    }

    /// Adds a method at the end, unless it is there already.
    #[tactic(auto, unfolding(crate::specs::Methods::with_method))]
    pub fn insert(&mut self, method: MethodKind) -> Result<(), NoMemory>
        ensures ok { OnOk result (self.new ≡ with_method self.old method) }
        ensures err { OnErr result (self.new ≡ self.old) }
    {
        if self.contains(method) {
            return Ok(());
        }
        self.methods.push(method)?;
        Ok(())
    }

    pub fn copy(&self) -> Result<MethodSet, NoMemory>
        ensures { IfOk result (λ m. m ≡ self.now) }
    {
        Ok(MethodSet {
            methods: self.methods.clone()?,
        })
    }
}

/// Adds the names of the methods, each behind a comma. Out of memory, a part of them may be added, as with the
/// functions below.
#[tactic(auto, using(crate::proofs::Hints::extends))]
fn put_rest(out: &mut Vec<u8>, methods: &[MethodKind]) -> Result<(), NoMemory>
    ensures ok { OnOk result (out.new.items ≡ out.old.items ++ flat_map behind_comma (map method_name methods.now)) }
    ensures err { OnErr result (Extends out.old.items out.new.items) }
{
    for method in methods {
        put_behind_comma(out, method.name())?;
    }
    Ok(())
}

/// Adds the names of the methods, joined by commas.
#[tactic(auto, using(crate::proofs::Hints::extends_joined))]
fn put_joined(out: &mut Vec<u8>, methods: &[MethodKind]) -> Result<(), NoMemory>
    ensures ok { OnOk result (out.new.items ≡ out.old.items ++ join_with_byte 44 (map method_name methods.now)) }
    ensures err { OnErr result (Extends out.old.items out.new.items) }
{
    match methods.split_first() {
        None => Ok(()),
        Some((first, others)) => {
            out.extend_from_slice(first.name().as_bytes())?;
            put_rest(out, others)
        }
    }
}

#[tactic(auto, unfolding(crate::specs::Wire::names_text), using(crate::proofs::Hints::extends_string))]
fn put_parts(out: &mut Vec<u8>, methods: &[MethodKind]) -> Result<(), NoMemory>
    ensures ok { OnOk result (out.new.items ≡ out.old.items ++ names_text (map method_name methods.now)) }
    ensures err { OnErr result (Extends out.old.items out.new.items) }
{
    let at = begin_string(out)?;
    put_joined(out, methods)?;
    end_string(out, at)
}

/// Writes the methods' names as a list of names (RFC 4251, section 5).
#[tactic(auto, using(crate::proofs::Extended::cut_back))]
pub fn put_methods(out: &mut Vec<u8>, methods: &MethodSet) -> Result<(), NoMemory>
    ensures ok { OnOk result (out.new.items ≡ out.old.items ++ names_text (map method_name methods.now)) }
    ensures err { OnErr result (out.new.items ≡ out.old.items) }
{
    let before = out.len();
    let written = put_parts(out, methods.as_slice());
    if written.is_err() {
        out.truncate(before);
    }
    written
}

/// Whether the two lists have the same methods in the same order.
fn same_methods(these: &[MethodKind], others: &[MethodKind]) -> bool
    ensures { result ≡ pointwise is_method these.now others.now }
{
    match (these, others) {
        ([], []) => true,
        ([first, rest @ ..], [other, others @ ..]) => {
            first.name() == other.name() && same_methods(rest, others)
        }
        _ => false,
    }
}

impl PartialEq for MethodSet {
    ghost eq = { λ v w. pointwise is_method v w };

    ghost laws = { partial_equiv_from_equiv (lists_equiv method_equiv) };

    fn eq(&self, other: &Self) -> bool {
        same_methods(self.methods.as_slice(), other.methods.as_slice())
    }
}

impl Eq for MethodSet {
    ghost laws = { lists_equiv method_equiv };
}
