//! Reads parts of records by value (RFC 4251, section 5).

ghost use Rattle.std.specs.Prelude.{◌≡◌, ◌∷◌, ◌++◌, [], Ok, IfOk, OnOk};
ghost use Rattle.std.specs.List.{filter_map};
ghost use Rattle.sshc_wire.specs.Methods.{method_of};
ghost use Rattle.sshc_wire.specs.Reads.{string_at};
ghost use Rattle.sshc_wire.specs.RecordReads.{method_list_at, name_list_at, reason_at};

use crate::channel_open_failure::ChannelOpenFailure;
use crate::cursor::Cursor;
use crate::error::{NoMemory, RecordError};
use crate::list::List;
use crate::methods::{MethodKind, MethodSet};
use crate::names::Names;
use crate::octets::Octets;
use crate::text::Text;
use std::alloc::Global;

pub(super) fn read_octets(alloc: Global, c: &mut Cursor<'_>) -> Result<Octets, RecordError>
    ensures { IfOk result (λ o. string_at c.old ≡ Ok (o, c.new)) }
{
    Ok(Octets::from_slice(alloc, c.bytes()?)?)
}

#[tactic(auto, using(crate::proofs::ReadingLemmas::text_string))]
pub(super) fn read_text(alloc: Global, c: &mut Cursor<'_>) -> Result<Text, RecordError>
    ensures { IfOk result (λ t. string_at c.old ≡ Ok (t, c.new)) }
{
    Ok(Text::from_str(alloc, c.text()?)?)
}

/// The reason for which a channel isn't opened.
#[tactic(auto, unfolding(crate::specs::RecordReads::reason_at))]
pub(super) fn read_reason(c: &mut Cursor<'_>) -> Result<ChannelOpenFailure, RecordError>
    ensures { IfOk result (λ r. reason_at c.old ≡ Ok (r, c.new)) }
{
    match ChannelOpenFailure::from_u32(c.u32()?) {
        Some(reason) => Ok(reason),
        None => Err(RecordError::NotARecord),
    }
}

/// The names that are still to come.
fn copied(alloc: Global, left: Names<'_>) -> Result<List<Text>, NoMemory>
    ensures { IfOk result (λ l. l ≡ left.entry) }
{
    let mut names = List::new(alloc);
    for name in left {
        names.push(Text::from_str(alloc, name)?)?;
    }
    Ok(names)
}

/// A list of names.
#[tactic(auto, unfolding(crate::specs::RecordReads::name_list_at), using(crate::proofs::ReadingLemmas::text_string))]
pub(super) fn read_names(alloc: Global, c: &mut Cursor<'_>) -> Result<List<Text>, RecordError>
    ensures { IfOk result (λ l. name_list_at c.old ≡ Ok (l, c.new)) }
{
    Ok(copied(alloc, Names::new(c.text()?))?)
}

/// Adds the method of this name, which is a method's and isn't there yet.
#[tactic(auto, unfolding(crate::specs::Methods::with_method))]
fn add_method(methods: &mut MethodSet, name: &str) -> Result<(), RecordError>
    ensures { OnOk result (methods.new ≡ methods.old ++ filter_map method_of (name.now ∷ [])) }
{
    let Some(method) = MethodKind::from_name(name) else {
        return Err(RecordError::NotARecord);
    };
    if methods.contains(method) {
        return Err(RecordError::NotARecord);
    }
    Ok(methods.insert(method)?)
}

/// The methods of the names that are still to come.
#[tactic(auto, using(crate::proofs::ReadingLemmas::known_more))]
fn known(alloc: Global, left: Names<'_>) -> Result<MethodSet, RecordError>
    ensures { IfOk result (λ m. m ≡ filter_map method_of left.entry) }
{
    let mut methods = MethodSet::empty(alloc);
    for name in left {
        add_method(&mut methods, name)?;
    }
    Ok(methods)
}

/// A list of names of methods.
#[tactic(auto, using(crate::proofs::ReadingLemmas::methods_read))]
pub(super) fn read_methods(alloc: Global, c: &mut Cursor<'_>) -> Result<MethodSet, RecordError>
    ensures { IfOk result (λ m. method_list_at c.old ≡ Ok (m, c.new)) }
{
    known(alloc, Names::new(c.text()?))
}
