//! The properties of a block state: `props_of` of specs/Properties.antt.
ghost use Rattle.std.specs.Prelude.{◌≡◌, reverse};
ghost use Rattle.cave_base.specs.Answer.{IsAnswer};
ghost use Rattle.nbt_core.specs.Value.{members_of};
ghost use Rattle.scan_core.specs.Named.{named_values};
ghost use Rattle.scan_core.specs.Properties as texts;
ghost use Rattle.scan_core.specs.Properties.{props_of, with_text};
ghost use Rattle.scan_core.specs.declared.fault.ScanFault.{ScanFault};

use crate::fault::ScanFault;
use crate::value::text;
use cave_base::Sequence;
use nbt_views::{EntriesView, View};
use std::alloc::Global;
use std::collections::BTreeSet;

/// A name and a value of an entry.
type Member<'a> = (&'a [u8], View<'a>);

/// A name and a value, as bytes.
pub type Property = (Sequence<u8>, Sequence<u8>);

/// The properties that a `Properties` tells, where there is one.
pub fn properties(alloc: Global, found: Option<View<'_>>) -> Result<Sequence<Property>, ScanFault>
    ensures { IsAnswer ScanFault.OutOfMemory result (λ props. props ≡ props_of found.entry) }
{
    let Some(value) = found else {
        return Ok(Sequence::from_vec(Vec::new(alloc)));
    };
    let Some(entries) = value.entries() else {
        return Ok(Sequence::from_vec(Vec::new(alloc)));
    };
    let members = members(alloc, entries)?;
    let mut props = last_texts(alloc, &members)?;
    props.reverse();
    Ok(Sequence::from_vec(props))
}

/// The entries, all at once.
fn members<'a>(alloc: Global, mut entries: EntriesView<'a>) -> Result<Vec<Member<'a>>, ScanFault>
    ensures { IsAnswer ScanFault.OutOfMemory result (λ members. named_values members.items ≡ entries.entry) }
{
    let mut members = Vec::new(alloc);
    while let Some(member) = entries.next() {
        members.push(member)?;
    }
    Ok(members)
}

/// The members that are the last of their name, where they are Strings, the last one first.
fn last_texts(alloc: Global, members: &[Member<'_>]) -> Result<Vec<Property>, ScanFault>
    ensures { let told = members_of (named_values members.now) in
        IsAnswer ScanFault.OutOfMemory result (λ props. reverse props.items ≡ texts.last_texts told) }
{
    let mut props = Vec::new(alloc);
    let mut seen = BTreeSet::new(alloc);
    for index in (0..members.len()).rev() {
        let (name, value) = &members[index];
        if seen.insert(*name)? {
            push_text(alloc, name, value, &mut props)?;
        }
    }
    Ok(props)
}

/// Adds a String and its name.
fn push_text(
    alloc: Global,
    name: &[u8],
    value: &View<'_>,
    props: &mut Vec<Property>,
) -> Result<(), ScanFault>
    ensures { let others = reverse props.old.items in
        IsAnswer ScanFault.OutOfMemory result (λ _.
        reverse props.new.items ≡ with_text name.now value.now others) }
{
    if let Some(text) = text(value) {
        props.push((copy(alloc, name)?, copy(alloc, text)?))?;
    }
    Ok(())
}

/// A copy of the bytes.
pub fn copy(alloc: Global, text: &[u8]) -> Result<Sequence<u8>, ScanFault>
    ensures { IsAnswer ScanFault.OutOfMemory result (λ bytes. bytes ≡ text.now) }
{
    Ok(Sequence::from_vec(Vec::from_slice(alloc, text)?))
}
