//! The fields of a compound under several names, found in one walk over its bytes: specs/Fields.antt.
ghost use Rattle.std.specs.Prelude.{◌≡◌, ◌≢◌, ◌≤◌, length, IfErr, Some, bytes_eq, if◌then◌else◌};
ghost use Rattle.nbt_core.specs.Reading.{Gives, mapped};
ghost use Rattle.nbt_core.specs.TreeReading.{members_at, value_at};
ghost use Rattle.nbt_core.specs.declared.fault.NbtFault.{NbtFault};
ghost use Rattle.nbt_views.specs.Fields.{four_named, two_fields, two_named};

use crate::view::View;
use nbt_core::{Kind, NbtFault, Reader};

/// The field of a name, where there is one.
type Found<'a> = Option<View<'a>>;

/// The fields of two names.
pub type TwoFields<'a> = (Found<'a>, Found<'a>);

/// The fields of four names.
pub type FourFields<'a> = (Found<'a>, Found<'a>, Found<'a>, Found<'a>);

/// Passes over a payload, in which `room` containers may nest, and gives the fields of these two names.
pub(crate) fn fields_of<'a>(
    reader: &mut Reader<'a>,
    kind: Kind,
    room: u16,
    a: &[u8],
    b: &[u8],
) -> Result<TwoFields<'a>, NbtFault>
    requires { room ≤ 512 }
    ensures read { Gives (λ found. found) result reader.new.rest.now (mapped (two_fields a.now b.now)
        (value_at reader.old.end room kind reader.old.rest.now)) }
    ensures end { reader.new.end ≡ reader.old.end }
    ensures shrinks { length reader.new.rest.now ≤ length reader.old.rest.now }
    ensures no_memory { IfErr result (λ e. e ≢ NbtFault.OutOfMemory) }
{
    if !kind.is_same(Kind::Compound) {
        reader.skip(kind, room)?;
        return Ok((None, None));
    }
    let room = reader.one_deeper(room)?;
    two_fields(reader, room, a, b)
}

/// Passes over named payloads up to an End, and gives the last ones of these two names.
fn two_fields<'a>(
    reader: &mut Reader<'a>,
    room: u16,
    a: &[u8],
    b: &[u8],
) -> Result<TwoFields<'a>, NbtFault>
    requires { room ≤ 512 }
    ensures read { Gives (λ found. found) result reader.new.rest.now (mapped (two_named a.now b.now)
        (members_at reader.old.end (value_at reader.old.end room) (length reader.old.rest.now) reader.old.rest.now)) }
    ensures end { reader.new.end ≡ reader.old.end }
    ensures shrinks { length reader.new.rest.now ≤ length reader.old.rest.now }
    ensures no_memory { IfErr result (λ e. e ≢ NbtFault.OutOfMemory) }
{
    let (mut first, mut second) = (None, None);
    while let Some(kind) = reader.kind()? {
        let key = reader.text()?;
        let payload = reader.rest;
        reader.skip(kind, room)?;
        let value = View::new(payload, reader.end, room, kind);
        first = last(first, a, key, &value);
        second = last(second, b, key, &value);
    }
    Ok((first, second))
}

/// Passes over named payloads up to an End, and gives the last ones of these four names.
pub(crate) fn four_fields<'a>(
    reader: &mut Reader<'a>,
    room: u16,
    a: &[u8],
    b: &[u8],
    c: &[u8],
    d: &[u8],
) -> Result<FourFields<'a>, NbtFault>
    requires { room ≤ 512 }
    ensures read { Gives (λ found. found) result reader.new.rest.now (mapped (four_named a.now b.now c.now d.now)
        (members_at reader.old.end (value_at reader.old.end room) (length reader.old.rest.now) reader.old.rest.now)) }
    ensures end { reader.new.end ≡ reader.old.end }
    ensures shrinks { length reader.new.rest.now ≤ length reader.old.rest.now }
    ensures no_memory { IfErr result (λ e. e ≢ NbtFault.OutOfMemory) }
{
    let (mut first, mut second) = (None, None);
    let (mut third, mut fourth) = (None, None);
    while let Some(kind) = reader.kind()? {
        let key = reader.text()?;
        let payload = reader.rest;
        reader.skip(kind, room)?;
        let value = View::new(payload, reader.end, room, kind);
        first = last(first, a, key, &value);
        second = last(second, b, key, &value);
        third = last(third, c, key, &value);
        fourth = last(fourth, d, key, &value);
    }
    Ok((first, second, third, fourth))
}

/// The value of the entry, where its key is the name, or else what was found before.
fn last<'a>(found: Found<'a>, name: &[u8], key: &[u8], value: &View<'a>) -> Found<'a>
    ensures { result ≡ (if bytes_eq key.now name.now then Some value.now else found.entry) }
{
    if key == name {
        return Some(value.again());
    }
    found
}
