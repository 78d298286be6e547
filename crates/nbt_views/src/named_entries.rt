//! The number of an Int, or those of a list of three Ints, where the next entry has a given name: `IsEntry` of
//! specs/Entry.antt. The code here is short and inlined whole, so that it is several times faster than the general way.
//! `None` and `false` say only that the general way has to be taken.
ghost use Rattle.std.specs.Prelude.{◌≡◌, ◌≤◌, length, IfSome, IsTrue, Ok};
ghost use Rattle.nbt_core.specs.TreeReading.{value_at};
ghost use Rattle.nbt_core.specs.Value as values;
ghost use Rattle.nbt_core.specs.Value.{leaf};
ghost use Rattle.nbt_core.specs.declared.kind.Kind.{Kind};
ghost use Rattle.nbt_views.specs.Entry.{IsEntry, IsHead};
ghost use Rattle.nbt_views.specs.Parts.{three_ints};

use nbt_core::{Kind, LeafKind, Reader};

/// The number of the next entry, where that is an Int of this name.
#[inline(always)]
pub(crate) fn int_named(reader: &mut Reader<'_>, room: u16, name: &[u8]) -> Option<i32>
    ensures read { IfSome result (λ n. IsEntry reader.old.end (value_at reader.old.end room) name.now
        (leaf (values.int n)) reader.old.rest.now reader.new.rest.now) }
    ensures end { reader.new.end ≡ reader.old.end }
    ensures shrinks { length reader.new.rest.now ≤ length reader.old.rest.now }
{
    if !is_named(reader, Kind::Leaf(LeafKind::Int), name) {
        return None;
    }
    let Ok(number) = reader.int() else {
        return None;
    };
    Some(number)
}

/// The numbers of the next entry, where that is a list of three Ints of this name.
#[inline(always)]
pub(crate) fn triple_named(reader: &mut Reader<'_>, room: u16, name: &[u8]) -> Option<[i32; 3]>
    ensures read { IfSome result (λ ns. IsEntry reader.old.end (value_at reader.old.end room) name.now
        (three_ints ns) reader.old.rest.now reader.new.rest.now) }
    ensures end { reader.new.end ≡ reader.old.end }
    ensures shrinks { length reader.new.rest.now ≤ length reader.old.rest.now }
{
    if !is_named(reader, Kind::List, name) {
        return None;
    }
    let Some(numbers) = triple(reader, room) else {
        return None;
    };
    Some(numbers)
}

/// Passes over the kind and the name of the next entry, and says whether they are these.
#[inline(always)]
fn is_named(reader: &mut Reader<'_>, kind: Kind, name: &[u8]) -> bool
    ensures read { IsTrue result → IsHead reader.old.end kind name.now reader.old.rest.now reader.new.rest.now }
    ensures end { reader.new.end ≡ reader.old.end }
    ensures shrinks { length reader.new.rest.now ≤ length reader.old.rest.now }
{
    let Ok(next) = reader.kind() else {
        return false;
    };
    let Some(next) = next else {
        return false;
    };
    if !next.is_same(kind) {
        return false;
    }
    let Ok(key) = reader.text() else {
        return false;
    };
    key == name
}

/// The numbers of a payload that is a list of three Ints.
#[inline(always)]
fn triple(reader: &mut Reader<'_>, room: u16) -> Option<[i32; 3]>
    ensures read { IfSome result (λ ns. value_at reader.old.end room Kind.List reader.old.rest.now
        ≡ Ok (three_ints ns, reader.new.rest.now)) }
    ensures end { reader.new.end ≡ reader.old.end }
    ensures shrinks { length reader.new.rest.now ≤ length reader.old.rest.now }
{
    let Some(count) = reader.ints(room) else {
        return None;
    };
    if count != 3 {
        return None;
    }
    let Ok(x) = reader.int() else {
        return None;
    };
    let Ok(y) = reader.int() else {
        return None;
    };
    let Ok(z) = reader.int() else {
        return None;
    };
    Some([x, y, z])
}
