//! What single values tell, each by its shape: specs/Told.antt.
ghost use Rattle.std.specs.Option.{option_map};
ghost use Rattle.std.specs.Prelude.{◌≡◌};
ghost use Rattle.cave_base.specs.Box.{point};
ghost use Rattle.nbt_core.specs.Value as values;
ghost use Rattle.nbt_core.specs.Value.{leaf};
ghost use Rattle.scan_core.specs.Told.{AreCompoundsOf, IsReadAs, point_of_list, triple_value};

use nbt_views::{ItemsView, View};

/// The number of an Int.
pub fn int(value: &View<'_>) -> Option<i32>
    ensures { IsReadAs (λ n. leaf (values.int n)) value.now result }
{
    value.int()
}

/// The bytes of a String.
pub fn text<'a>(value: &View<'a>) -> Option<&'a [u8]>
    ensures { IsReadAs (λ t. leaf (values.text t)) value.now (option_map (λ t. t.now) result) }
{
    value.text()
}

/// The numbers of a list of three Ints.
pub fn triple(value: &View<'_>) -> Option<[i32; 3]>
    ensures { IsReadAs triple_value value.now result }
{
    let mut items = value.items()?;
    if items.len() != 3 {
        return None;
    }
    let x = items.next_int()?;
    let y = items.next_int()?;
    let z = items.next_int()?;
    Some([x, y, z])
}

/// The three numbers, where none is negative.
pub fn natural(numbers: [i32; 3]) -> Option<[u32; 3]>
    ensures { option_map point result ≡ point_of_list numbers }
{
    let [x, y, z] = numbers;
    if x < 0 || y < 0 || z < 0 {
        return None;
    }
    Some([x as u32, y as u32, z as u32])
}

/// The items of a list of compounds.
pub fn compounds<'a>(value: &View<'a>) -> Option<ItemsView<'a>>
    ensures { AreCompoundsOf value.now result }
{
    let items = value.items()?;
    if items.are_compounds() {
        Some(items)
    } else {
        None
    }
}
