// Windows with one more value.

ghost use Rattle.std.specs.Prelude.{ℕ, ◌≡◌, ◌<◌, ◌^◌, OnOk, length};
ghost use Rattle.spec_core.specs.Lists.{IsOneOf};
ghost use Rattle.spec_core.specs.Windows.{IsInOrder};
ghost use Rattle.sort_windows.specs.Found.{HaveGained, windows_of};

use crate::ordered::OrderedValues;
use spec_core::items::Sort;
use spec_core::memory::Memory;
use spec_core::value::Value;
use std::alloc::Global;

/// Puts a value into the window of its sort, which does not have it, and drops what is then beyond the limit there.
pub fn add_value(
    alloc: Global,
    windows: &mut Vec<OrderedValues>,
    sort: Sort,
    value: Value,
    limit: usize,
) -> Result<(), Memory>
    requires in_order { IsInOrder (windows_of windows.old.items sort.0) }
    requires new { IsOneOf value (windows_of windows.old.items sort.0) → ⊥ }
    ensures gained { OnOk result (HaveGained limit sort.0 value (windows_of windows.old.items) (windows_of windows.new.items)) }
{
    let place = sort.0 as usize;
    make_room(alloc, windows, place)?;
    windows[place].insert(value, limit)
}

// Adds windows without values until there is one at this place.
fn make_room(alloc: Global, windows: &mut Vec<OrderedValues>, place: usize) -> Result<(), Memory>
    requires { place < 2 ^ 32 }
    ensures room { OnOk result (place < length windows.new.items) }
    ensures same { OnOk result ((s : ℕ) → windows_of windows.new.items s ≡ windows_of windows.old.items s) }
{
    for _ in windows.len()..place + 1 {
        windows.push(OrderedValues::new(alloc))?;
    }
    Ok(())
}
