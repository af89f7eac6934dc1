// Windows by the numbers of the sorts.

ghost use Rattle.std.specs.Prelude.{◌≡◌};
ghost use Rattle.symbolic_rules.specs.Tables.{windows_in};

use spec_core::items::Sort;
use spec_core::value::Value;
use spec_core::window::Window;

/// The values of a sort's window. It takes no memory.
pub fn values_at(table: &[Window], sort: Sort) -> &[Value]
    ensures values { result.now ≡ (windows_in table.now).values sort.0 }
{
    match table.get(sort.0 as usize) {
        None => &[],
        Some(window) => window.values.as_slice(),
    }
}

/// Whether a sort's window is complete. It takes no memory.
pub fn is_complete(table: &[Window], sort: Sort) -> bool
    ensures complete { result ≡ (windows_in table.now).complete sort.0 }
{
    match table.get(sort.0 as usize) {
        None => true,
        Some(window) => window.complete,
    }
}
