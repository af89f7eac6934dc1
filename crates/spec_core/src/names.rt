// Lists of names.

ghost use Rattle.std.specs.Prelude.{◌≡◌, IfOk};

use crate::memory::Memory;
use crate::name::Name;
use std::alloc::Global;

/// Equal names, in the same order.
pub fn copy_names(alloc: Global, names: &[Name]) -> Result<Vec<Name>, Memory>
    ensures equal { IfOk result (λ all. all.items ≡ names.now) }
{
    let mut all = Vec::new(alloc);
    for name in names {
        all.push(name.copy(alloc)?)?;
    }
    Ok(all)
}
