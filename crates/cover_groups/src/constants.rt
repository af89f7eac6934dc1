// Sorts all of whose constructors are constants.

ghost use Rattle.std.specs.Prelude.{◌↔◌, IsTrue};
ghost use Rattle.cover_groups.specs.Fullness.{TakesNothing};
ghost use Rattle.cover_search.specs.Indexes.{IsIndexOf};
ghost use Rattle.spec_core.specs.Cover.{HasConstants};
ghost use Rattle.spec_core.specs.Theories.{theory_of};

use cover_search::DataIndex;
use spec_core::equation::DataSpec;
use spec_core::items::{Op, Sort};
use spec_core::signature::same_sorts;

// Whether an operation is declared, and takes no arguments.
fn takes_nothing(algebra: &DataSpec, op: Op) -> bool
    ensures { IsTrue result ↔ TakesNothing (theory_of algebra.now) op.0 }
{
    let place = op.0 as usize;
    place < algebra.signature.ops.len() && same_sorts(&algebra.signature.ops[place].args, &[])
}

/// Whether all constructors of the sort are constants. It takes no memory.
pub fn has_constants(algebra: &DataSpec, index: &DataIndex<'_>, sort: Sort) -> bool
    requires index { IsIndexOf index.now (theory_of algebra.now) }
    ensures decides { IsTrue result ↔ HasConstants (theory_of algebra.now) sort.0 }
{
    let constructors = index.constructors.of_sort(sort.0);
    for op in constructors {
        if !takes_nothing(algebra, *op) {
            return false;
        }
    }
    true
}
