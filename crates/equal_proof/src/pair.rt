// Equations between the terms of a table.

ghost use Rattle.std.specs.Prelude.{◌≡◌, IfOk, map};
ghost use Rattle.spec_core.specs.Lists.{Each};
ghost use Rattle.spec_core.specs.Terms.{terms};
ghost use Rattle.value_table.specs.Tables.{tree_at, IsRow};
ghost use Rattle.equal_proof.specs.Certificates.{left_of, right_of};
ghost use Rattle.equal_proof.specs.Pairs.{stack_of, IsPair};

use spec_core::memory::Memory;
use std::alloc::Global;
use value_table::table::TermTable;

/// An equation between the terms of two rows.
#[derive(Clone, Copy)]
pub struct Pair {
    pub left: u32,
    pub right: u32,
}

/// The rows of the left sides.
pub fn lefts(alloc: Global, table: &TermTable, pairs: &[Pair]) -> Result<Vec<u32>, Memory>
    requires there { Each (IsPair table.now) pairs.now }
    ensures there { IfOk result (λ rows. Each (IsRow table.now) rows.items) }
    ensures sides { IfOk result (λ rows. map (tree_at table.now) rows.items ≡ map left_of (stack_of table.now pairs.now)) }
{
    let _ = table;
    let mut rows = Vec::new(alloc);
    for pair in pairs {
        rows.push(pair.left)?;
    }
    Ok(rows)
}

/// The rows of the right sides.
pub fn rights(alloc: Global, table: &TermTable, pairs: &[Pair]) -> Result<Vec<u32>, Memory>
    requires there { Each (IsPair table.now) pairs.now }
    ensures there { IfOk result (λ rows. Each (IsRow table.now) rows.items) }
    ensures sides { IfOk result (λ rows. map (tree_at table.now) rows.items ≡ map right_of (stack_of table.now pairs.now)) }
{
    let _ = table;
    let mut rows = Vec::new(alloc);
    for pair in pairs {
        rows.push(pair.right)?;
    }
    Ok(rows)
}
