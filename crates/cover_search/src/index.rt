// What is looked up in data.

ghost use Rattle.std.specs.Prelude.{IfOk};
ghost use Rattle.cover_search.specs.Indexes.{IsIndexOf};
ghost use Rattle.spec_core.specs.Sorts.{FitsData};
ghost use Rattle.spec_core.specs.Theories.{theory_of};

use crate::constructors::ConstructorIndex;
use crate::heads::HeadIndex;
use crate::lefts::LeftIndex;
use crate::sorts::inhabited_sorts;
use equation_sets::set::NumberSet;
use spec_core::equation::DataSpec;
use spec_core::memory::Memory;
use std::alloc::Global;

/// The equations of each operation and of each left side, the constructors of each sort, and the sorts that have a value.
#[derive(Drop)]
pub struct DataIndex<'a> {
    pub heads: HeadIndex<'a>,
    pub lefts: LeftIndex<'a>,
    pub constructors: ConstructorIndex,
    pub inhabited: NumberSet,
}

impl<'a> DataIndex<'a> {
    /// The index of these data.
    pub fn of(alloc: Global, algebra: &'a DataSpec) -> Result<DataIndex<'a>, Memory>
        requires fits { FitsData (theory_of algebra.now) }
        ensures { IfOk result (λ index. IsIndexOf index (theory_of algebra.now)) }
    {
        let heads = HeadIndex::of(alloc, &algebra.equations)?;
        let lefts = LeftIndex::of(alloc, &algebra.equations)?;
        let constructors = ConstructorIndex::of(alloc, algebra, &heads)?;
        let inhabited = inhabited_sorts(alloc, algebra, &heads)?;
        Ok(DataIndex {
            heads,
            lefts,
            constructors,
            inhabited,
        })
    }
}
