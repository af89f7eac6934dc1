// The constructors of each sort.

ghost use Rattle.std.specs.Prelude.{ℕ, ◌≡◌, ◌++◌, ◌∷◌, [], Some, IfOk, OnOk, map, nat_eq, if◌then◌else◌};
ghost use Rattle.std.specs.List.{slice_get};
ghost use Rattle.cover_search.specs.Constructors.{constructors_at, IsConstructorAdded, IsConstructorIndexOf};
ghost use Rattle.cover_search.specs.Heads.{IsHeadIndexOf};
ghost use Rattle.spec_core.specs.Numbers.{op_number};
ghost use Rattle.spec_core.specs.Sorts.{FitsData};
ghost use Rattle.spec_core.specs.Theories.{operation_of, theory_of};

use crate::heads::HeadIndex;
use indexmap::IndexMap;
use spec_core::equation::DataSpec;
use spec_core::items::Op;
use spec_core::memory::Memory;
use spec_core::signature::OpDecl;
use std::alloc::Global;

/// The constructors of each sort.
#[derive(Drop)]
pub struct ConstructorIndex {
    // by the numbers of sorts
    all: IndexMap<u32, Vec<Op>>,
}

impl ConstructorIndex {
    /// The index of these data.
    pub fn of(
        alloc: Global,
        algebra: &DataSpec,
        heads: &HeadIndex<'_>,
    ) -> Result<ConstructorIndex, Memory>
        requires fits { FitsData (theory_of algebra.now) }
        requires heads { IsHeadIndexOf heads.now (theory_of algebra.now).equations }
        ensures { IfOk result (λ index. IsConstructorIndexOf index (theory_of algebra.now)) }
    {
        let mut index = ConstructorIndex {
            all: IndexMap::new(alloc),
        };
        for (i, declaration) in algebra.signature.ops.iter().enumerate() {
            let op = Op(i as u32);
            index.add(algebra, heads, op, declaration)?;
        }
        Ok(index)
    }

    // Puts an operation behind those of a sort.
    fn add_under(&mut self, sort: u32, op: Op) -> Result<(), Memory>
        ensures { OnOk result ((s : ℕ) → constructors_at self.new s
            ≡ constructors_at self.old s ++ (if nat_eq s sort then op.0 ∷ [] else [])) }
    {
        self.all.entry(sort)?.or_default().push(op)?;
        Ok(())
    }

    // Puts an operation behind those of its sort, if it is a constructor.
    fn add(
        &mut self,
        algebra: &DataSpec,
        heads: &HeadIndex<'_>,
        op: Op,
        declaration: &OpDecl,
    ) -> Result<(), Memory>
        requires heads { IsHeadIndexOf heads.now (theory_of algebra.now).equations }
        requires declared { slice_get (theory_of algebra.now).operations op.0 ≡ Some (operation_of declaration.now) }
        ensures { OnOk result ((s : ℕ) → IsConstructorAdded (theory_of algebra.now) s op.0
            (constructors_at self.old s) (constructors_at self.new s)) }
    {
        if !heads.is_constructor(algebra, op) {
            return Ok(());
        }
        self.add_under(declaration.result.0, op)
    }

    /// The constructors of a sort, in their order. It takes no memory.
    pub fn of_sort(&self, sort: u32) -> &[Op]
        ensures { map op_number result.now ≡ constructors_at self.now sort }
    {
        match self.all.get(&sort) {
            None => &[],
            Some(all) => all,
        }
    }
}
