// Which equations an operation heads.

ghost use Rattle.std.specs.Prelude.{ℕ, ◌≡◌, ◌<◌, ◌≤◌, ◌+◌, IfOk, length};
ghost use Rattle.spec_core.specs.Theories.{Heads, theory_of};
ghost use Rattle.spec_core.specs.Executable.{IsExecutable};
ghost use Rattle.rewriter.specs.Steps.{equation_at};
ghost use Rattle.rewriter.specs.Index.{IsIndex, AreLinked};

use crate::equations::head_of;
use spec_core::equation::DataSpec;
use spec_core::items::Op;
use spec_core::memory::Memory;
use std::alloc::Global;

/// For each operation its first equation, and for each equation the next one with the same head; the number of equations where there
/// is none.
#[derive(Drop)]
pub struct FirstEquations {
    first: Vec<u32>,
    next: Vec<u32>,
}

impl FirstEquations {
    /// The equations of each operation.
    pub fn new(alloc: Global, algebra: &DataSpec) -> Result<FirstEquations, Memory>
        requires executable { IsExecutable (theory_of algebra.now) }
        ensures indexed { IfOk result (λ h. IsIndex (theory_of algebra.now) h) }
    {
        let count = algebra.equations.len();
        let none = count as u32;
        let mut first = Vec::from_elem(alloc, none, algebra.signature.ops.len())?;
        let mut next = Vec::from_elem(alloc, none, count)?;
        for i in 0..count {
            link(algebra, &mut first, &mut next, count - 1 - i);
        }
        Ok(FirstEquations { first, next })
    }

    /// The first equation that the operation heads, or the number of equations.
    pub fn first(&self, algebra: &DataSpec, op: Op) -> usize
        requires indexed { IsIndex (theory_of algebra.now) self.now }
        ensures heads { result < length (theory_of algebra.now).equations → Heads op.0 (equation_at (theory_of algebra.now) result) }
        ensures skipped { (j : ℕ) →
            j < result → j < length (theory_of algebra.now).equations → Heads op.0 (equation_at (theory_of algebra.now) j) → ⊥ }
    {
        let place = op.0 as usize;
        if place < self.first.len() {
            self.first[place] as usize
        } else {
            algebra.equations.len()
        }
    }

    /// The next equation with the same head, or the number of equations.
    pub fn after(&self, algebra: &DataSpec, place: usize) -> usize
        requires indexed { IsIndex (theory_of algebra.now) self.now }
        requires there { place < length (theory_of algebra.now).equations }
        ensures onward { place < result }
        ensures heads { (f : ℕ) →
            result < length (theory_of algebra.now).equations → Heads f (equation_at (theory_of algebra.now) place) →
            Heads f (equation_at (theory_of algebra.now) result) }
        ensures skipped { (f j : ℕ) →
            place < j → j < result → j < length (theory_of algebra.now).equations →
            Heads f (equation_at (theory_of algebra.now) place) → Heads f (equation_at (theory_of algebra.now) j) → ⊥ }
    {
        self.next[place] as usize
    }
}

// Puts an equation before the later ones with the same head.
fn link(algebra: &DataSpec, first: &mut [u32], next: &mut [u32], place: usize)
    requires executable { IsExecutable (theory_of algebra.now) }
    requires there { place < length (theory_of algebra.now).equations }
    requires linked { AreLinked (theory_of algebra.now) (place + 1) first.old next.old }
    ensures linked { AreLinked (theory_of algebra.now) place first.new next.new }
{
    let (op, _) = head_of(algebra, place);
    let head = op.0 as usize;
    next[place] = first[head];
    first[head] = place as u32;
}
