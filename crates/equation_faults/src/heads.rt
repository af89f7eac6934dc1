// Which operations head equations.

ghost use Rattle.std.specs.Prelude.{IfOk};
ghost use Rattle.equation_faults.specs.Faults.{AreHeads};
ghost use Rattle.spec_core.specs.Theories.{theory_of};

use equation_sets::numbers::set_of;
use equation_sets::set::NumberSet;
use spec_core::equation::DataSpec;
use spec_core::memory::Memory;
use spec_core::term::Term;
use std::alloc::Global;

/// The operations that head equations.
pub fn heads(alloc: Global, algebra: &DataSpec) -> Result<NumberSet, Memory>
    ensures exact { IfOk result (AreHeads (theory_of algebra.now)) }
{
    let mut all = Vec::new(alloc);
    for equation in &algebra.equations {
        match &equation.left {
            Term::Var(_) => {}
            Term::App(op, _) => all.push(op.0)?,
        }
    }
    set_of(alloc, &all)
}
