// Whether data can be run.

ghost use Rattle.std.specs.Prelude.{ℕ, IfOk, List};
ghost use Rattle.lotos_ast.specs.Refusals.{IfRefused};
ghost use Rattle.spec_core.specs.Executable.{IsExecutable};
ghost use Rattle.spec_core.specs.Sorts.{FitsData};
ghost use Rattle.spec_core.specs.Theories.{theory_of};
ghost use Rattle.lotos_front.specs.FirstRefusals.{IsFirstDataRefusal};
ghost use Rattle.lotos_front.specs.Stages.{IsDataIn};

use equation_check::check_shape;
use lotos_ast::refusal::FrontFault;
use path_order::check_decrease;
use spec_core::equation::DataSpec;
use std::alloc::Global;

/// Whether data can be run: they are orthogonal and decreasing. If they aren't, the first refusal of every text with these data.
#[tactic(auto, using(crate::proofs::Refusing::misshapen, crate::proofs::Refusing::not_decreasing))]
pub fn check(alloc: Global, algebra: &DataSpec) -> Result<(), FrontFault>
    requires fits { FitsData (theory_of algebra.now) }
    ensures executable { IfOk result (λ _. IsExecutable (theory_of algebra.now)) }
    ensures refused { IfRefused result (λ r. (text : List ℕ) → IsDataIn text (theory_of algebra.now) → IsFirstDataRefusal text r) }
{
    check_shape(alloc, algebra)?;
    check_decrease(alloc, algebra)
}
