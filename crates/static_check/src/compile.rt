// A specification is compiled, or refused.

ghost use Rattle.std.specs.Prelude.{IfOk};
ghost use Rattle.lotos_ast.specs.Refusals.{IfRefused};
ghost use Rattle.spec_core.specs.Code.{program_of};
ghost use Rattle.spec_core.specs.Theories.{theory_of};
ghost use Rattle.static_check.specs.Compiled.{IsCompiled, IsFirstRefusal};

use crate::judgement::{Judged, judge};
use lotos_ast::first_refusal::first_refusal;
use lotos_ast::refusal::FrontFault;
use lotos_ast::spec::Spec;
use spec_core::code::Checked;
use spec_core::equation::DataSpec;
use std::alloc::Global;

/// Compiles a specification over its data. The first refusal, by place and then by number, is answered where there is one: 8 UnknownSort,
/// 9 DuplicateName, 12 UnknownName, 13 NoReading, 14 Ambiguous, 22 UnknownGate, 23 UnknownProcess, 24 WrongCount, 25 WrongFunctionality or
/// 26 Unguarded. Want of memory is answered, too, where there are 2^32 or more of anything.
pub fn compile(alloc: Global, spec: &Spec, algebra: &DataSpec) -> Result<Checked, FrontFault>
    ensures compiled { IfOk result (λ checked. IsCompiled (theory_of algebra.now) spec.now (program_of checked)) }
    ensures refused { IfRefused result (IsFirstRefusal (theory_of algebra.now) spec.now) }
{
    let Judged { program, refusals } = judge(alloc, spec, algebra)?;
    match first_refusal(refusals) {
        Some(refusal) => Err(FrontFault::Refused(refusal)),
        None => match program {
            Some(checked) => Ok(checked),
            None => unreachable!(),
        },
    }
}
