// The call.

ghost use Rattle.std.specs.Prelude.{◌≡◌, [], IfOk, OnOk, IfNone, IfSome, Some, length};
ghost use Rattle.lotos_ast.specs.Refusals.{IfRefused};
ghost use Rattle.lotos_ast.specs.FirstRefusals.{first_refusal};
ghost use Rattle.flattening.specs.Flattens.{Flattens};
ghost use Rattle.flattening.specs.Refusals.{refusals_of};

use crate::refusals::refusals;
use lotos_ast::first_refusal::first_refusal;
use lotos_ast::refusal::{FrontFault, Refusal};
use lotos_ast::types::TypeDef;
use spec_core::memory::Memory;
use std::alloc::Global;
use type_contents::flat::{FlatData, flat_of};

// The first of what is refused of types that come to this.
#[tactic(auto, using(crate::proofs::Judged::as_many, crate::proofs::Judged::judged))]
fn first_refused(
    alloc: Global,
    types: &[TypeDef],
    flat: &FlatData<'_>,
) -> Result<Option<Refusal>, Memory>
    requires { Flattens types.now flat.now }
    ensures first { IfOk result (λ first. first ≡ first_refusal (refusals_of types.now)) }
    ensures none { IfOk result (λ first. IfNone first (refusals_of types.now ≡ [])) }
{
    let all = refusals(alloc, types, flat)?;
    Ok(first_refusal(all))
}

/// What types come to, or the first of what is refused of them: at the earliest place, with the smallest number there, and among formal
/// items at one place the first by number. An unknown type has nothing.
pub fn flatten<'a>(alloc: Global, types: &'a [TypeDef]) -> Result<FlatData<'a>, FrontFault>
    ensures flat { IfOk result (λ flat. Flattens types.now flat) }
    ensures accepted { OnOk result (refusals_of types.now ≡ []) }
    ensures refused { IfRefused result (λ refusal. first_refusal (refusals_of types.now) ≡ Some refusal) }
{
    let flat = flat_of(alloc, types)?;
    match first_refused(alloc, types, &flat)? {
        None => Ok(flat),
        Some(refusal) => Err(FrontFault::Refused(refusal)),
    }
}
