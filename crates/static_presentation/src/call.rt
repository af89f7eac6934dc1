// The call.

ghost use Rattle.std.specs.Prelude.{IfOk};
ghost use Rattle.lotos_ast.specs.Refusals.{IfRefused};
ghost use Rattle.spec_core.specs.Theories.{theory_of};
ghost use Rattle.flattening.specs.Flattens.{Flattens};
ghost use Rattle.static_presentation.specs.Presentations.{IsPresentation, IsFirstRefusal};

use crate::own::own_equations;
use lotos_ast::refusal::FrontFault;
use lotos_ast::types::TypeDef;
use spec_core::equation::DataSpec;
use std::alloc::Global;
use type_contents::flat::FlatData;
use type_data::data::data_of;

/// The data presentation of types that come to this: every type's own equations are read over what that type has, and copies have the
/// images of what they copy. Or the first of what is refused of the equations: at the earliest place, with the smallest number there
/// (8 UnknownSort, 12 UnknownName, 13 NoReading, 14 Ambiguous).
#[tactic(auto, using(crate::proofs::OneEach::as_many, crate::proofs::OneEach::presented, crate::proofs::OneEach::refused_first))]
pub fn presentation(
    alloc: Global,
    types: &[TypeDef],
    flat: &FlatData<'_>,
) -> Result<DataSpec, FrontFault>
    requires { Flattens types.now flat.now }
    ensures data { IfOk result (λ d. IsPresentation types.now (theory_of d)) }
    ensures refused { IfRefused result (IsFirstRefusal types.now) }
{
    let own = own_equations(alloc, types, flat)?;
    let data = data_of(alloc, types, flat, &own)?;
    Ok(data)
}
