// The equations of a type as they are written.

ghost use Rattle.std.specs.Prelude.{◌≡◌, ◌++◌, IfOk, OnOk, map, option_to_list};
ghost use Rattle.static_presentation.specs.Own as own;

use lotos_ast::types::{EquationBody, EquationPart, TypeBody, TypeDef};
use spec_core::memory::Memory;
use std::alloc::Global;

// The formal equations and the others, as far as there are any.
fn both<'a>(
    alloc: Global,
    formals: &'a Option<EquationBody>,
    equations: &'a Option<EquationPart>,
) -> Result<Vec<&'a EquationBody>, Memory>
    ensures { IfOk result (λ all. map (λ b. b.now) all.items ≡ option_to_list formals.now ++ own.part_body equations.now) }
{
    let mut all = Vec::new(alloc);
    if let Some(body) = formals {
        all.push(body)?;
    }
    if let Some(part) = equations {
        all.push(&part.body)?;
    }
    Ok(all)
}

// The equations of a type with this body.
fn bodies_by<'a>(alloc: Global, body: &'a TypeBody) -> Result<Vec<&'a EquationBody>, Memory>
    ensures { IfOk result (λ all. map (λ b. b.now) all.items ≡ own.bodies_by body.now) }
{
    match body {
        TypeBody::Declared {
            place: _,
            imports: _,
            formals,
            sorts: _,
            operations: _,
            equations,
        } => both(alloc, &formals.equations, equations),
        TypeBody::Renamed {
            place: _,
            source: _,
            pairs: _,
        } => Ok(Vec::new(alloc)),
        TypeBody::Actualized {
            place: _,
            source: _,
            actuals: _,
            pairs: _,
        } => Ok(Vec::new(alloc)),
    }
}

/// The equations of a type, the formal ones first.
pub fn bodies<'a>(alloc: Global, definition: &'a TypeDef) -> Result<Vec<&'a EquationBody>, Memory>
    ensures { IfOk result (λ all. map (λ b. b.now) all.items ≡ own.bodies definition.now) }
{
    match definition {
        TypeDef::Library { place: _, names: _ } => Ok(Vec::new(alloc)),
        TypeDef::Definition {
            place: _,
            name: _,
            body,
        } => bodies_by(alloc, body),
    }
}
