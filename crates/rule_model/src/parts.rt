// Equal parts of constructs.

ghost use Rattle.std.specs.Prelude.{◌≡◌, IfOk, map};
ghost use Rattle.spec_core.specs.Code.{binding_of, exit_value_of, action_field_of, guard_of};

use spec_core::code::{ActField, ExitField};
use spec_core::items::Sort;
use spec_core::memory::Memory;
use spec_core::term::Term;
use std::alloc::Global;

/// Equal fields of an exit.
pub fn copy_exit_fields(alloc: Global, fields: &[ExitField]) -> Result<Vec<ExitField>, Memory>
    ensures equal { IfOk result (λ all. map exit_value_of all.items ≡ map exit_value_of fields.now) }
{
    let mut all = Vec::new(alloc);
    for field in fields {
        all.push(field.copy(alloc)?)?;
    }
    Ok(all)
}

/// Equal fields of an action.
pub fn copy_act_fields(alloc: Global, fields: &[ActField]) -> Result<Vec<ActField>, Memory>
    ensures equal { IfOk result (λ all. map action_field_of all.items ≡ map action_field_of fields.now) }
{
    let mut all = Vec::new(alloc);
    for field in fields {
        all.push(field.copy(alloc)?)?;
    }
    Ok(all)
}

/// Equal bindings.
pub fn copy_bindings(
    alloc: Global,
    bindings: &[(u32, Sort, Term)],
) -> Result<Vec<(u32, Sort, Term)>, Memory>
    ensures equal { IfOk result (λ all. map binding_of all.items ≡ map binding_of bindings.now) }
{
    let mut all = Vec::new(alloc);
    for binding in bindings {
        all.push((binding.0, binding.1, binding.2.copy(alloc)?))?;
    }
    Ok(all)
}

/// An equal predicate of an action, if there is one.
pub fn copy_guard(
    alloc: Global,
    guard: &Option<(Term, Term)>,
) -> Result<Option<(Term, Term)>, Memory>
    ensures equal { IfOk result (λ copied. guard_of copied ≡ guard_of guard.now) }
{
    match guard {
        None => Ok(None),
        Some(sides) => Ok(Some((sides.0.copy(alloc)?, sides.1.copy(alloc)?))),
    }
}
