// Expansions of actions and exits.

ghost use Rattle.std.specs.Prelude.{ℕ, Option, ◌≡◌, ◌∷◌, [], IfOk, map};
ghost use Rattle.spec_core.specs.Code.{action_field_of, exit_value_of};
ghost use Rattle.spec_core.specs.Executable.{IsExecutable};
ghost use Rattle.rule_model.specs.Behaviours.{Behaviour, exit, action};
ghost use Rattle.symbolic_rules.specs.Windows.{Windows};
ghost use Rattle.node_values.specs.Scopes.{marks_of};
ghost use Rattle.node_values.specs.Prepared.{program_in};
ghost use Rattle.expand.specs.Outcomes.{Outcome};
ghost use Rattle.spec_core.specs.Theories.{Premise};
ghost use Rattle.rule_model.specs.Actions.{inside};
ghost use Rattle.symbolic_plans.specs.Plans.{internal};
ghost use Rattle.expand.specs.Joins.{Sized};
ghost use Rattle.symbolic_plans.specs.OwnPlans.{takes_value, takes_any};

use crate::joining::{nothing, single};
use crate::outcome::Expanded;
use node_values::Prepared;
use node_values::fields::{open_exit, open_fields};
use node_values::scope::Given;
use node_values::stop::Stop;
use spec_core::code::{ActField, ExitField};
use spec_core::items::Gate;
use spec_core::memory::Memory;
use std::alloc::Global;
use symbolic_plans::composite::{ActionKind, OpenComposite};
use symbolic_plans::scheme::Scheme;

// Whether a field of an action takes a value.
fn takes_value(field: &ActField) -> bool
    ensures { result ≡ takes_value (action_field_of field.now) }
{
    match field {
        ActField::Give(_) => false,
        ActField::Take(_, _) => true,
    }
}

// Which fields of an action take a value.
fn taking(alloc: Global, fields: &[ActField]) -> Result<Vec<bool>, Memory>
    ensures { IfOk result (λ all. all.items ≡ map takes_value (map action_field_of fields.now)) }
{
    let mut all = Vec::new(alloc);
    for field in fields {
        all.push(takes_value(field))?;
    }
    Ok(all)
}

// Whether a field of an exit takes any value.
fn takes_any(field: &ExitField) -> bool
    ensures { result ≡ takes_any (exit_value_of field.now) }
{
    match field {
        ExitField::Give(_) => false,
        ExitField::Any(_) => true,
    }
}

// Which fields of an exit take any value.
fn taking_any(alloc: Global, fields: &[ExitField]) -> Result<Vec<bool>, Memory>
    ensures { IfOk result (λ all. all.items ≡ map takes_any (map exit_value_of fields.now)) }
{
    let mut all = Vec::new(alloc);
    for field in fields {
        all.push(takes_any(field))?;
    }
    Ok(all)
}

/// The expansion of an action.
pub fn action_at(
    alloc: Global,
    prepared: &Prepared,
    scope: &[(u32, Given)],
    gate: Gate,
    fields: &[ActField],
    budget: u64,
) -> Result<Expanded, Stop>
    requires executable { IsExecutable (program_in prepared.now).theory }
    ensures comes { (w : Windows) (n : ℕ) (p : Option Premise) (b : Behaviour) →
        Outcome (program_in prepared.now) w n budget (marks_of (program_in prepared.now).theory scope.now)
        (action gate.0 (map action_field_of fields.now) p b) result }
{
    match open_fields(alloc, prepared, scope, fields, budget) {
        Err(stop) => Err(stop),
        Ok(None) => nothing(alloc, true),
        Ok(Some(columns)) => match taking(alloc, fields) {
            Err(_) => Err(Stop::Memory),
            Ok(takes) => {
                let scheme = Scheme::Pre(takes);
                let kind = ActionKind::At(gate);
                single(
                    alloc,
                    OpenComposite {
                        kind,
                        columns,
                        scheme,
                    },
                )
            }
        },
    }
}

/// The expansion of an exit.
pub fn exit_at(
    alloc: Global,
    prepared: &Prepared,
    scope: &[(u32, Given)],
    fields: &[ExitField],
    budget: u64,
) -> Result<Expanded, Stop>
    requires executable { IsExecutable (program_in prepared.now).theory }
    ensures comes { (w : Windows) (n : ℕ) →
        Outcome (program_in prepared.now) w n budget (marks_of (program_in prepared.now).theory scope.now)
        (exit (map exit_value_of fields.now)) result }
{
    match open_exit(alloc, prepared, scope, fields, budget) {
        Err(stop) => Err(stop),
        Ok(None) => nothing(alloc, true),
        Ok(Some(columns)) => match taking_any(alloc, fields) {
            Err(_) => Err(Stop::Memory),
            Ok(takes) => {
                let scheme = Scheme::Exit(takes);
                let kind = ActionKind::Exit;
                single(
                    alloc,
                    OpenComposite {
                        kind,
                        columns,
                        scheme,
                    },
                )
            }
        },
    }
}

/// The expansion of an internal action.
pub fn inner_at(alloc: Global) -> Result<Expanded, Stop>
    ensures inner { Sized (record { kind = inside; fields = []; plan = internal } ∷ []) 1 result }
{
    single(
        alloc,
        OpenComposite {
            kind: ActionKind::Inner,
            columns: Vec::new(alloc),
            scheme: Scheme::Int,
        },
    )
}
