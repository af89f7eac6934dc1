// Known values of the fields of actions and exits.

ghost use Rattle.std.specs.Prelude.{◌≡◌, ◌∷◌, ◌++◌, ◌+◌, IfOk, IfErr, IfSome, IfNone, map};
ghost use Rattle.spec_core.specs.Code.{action_field_of, exit_value_of};
ghost use Rattle.spec_core.specs.Executable.{IsExecutable};
ghost use Rattle.spec_core.specs.Lists.{OneOf};
ghost use Rattle.rule_origins.specs.Values.{assignment};
ghost use Rattle.node_values.specs.Stops.{Stops, Never};
ghost use Rattle.node_trees.specs.declared.rest.Known.TheVariants.{Told, Chosen};
ghost use Rattle.node_trees.specs.Rests.{remainder_of, left_at};
ghost use Rattle.symbolic_reach.specs.Asking.{field_asks, exit_asks};
ghost use Rattle.node_values.specs.Prepared.{program_in};
ghost use Rattle.node_steps.specs.Knowing.{tell, AreFieldsAt, HaveNoFields, AreExitAt, HaveNoExit};

use crate::telling::told;
use node_trees::rest::{Known, Rest};
use node_values::Prepared;
use node_values::stop::Stop;
use spec_core::code::{ActField, ExitField};
use spec_core::memory::Memory;
use spec_core::value::Value;
use std::alloc::Global;

/// The known values of an action's fields, and those of the variables that it binds.
#[derive(Drop)]
pub struct Fields {
    pub known: Vec<Known>,
    pub binders: Vec<(u32, Known)>,
}

// One more value in front.
fn in_front(first: Known, others: Vec<Known>) -> Result<Vec<Known>, Memory>
    ensures { IfOk result (λ all. all.items ≡ first ∷ others.items) }
{
    let mut all = others;
    match all.insert(0, first) {
        Ok(()) => Ok(all),
        Err(_) => Err(Memory),
    }
}

/// One more value for a variable in front.
pub fn bound_in_front(
    x: u32,
    first: Known,
    others: Vec<(u32, Known)>,
) -> Result<Vec<(u32, Known)>, Memory>
    ensures front { IfOk result (λ all. all.items ≡ (x, first) ∷ others.items) }
{
    let mut all = others;
    match all.insert(0, (x, first)) {
        Ok(()) => Ok(all),
        Err(_) => Err(Memory),
    }
}

/// Values for variables, told, before others.
pub fn told_before(
    alloc: Global,
    values: &[(u32, Value)],
    others: Vec<(u32, Known)>,
) -> Result<Vec<(u32, Known)>, Memory>
    ensures told { IfOk result (λ all. all.items ≡ tell values.now ++ others.items) }
{
    match values {
        [] => Ok(others),
        [first, rest @ ..] => {
            let (x, value) = first;
            let all = told_before(alloc, rest, others)?;
            bound_in_front(*x, Known::Told(value.copy(alloc)?), all)
        }
    }
}

/// The behaviour at a number, with these values told and others after them.
pub fn stays(
    alloc: Global,
    node: u32,
    values: &[(u32, Value)],
    binders: Vec<(u32, Known)>,
) -> Result<Rest, Memory>
    ensures stays { IfOk result (λ r. remainder_of r ≡ left_at node (tell values.now ++ binders.items)) }
{
    let values = told_before(alloc, values, binders)?;
    Ok(Rest::At { node, values })
}

// The place after this one. Want of memory is also answered past 2^32 values, which no machine has.
fn after(from: u32) -> Result<u32, Memory>
    ensures { IfOk result (λ n. n ≡ from + 1) }
{
    if from == u32::MAX {
        Err(Memory)
    } else {
        Ok(from + 1)
    }
}

// The fields with a told value in front.
fn with_told(value: Value, others: Fields) -> Result<Fields, Memory>
    ensures known { IfOk result (λ f. f.known.items ≡ Told value ∷ others.known.items) }
    ensures binders { IfOk result (λ f. f.binders.items ≡ others.binders.items) }
{
    let Fields { known, binders } = others;
    let known = in_front(Known::Told(value), known)?;
    Ok(Fields { known, binders })
}

// The fields with a binder in front, whose value is chosen.
fn with_chosen(x: u32, from: u32, others: Fields) -> Result<Fields, Memory>
    ensures known { IfOk result (λ f. f.known.items ≡ Chosen from ∷ others.known.items) }
    ensures binders { IfOk result (λ f. f.binders.items ≡ (x, Chosen from) ∷ others.binders.items) }
{
    let Fields { known, binders } = others;
    let known = in_front(Known::Chosen(from), known)?;
    let binders = bound_in_front(x, Known::Chosen(from), binders)?;
    Ok(Fields { known, binders })
}

/// The known values of an action's fields, where its expressions have values. The values that it chooses stand from this place on.
pub fn known_fields(
    alloc: Global,
    prepared: &Prepared,
    values: &[(u32, Value)],
    fields: &[ActField],
    from: u32,
    budget: u64,
) -> Result<Option<Fields>, Stop>
    requires executable { IsExecutable (program_in prepared.now).theory }
    ensures some { IfOk result (λ o. IfSome o (λ f. AreFieldsAt (program_in prepared.now).theory
        (assignment (program_in prepared.now).theory values.now) from (map action_field_of fields.now) f.known.items f.binders.items)) }
    ensures none { IfOk result (λ o. IfNone o (HaveNoFields (program_in prepared.now).theory
        (assignment (program_in prepared.now).theory values.now) (map action_field_of fields.now))) }
    ensures fault { IfErr result (Stops (program_in prepared.now).theory budget (λ x. OneOf (λ f.
        field_asks (assignment (program_in prepared.now).theory values.now) f x) (map action_field_of fields.now)) Never) }
{
    match fields {
        [] => Ok(Some(Fields {
            known: Vec::new(alloc),
            binders: Vec::new(alloc),
        })),
        [first, rest @ ..] => match first {
            ActField::Give(term) => match told(alloc, prepared, values, term, budget)? {
                None => Ok(None),
                Some(value) => match known_fields(alloc, prepared, values, rest, from, budget)? {
                    None => Ok(None),
                    Some(others) => Ok(Some(with_told(value, others)?)),
                },
            },
            ActField::Take(x, _) => {
                let next = after(from)?;
                match known_fields(alloc, prepared, values, rest, next, budget)? {
                    None => Ok(None),
                    Some(others) => Ok(Some(with_chosen(*x, from, others)?)),
                }
            }
        },
    }
}

/// The known values of an exit's fields, where its expressions have values. The values that it chooses stand from this place on.
pub fn known_exit(
    alloc: Global,
    prepared: &Prepared,
    values: &[(u32, Value)],
    fields: &[ExitField],
    from: u32,
    budget: u64,
) -> Result<Option<Vec<Known>>, Stop>
    requires executable { IsExecutable (program_in prepared.now).theory }
    ensures some { IfOk result (λ o. IfSome o (λ known. AreExitAt (program_in prepared.now).theory
        (assignment (program_in prepared.now).theory values.now) from (map exit_value_of fields.now) known.items)) }
    ensures none { IfOk result (λ o. IfNone o (HaveNoExit (program_in prepared.now).theory
        (assignment (program_in prepared.now).theory values.now) (map exit_value_of fields.now))) }
    ensures fault { IfErr result (Stops (program_in prepared.now).theory budget (λ x. OneOf (λ f.
        exit_asks (assignment (program_in prepared.now).theory values.now) f x) (map exit_value_of fields.now)) Never) }
{
    match fields {
        [] => Ok(Some(Vec::new(alloc))),
        [first, rest @ ..] => match first {
            ExitField::Give(term) => match told(alloc, prepared, values, term, budget)? {
                None => Ok(None),
                Some(value) => match known_exit(alloc, prepared, values, rest, from, budget)? {
                    None => Ok(None),
                    Some(others) => Ok(Some(in_front(Known::Told(value), others)?)),
                },
            },
            ExitField::Any(_) => {
                let next = after(from)?;
                match known_exit(alloc, prepared, values, rest, next, budget)? {
                    None => Ok(None),
                    Some(others) => Ok(Some(in_front(Known::Chosen(from), others)?)),
                }
            }
        },
    }
}
