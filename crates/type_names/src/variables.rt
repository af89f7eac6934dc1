// Refusals of variables that one forall declares twice.

ghost use Rattle.std.specs.Prelude.{◌≡◌, ◌++◌, OnOk, IfOk, map};
ghost use Rattle.std.specs.List.{flat_map};
ghost use Rattle.type_names.specs.DuplicateNames.{lists_of, lists_if_there, part_lists, lists_by, lists_in};
ghost use Rattle.type_names.specs.DuplicateNames.{variables_twice, duplicate_names};

use crate::declared_items::add_items_twice;
use crate::duplicates::{add_names_twice, add_types_twice};
use crate::names::add_names;
use lotos_ast::declaration::Declaration;
use lotos_ast::refusal::Refusal;
use lotos_ast::token::Token;
use lotos_ast::types::{EquationBody, EquationPart, ForAll, SortEquations, TypeBody, TypeDef};
use spec_core::memory::Memory;
use std::alloc::Global;

// Adds lists of variables.
fn add_lists<'a>(all: &mut Vec<&'a ForAll>, lists: &'a [ForAll]) -> Result<(), Memory>
    ensures { OnOk result (map (λ f. f.now) all.new.items ≡ map (λ f. f.now) all.old.items ++ lists.now) }
{
    for list in lists {
        all.push(list)?;
    }
    Ok(())
}

// Adds the lists of variables of equations of one sort each.
fn add_lists_of_parts<'a>(
    all: &mut Vec<&'a ForAll>,
    parts: &'a [SortEquations],
) -> Result<(), Memory>
    ensures { OnOk result (map (λ f. f.now) all.new.items ≡ map (λ f. f.now) all.old.items
        ++ flat_map (λ part. part.variables.items) parts.now) }
{
    for part in parts {
        add_lists(all, &part.variables)?;
    }
    Ok(())
}

// Adds the lists of variables of equations.
fn add_lists_of<'a>(all: &mut Vec<&'a ForAll>, body: &'a EquationBody) -> Result<(), Memory>
    ensures { OnOk result (map (λ f. f.now) all.new.items ≡ map (λ f. f.now) all.old.items ++ lists_of body.now) }
{
    add_lists(all, &body.variables)?;
    add_lists_of_parts(all, &body.parts)
}

// Adds the lists of variables of equations, if there are any.
fn add_lists_if_there<'a>(
    all: &mut Vec<&'a ForAll>,
    equations: &'a Option<EquationBody>,
) -> Result<(), Memory>
    ensures { OnOk result (map (λ f. f.now) all.new.items ≡ map (λ f. f.now) all.old.items ++ lists_if_there equations.now) }
{
    match equations {
        None => Ok(()),
        Some(body) => add_lists_of(all, body),
    }
}

// Adds the lists of variables of a part of equations, if there is one.
fn add_part_lists<'a>(
    all: &mut Vec<&'a ForAll>,
    equations: &'a Option<EquationPart>,
) -> Result<(), Memory>
    ensures { OnOk result (map (λ f. f.now) all.new.items ≡ map (λ f. f.now) all.old.items ++ part_lists equations.now) }
{
    match equations {
        None => Ok(()),
        Some(part) => add_lists_of(all, &part.body),
    }
}

// Adds the lists of variables of a type with this body.
fn add_lists_by<'a>(all: &mut Vec<&'a ForAll>, body: &'a TypeBody) -> Result<(), Memory>
    ensures { OnOk result (map (λ f. f.now) all.new.items ≡ map (λ f. f.now) all.old.items ++ lists_by body.now) }
{
    match body {
        TypeBody::Declared {
            place: _,
            imports: _,
            formals,
            sorts: _,
            operations: _,
            equations,
        } => {
            add_lists_if_there(all, &formals.equations)?;
            add_part_lists(all, equations)
        }
        TypeBody::Renamed {
            place: _,
            source: _,
            pairs: _,
        } => Ok(()),
        TypeBody::Actualized {
            place: _,
            source: _,
            actuals: _,
            pairs: _,
        } => Ok(()),
    }
}

// Adds the lists of variables of a type.
fn add_lists_in<'a>(all: &mut Vec<&'a ForAll>, definition: &'a TypeDef) -> Result<(), Memory>
    ensures { OnOk result (map (λ f. f.now) all.new.items ≡ map (λ f. f.now) all.old.items ++ lists_in definition.now) }
{
    match definition {
        TypeDef::Library { place: _, names: _ } => Ok(()),
        TypeDef::Definition {
            place: _,
            name: _,
            body,
        } => add_lists_by(all, body),
    }
}

// The lists of variables of types.
fn all_lists<'a>(alloc: Global, types: &'a [TypeDef]) -> Result<Vec<&'a ForAll>, Memory>
    ensures { IfOk result (λ all. map (λ f. f.now) all.items ≡ flat_map lists_in types.now) }
{
    let mut all = Vec::new(alloc);
    for definition in types {
        add_lists_in(&mut all, definition)?;
    }
    Ok(all)
}

// The names in declarations.
fn names_in<'a>(alloc: Global, list: &'a [Declaration]) -> Result<Vec<&'a Token>, Memory>
    ensures { IfOk result (λ all. map (λ t. t.now) all.items ≡ flat_map (λ d. d.names.items) list.now) }
{
    let mut all = Vec::new(alloc);
    for declaration in list {
        add_names(&mut all, &declaration.names)?;
    }
    Ok(all)
}

// Refuses the variables that a list declares before.
fn add_variables_twice(
    alloc: Global,
    list: &ForAll,
    refusals: &mut Vec<Refusal>,
) -> Result<(), Memory>
    ensures { OnOk result (refusals.new.items ≡ refusals.old.items ++ variables_twice list.now) }
{
    let names = names_in(alloc, &list.declarations.list)?;
    add_names_twice(alloc, &names, refusals)
}

// Refuses the variables that these lists declare before.
fn add_each_variables_twice(
    alloc: Global,
    lists: &[&ForAll],
    refusals: &mut Vec<Refusal>,
) -> Result<(), Memory>
    ensures { OnOk result (refusals.new.items ≡ refusals.old.items ++ flat_map variables_twice (map (λ f. f.now) lists.now)) }
{
    for list in lists {
        add_variables_twice(alloc, list, refusals)?;
    }
    Ok(())
}

/// Refuses the types, the sorts and operations, and the variables that are declared twice.
pub fn add_duplicate_names(
    alloc: Global,
    types: &[TypeDef],
    refusals: &mut Vec<Refusal>,
) -> Result<(), Memory>
    ensures { OnOk result (refusals.new.items ≡ refusals.old.items ++ duplicate_names types.now) }
{
    add_types_twice(alloc, types, refusals)?;
    add_items_twice(alloc, types, refusals)?;
    let lists = all_lists(alloc, types)?;
    add_each_variables_twice(alloc, &lists, refusals)
}
