// Refusals of sorts that a type doesn't have.

ghost use Rattle.std.specs.Prelude.{◌≡◌, ◌++◌, OnOk, map};
ghost use Rattle.std.specs.List.{flat_map};
ghost use Rattle.type_copies.specs.UnknownSorts.{operation_sorts, sorts_by, sorts_in, unknown_sort, unknown_sorts};
ghost use Rattle.type_copies.specs.Views.{item_at};

use crate::copy::is_sort_in;
use lotos_ast::refusal::{Refusal, RefusalKind};
use lotos_ast::token::Token;
use lotos_ast::types::{OperationDecl, TypeBody, TypeDef};
use spec_core::memory::Memory;
use std::alloc::Global;
use type_contents::item::{Item, small};
use type_contents::own::{formal_operations, part_operations};
use type_names::names::add_names;
use type_names::refused::refused;

// Adds the sorts that a declaration names.
fn add_operation_sorts<'a>(
    all: &mut Vec<&'a Token>,
    declaration: &'a OperationDecl,
) -> Result<(), Memory>
    ensures { OnOk result (map (λ t. t.now) all.new.items ≡ map (λ t. t.now) all.old.items ++ operation_sorts declaration.now) }
{
    if let Some(arguments) = &declaration.arguments {
        add_names(all, arguments)?;
    }
    all.push(&declaration.result)?;
    Ok(())
}

// Adds the sorts that declarations name.
fn add_sorts_of<'a>(
    all: &mut Vec<&'a Token>,
    declarations: &'a [OperationDecl],
) -> Result<(), Memory>
    ensures { OnOk result (map (λ t. t.now) all.new.items ≡ map (λ t. t.now) all.old.items ++ flat_map operation_sorts declarations.now) }
{
    for declaration in declarations {
        add_operation_sorts(all, declaration)?;
    }
    Ok(())
}

// Adds the sorts that the declarations of a type with this body name.
fn add_sorts_by<'a>(all: &mut Vec<&'a Token>, body: &'a TypeBody) -> Result<(), Memory>
    ensures { OnOk result (map (λ t. t.now) all.new.items ≡ map (λ t. t.now) all.old.items ++ sorts_by body.now) }
{
    match body {
        TypeBody::Declared {
            place: _,
            imports: _,
            formals,
            sorts: _,
            operations,
            equations: _,
        } => {
            add_sorts_of(all, formal_operations(&formals.operations))?;
            add_sorts_of(all, part_operations(operations))
        }
        TypeBody::Renamed {
            place: _,
            source: _,
            pairs: _,
        } => Ok(()),
        TypeBody::Actualized {
            place: _,
            source: _,
            actuals: _,
            pairs: _,
        } => Ok(()),
    }
}

// Adds the sorts that a type's declarations name.
fn add_sorts_in<'a>(all: &mut Vec<&'a Token>, definition: &'a TypeDef) -> Result<(), Memory>
    ensures { OnOk result (map (λ t. t.now) all.new.items ≡ map (λ t. t.now) all.old.items ++ sorts_in definition.now) }
{
    match definition {
        TypeDef::Library { place: _, names: _ } => Ok(()),
        TypeDef::Definition {
            place: _,
            name: _,
            body,
        } => add_sorts_by(all, body),
    }
}

// Refuses a sort that isn't among these items.
fn add_unknown_sort(
    alloc: Global,
    items: &[&Item],
    name: &Token,
    refusals: &mut Vec<Refusal>,
) -> Result<(), Memory>
    ensures { OnOk result (refusals.new.items ≡ refusals.old.items ++ unknown_sort (map item_at items.now) name.now) }
{
    let sort = small(alloc, name)?;
    if !is_sort_in(items, sort.as_str()) {
        refusals.push(refused(alloc, RefusalKind::UnknownSort, name.place))?;
    }
    Ok(())
}

// Refuses those of the sorts that aren't among these items.
fn add_each_unknown(
    alloc: Global,
    items: &[&Item],
    names: &[&Token],
    refusals: &mut Vec<Refusal>,
) -> Result<(), Memory>
    ensures { OnOk result (refusals.new.items ≡ refusals.old.items ++ flat_map (unknown_sort (map item_at items.now))
        (map (λ t. t.now) names.now)) }
{
    for name in names {
        add_unknown_sort(alloc, items, name, refusals)?;
    }
    Ok(())
}

/// Refuses the sorts that the declarations of a type with these items name and that it doesn't have.
pub fn add_unknown_sorts(
    alloc: Global,
    items: &[&Item],
    definition: &TypeDef,
    refusals: &mut Vec<Refusal>,
) -> Result<(), Memory>
    ensures { OnOk result (refusals.new.items ≡ refusals.old.items ++ unknown_sorts (map item_at items.now) definition.now) }
{
    let mut names = Vec::new(alloc);
    add_sorts_in(&mut names, definition)?;
    add_each_unknown(alloc, items, &names, refusals)
}
