// The variables that `forall` declares.

ghost use Rattle.std.specs.Prelude.{◌≡◌, ◌++◌, ◌<◌, ◌≤◌, ◌-◌, ◌^◌, OnOk, IfOk, map, length, vec_len};
ghost use Rattle.std.specs.List.{flat_map};
ghost use Rattle.sort_overloads.specs.Refused.{unknown_sort};
ghost use Rattle.sort_overloads.specs.Views.{context_of};
ghost use Rattle.static_equations.specs.Variables as variables;

use crate::names::{has_sort, sort_named};
use lotos_ast::declaration::Declaration;
use lotos_ast::names::Names;
use lotos_ast::refusal::{Refusal, RefusalKind};
use lotos_ast::token::Token;
use lotos_ast::types::ForAll;
use sort_overloads::scope::Scope;
use sort_overloads::variables::Variables;
use spec_core::items::Sort;
use spec_core::memory::Memory;
use spec_core::name::Name;
use std::alloc::Global;

/// Refuses a sort that isn't known (8 UnknownSort).
pub fn add_unknown_sort(
    alloc: Global,
    scope: &Scope,
    sort: &Token,
    refusals: &mut Vec<Refusal>,
) -> Result<(), Memory>
    ensures added { OnOk result (refusals.new.items ≡ refusals.old.items ++ unknown_sort (context_of scope.now) sort.now) }
{
    if !has_sort(&scope.signature.sorts, sort.text.as_str()) {
        refusals.push(Refusal {
            kind: RefusalKind::UnknownSort,
            place: sort.place,
            names: Names::none(alloc),
        })?;
    }
    Ok(())
}

// Refuses the sorts of declarations that aren't known.
fn add_unknown_sorts_of(
    alloc: Global,
    scope: &Scope,
    declarations: &[&Declaration],
    refusals: &mut Vec<Refusal>,
) -> Result<(), Memory>
    ensures added { OnOk result (refusals.new.items
        ≡ refusals.old.items ++ variables.unknown_sorts (context_of scope.now) (map (λ d. d.now) declarations.now)) }
{
    for declaration in declarations {
        add_unknown_sort(alloc, scope, &declaration.sort, refusals)?;
    }
    Ok(())
}

// Adds the declarations of a list.
fn add_declarations<'a>(
    all: &mut Vec<&'a Declaration>,
    list: &'a [Declaration],
) -> Result<(), Memory>
    ensures { OnOk result (map (λ d. d.now) all.new.items ≡ map (λ d. d.now) all.old.items ++ list.now) }
{
    for declaration in list {
        all.push(declaration)?;
    }
    Ok(())
}

// The declarations of lists.
fn declarations<'a>(alloc: Global, lists: &'a [ForAll]) -> Result<Vec<&'a Declaration>, Memory>
    ensures { IfOk result (λ all. map (λ d. d.now) all.items ≡ variables.declarations lists.now) }
{
    let mut all = Vec::new(alloc);
    for list in lists {
        add_declarations(&mut all, &list.declarations.list)?;
    }
    Ok(all)
}

/// Refuses the sorts of variables that aren't known (8 UnknownSort).
pub fn add_unknown_sorts(
    alloc: Global,
    scope: &Scope,
    lists: &[ForAll],
    refusals: &mut Vec<Refusal>,
) -> Result<(), Memory>
    ensures added { OnOk result (refusals.new.items
        ≡ refusals.old.items ++ variables.unknown_sorts (context_of scope.now) (variables.declarations lists.now)) }
{
    let all = declarations(alloc, lists)?;
    add_unknown_sorts_of(alloc, scope, &all, refusals)
}

// Adds the variables of a declaration.
fn add_variables_of(
    alloc: Global,
    sorts: &[Name],
    declaration: &Declaration,
    vars: &mut Variables,
) -> Result<(), Memory>
    requires few { length sorts.now < 2 ^ 32 - 1 }
    ensures added { OnOk result (vars.new ≡ vars.old
        ++ variables.variables_of sorts.now declaration.now) }
{
    let sort = Sort(sort_named(sorts, declaration.sort.text.as_str()) as u32);
    for name in &declaration.names {
        vars.push(alloc, name.text.copy(alloc)?, sort)?;
    }
    Ok(())
}

// Adds the variables of declarations.
fn add_variables(
    alloc: Global,
    sorts: &[Name],
    declarations: &[&Declaration],
    vars: &mut Variables,
) -> Result<(), Memory>
    requires few { length sorts.now < 2 ^ 32 - 1 }
    ensures added { OnOk result (vars.new ≡ vars.old
        ++ variables.all_variables sorts.now (map (λ d. d.now) declarations.now)) }
{
    for declaration in declarations {
        add_variables_of(alloc, sorts, declaration, vars)?;
    }
    Ok(())
}

/// Puts the variables of lists into a scope, behind those that are there. Where a sort isn't known, its number is the one behind the last.
pub fn put_variables(alloc: Global, lists: &[ForAll], scope: &mut Scope) -> Result<(), Memory>
    requires few { vec_len scope.old.signature.sorts < 2 ^ 32 - 1 }
    ensures signature { OnOk result (scope.new.signature ≡ scope.old.signature) }
    ensures context { OnOk result (context_of scope.new ≡ variables.under (context_of scope.old) lists.now) }
{
    let all = declarations(alloc, lists)?;
    add_variables(alloc, &scope.signature.sorts, &all, &mut scope.vars)
}
