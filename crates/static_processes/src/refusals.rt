// What is refused of headings.

ghost use Rattle.std.specs.Prelude.{◌≡◌, ◌++◌, ◌∷◌, [], Some, None, IfOk, OnOk, map, length};
ghost use Rattle.std.specs.Prelude.{if◌then◌else◌};
ghost use Rattle.std.specs.List.{flat_map, range_with_len, slice_get};
ghost use Rattle.sort_overloads.specs.Refused.{unknown_sort};
ghost use Rattle.sort_overloads.specs.Views.{context_of};
ghost use Rattle.type_names.specs.DuplicateNames.{names_twice};
ghost use Rattle.static_readings.specs.Declarations as declarations;
ghost use Rattle.static_processes.specs.Headings as headings;
ghost use Rattle.static_processes.specs.Processes as processes;
ghost use Rattle.static_processes.specs.Views.{defined, entry_of};
ghost use Rattle.static_processes.specs.WhereParts.{name_of, names_at, ArePartsOf};

use crate::entry::Entry;
use crate::heading::{declarations_in, gates_in, sorts_in};
use crate::where_parts::WhereParts;
use lotos_ast::declaration::{Declaration, Functionality};
use lotos_ast::refusal::Refusal;
use lotos_ast::spec::{Process, Spec};
use lotos_ast::token::Token;
use sort_overloads::scope::Scope;
use spec_core::memory::Memory;
use static_equations::variables::add_unknown_sort;
use std::alloc::Global;
use type_names::duplicates::add_names_twice;
use type_names::names::add_names;

// Refuses gates that have the name of an earlier one.
fn add_gates_twice(
    alloc: Global,
    gates: &[Token],
    refusals: &mut Vec<Refusal>,
) -> Result<(), Memory>
    ensures { OnOk result (refusals.new.items ≡ refusals.old.items ++ names_twice gates.now) }
{
    let mut names = Vec::new(alloc);
    add_names(&mut names, gates)?;
    add_names_twice(alloc, &names, refusals)
}

// Refuses sorts that aren't known.
fn add_unknown_sorts(
    alloc: Global,
    scope: &Scope,
    sorts: &[Token],
    refusals: &mut Vec<Refusal>,
) -> Result<(), Memory>
    ensures { OnOk result (refusals.new.items ≡ refusals.old.items ++ flat_map (unknown_sort (context_of scope.now)) sorts.now) }
{
    for sort in sorts {
        add_unknown_sort(alloc, scope, sort, refusals)?;
    }
    Ok(())
}

// Refuses the sorts of a functionality that aren't known.
fn add_functionality_refusals(
    alloc: Global,
    scope: &Scope,
    functionality: &Functionality,
    refusals: &mut Vec<Refusal>,
) -> Result<(), Memory>
    ensures { OnOk result (refusals.new.items
        ≡ refusals.old.items ++ headings.functionality_refusals (context_of scope.now) functionality.now) }
{
    match functionality {
        Functionality::NoExit { place: _ } => Ok(()),
        Functionality::Exit { place: _, sorts } => {
            add_unknown_sorts(alloc, scope, sorts_in(sorts), refusals)
        }
    }
}

// The names that declarations declare.
fn declared_names<'d>(alloc: Global, declared: &'d [Declaration]) -> Result<Vec<&'d Token>, Memory>
    ensures { IfOk result (λ all. map (λ t. t.now) all.items ≡ declarations.declared_names declared.now) }
{
    let mut all = Vec::new(alloc);
    for declaration in declared {
        add_names(&mut all, &declaration.names)?;
    }
    Ok(all)
}

// Refuses the sorts of declarations that aren't known.
fn add_unknown_sorts_of(
    alloc: Global,
    scope: &Scope,
    declared: &[Declaration],
    refusals: &mut Vec<Refusal>,
) -> Result<(), Memory>
    ensures { OnOk result (refusals.new.items
        ≡ refusals.old.items ++ flat_map (λ d. unknown_sort (context_of scope.now) d.sort) declared.now) }
{
    for declaration in declared {
        add_unknown_sort(alloc, scope, &declaration.sort, refusals)?;
    }
    Ok(())
}

// Refuses parameters that have the name of an earlier one, and sorts of theirs that aren't known.
fn add_parameter_refusals(
    alloc: Global,
    scope: &Scope,
    declared: &[Declaration],
    refusals: &mut Vec<Refusal>,
) -> Result<(), Memory>
    ensures { OnOk result (refusals.new.items
        ≡ refusals.old.items ++ headings.parameter_refusals (context_of scope.now) declared.now) }
{
    let names = declared_names(alloc, declared)?;
    add_names_twice(alloc, &names, refusals)?;
    add_unknown_sorts_of(alloc, scope, declared, refusals)
}

// What is refused of the heading of a process.
fn add_heading_refusals(
    alloc: Global,
    scope: &Scope,
    process: &Process,
    refusals: &mut Vec<Refusal>,
) -> Result<(), Memory>
    ensures { OnOk result (refusals.new.items
        ≡ refusals.old.items ++ headings.heading_refusals (context_of scope.now) (defined process.now)) }
{
    add_gates_twice(alloc, gates_in(&process.gates), refusals)?;
    add_parameter_refusals(alloc, scope, declarations_in(&process.parameters), refusals)?;
    add_functionality_refusals(alloc, scope, &process.functionality, refusals)
}

// Adds the name of a process.
fn add_name<'a>(entry: &Entry<'a>, names: &mut Vec<&'a Token>) -> Result<(), Memory>
    ensures { OnOk result (map (λ t. t.now) names.new.items
        ≡ map (λ t. t.now) names.old.items ++ (defined entry.now.process.now).name ∷ []) }
{
    names.push(&entry.process.name)?;
    Ok(())
}

// Adds the name of the process of a number, if there is one.
fn add_name_at<'a>(
    table: &[Entry<'a>],
    number: usize,
    names: &mut Vec<&'a Token>,
) -> Result<(), Memory>
    ensures { OnOk result (map (λ t. t.now) names.new.items ≡ map (λ t. t.now) names.old.items
        ++ name_of (slice_get (map entry_of table.now) number)) }
{
    if number < table.len() {
        add_name(&table[number], names)?;
    }
    Ok(())
}

// The names of the processes of these numbers.
fn names_at<'a>(
    alloc: Global,
    table: &[Entry<'a>],
    numbers: &[usize],
) -> Result<Vec<&'a Token>, Memory>
    ensures { IfOk result (λ names. map (λ t. t.now) names.items ≡ names_at (map entry_of table.now) numbers.now) }
{
    let mut names = Vec::new(alloc);
    for number in numbers {
        add_name_at(table, *number, &mut names)?;
    }
    Ok(names)
}

// Refuses the processes of one `where` part that have the name of an earlier one.
fn add_twice_in(
    alloc: Global,
    table: &[Entry<'_>],
    parts: &WhereParts,
    within: Option<usize>,
    refusals: &mut Vec<Refusal>,
) -> Result<(), Memory>
    requires { ArePartsOf parts.now (map entry_of table.now) }
    ensures { OnOk result (refusals.new.items ≡ refusals.old.items ++ names_twice (processes.names_in (map entry_of table.now) within)) }
{
    let names = names_at(alloc, table, parts.standing(within))?;
    add_names_twice(alloc, &names, refusals)?;
    Ok(())
}

// Refuses the processes that have the name of an earlier one of the same `where` part.
fn add_twice(alloc: Global, table: &[Entry<'_>], refusals: &mut Vec<Refusal>) -> Result<(), Memory>
    ensures { OnOk result (refusals.new.items ≡ refusals.old.items ++ headings.twice_refusals (map entry_of table.now)) }
{
    let parts = WhereParts::of(alloc, table)?;
    add_twice_in(alloc, table, &parts, None, refusals)?;
    for number in 0..table.len() {
        add_twice_in(alloc, table, &parts, Some(number), refusals)?;
    }
    Ok(())
}

/// Refuses what can't stand in the headings of processes: a process declared twice in one `where` part, a gate or a parameter declared
/// twice (9 DuplicateName), a sort that isn't known (8 UnknownSort).
pub fn add_table_refusals(
    alloc: Global,
    scope: &Scope,
    table: &[Entry<'_>],
    refusals: &mut Vec<Refusal>,
) -> Result<(), Memory>
    ensures { OnOk result (refusals.new.items
        ≡ refusals.old.items ++ headings.table_refusals (context_of scope.now) (map entry_of table.now)) }
{
    add_twice(alloc, table, refusals)?;
    for entry in table {
        add_heading_refusals(alloc, scope, entry.process, refusals)?;
    }
    Ok(())
}

/// Refuses what can't stand in the heading of the specification: a gate declared twice (9 DuplicateName), a sort that isn't known
/// (8 UnknownSort).
pub fn add_opening_refusals(
    alloc: Global,
    scope: &Scope,
    spec: &Spec,
    refusals: &mut Vec<Refusal>,
) -> Result<(), Memory>
    ensures { OnOk result (refusals.new.items ≡ refusals.old.items ++ headings.opening_refusals (context_of scope.now) spec.now) }
{
    add_gates_twice(alloc, gates_in(&spec.gates), refusals)?;
    add_functionality_refusals(alloc, scope, &spec.functionality, refusals)
}
