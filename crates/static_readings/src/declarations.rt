// Variables that declarations put into scope, and gates that a construct names.

ghost use Rattle.std.specs.Prelude.{◌≡◌, ◌++◌, ◌+◌, IfOk, OnOk, map, length, option_map};
ghost use Rattle.std.specs.List.{flat_map};
ghost use Rattle.spec_core.specs.Code.{variable_of};
ghost use Rattle.spec_core.specs.Numbers.{gate_number};
ghost use Rattle.static_equations.specs.Variables.{all_variables};
ghost use Rattle.sort_overloads.specs.Refused.{unknown_sort};
ghost use Rattle.type_names.specs.DuplicateNames.{names_twice};
ghost use Rattle.static_readings.specs.Declarations as declarations;
ghost use Rattle.static_readings.specs.Sites.{with_variables};

use crate::site::Site;
use lotos_ast::declaration::Declaration;
use lotos_ast::names::Names;
use lotos_ast::refusal::{Refusal, RefusalKind};
use lotos_ast::token::Token;
use spec_core::items::{Gate, Sort};
use spec_core::memory::Memory;
use std::alloc::Global;
use type_names::duplicates::add_names_twice;
use type_names::names::add_names;

// The names that declarations declare.
fn declared_names<'d>(alloc: Global, declared: &'d [Declaration]) -> Result<Vec<&'d Token>, Memory>
    ensures { IfOk result (λ all. map (λ t. t.now) all.items ≡ declarations.declared_names declared.now) }
{
    let mut all = Vec::new(alloc);
    for declaration in declared {
        add_names(&mut all, &declaration.names)?;
    }
    Ok(all)
}

// Refuses the sorts of declarations that aren't known.
fn add_unknown_sorts(
    alloc: Global,
    site: &Site<'_>,
    declared: &[Declaration],
    refusals: &mut Vec<Refusal>,
) -> Result<(), Memory>
    ensures { OnOk result (refusals.new.items
        ≡ refusals.old.items ++ flat_map (λ d. unknown_sort site.now.context d.sort) declared.now) }
{
    for declaration in declared {
        site.add_unknown_sort(alloc, &declaration.sort, refusals)?;
    }
    Ok(())
}

/// Refuses a name that is declared twice (9 DuplicateName) and a sort that isn't known (8 UnknownSort).
pub fn add_declaration_refusals(
    alloc: Global,
    site: &Site<'_>,
    declared: &[Declaration],
    refusals: &mut Vec<Refusal>,
) -> Result<(), Memory>
    ensures { OnOk result (refusals.new.items ≡ refusals.old.items ++ declarations.declaration_refusals site.now declared.now) }
{
    let names = declared_names(alloc, declared)?;
    add_names_twice(alloc, &names, refusals)?;
    add_unknown_sorts(alloc, site, declared, refusals)
}

/// Puts the variables of declarations into scope.
#[tactic(auto, using(crate::proofs::Scopes::declared_next, crate::proofs::Scopes::declared_all))]
pub fn put_declarations(
    alloc: Global,
    site: &mut Site<'_>,
    declared: &[Declaration],
) -> Result<(), Memory>
    ensures { OnOk result (site.new ≡ with_variables site.old (all_variables site.old.context.sorts declared.now)) }
{
    for declaration in declared {
        site.put_variables(alloc, &declaration.names, &declaration.sort)?;
    }
    Ok(())
}

// Whether the sorts of declarations are all known.
#[tactic(auto, using(crate::proofs::Known::unknown_at, crate::proofs::Known::known_next, crate::proofs::Known::known_all))]
fn are_known(site: &Site<'_>, declared: &[Declaration]) -> bool
    ensures { result ≡ declarations.are_known site.now declared.now }
{
    for declaration in declared {
        if !site.knows_sort(&declaration.sort) {
            return false;
        }
    }
    true
}

/// Puts the variables of declarations into scope. They are answered as code has them, where all their sorts are known.
#[tactic(auto, using(crate::proofs::Known::declared_known, crate::proofs::Known::declared_unknown))]
pub fn put_declared(
    alloc: Global,
    site: &mut Site<'_>,
    declared: &[Declaration],
) -> Result<Option<Vec<(u32, Sort)>>, Memory>
    ensures variables { IfOk result (λ found. option_map (λ vars. map variable_of vars.items) found
        ≡ declarations.declared_variables site.old declared.now) }
    ensures site { OnOk result (site.new ≡ with_variables site.old (all_variables site.old.context.sorts declared.now)) }
{
    let first = site.variables();
    put_declarations(alloc, site, declared)?;
    if are_known(site, declared) {
        Ok(Some(site.variables_from(alloc, first)?))
    } else {
        Ok(None)
    }
}

/// Refuses gates that aren't in scope (22 UnknownGate).
pub fn add_unknown_gates(
    alloc: Global,
    site: &Site<'_>,
    names: &[Token],
    refusals: &mut Vec<Refusal>,
) -> Result<(), Memory>
    ensures { OnOk result (refusals.new.items ≡ refusals.old.items ++ declarations.unknown_gates site.now names.now) }
{
    for name in names {
        add_unknown_gate(alloc, site, name, refusals)?;
    }
    Ok(())
}

/// Refuses a gate that isn't in scope (22 UnknownGate).
pub fn add_unknown_gate(
    alloc: Global,
    site: &Site<'_>,
    name: &Token,
    refusals: &mut Vec<Refusal>,
) -> Result<(), Memory>
    ensures { OnOk result (refusals.new.items ≡ refusals.old.items ++ declarations.unknown_gate site.now name.now) }
{
    if site.gate(name).is_none() {
        refusals.push(Refusal {
            kind: RefusalKind::UnknownGate,
            place: name.place,
            names: Names::none(alloc),
        })?;
    }
    Ok(())
}

/// The numbers of gates, where all are in scope.
#[tactic(auto, using(crate::proofs::Reading::further, crate::proofs::Reading::further_none, crate::proofs::Reading::at_end))]
pub fn gates_named(
    alloc: Global,
    site: &Site<'_>,
    names: &[Token],
) -> Result<Option<Vec<Gate>>, Memory>
    ensures { IfOk result (λ found. option_map (λ gates. map gate_number gates.items) found
        ≡ declarations.gate_numbers site.now names.now) }
{
    let mut all = Vec::new(alloc);
    for name in names {
        match site.gate(name) {
            None => return Ok(None),
            Some(number) => all.push(Gate(number))?,
        }
    }
    Ok(Some(all))
}
