// What the headings of processes say.

ghost use Rattle.std.specs.Prelude.{◌≡◌, ◌++◌, ◌∷◌, [], ◌<◌, ◌^◌, IfOk, OnOk, map, length, option_map};
ghost use Rattle.static_constructs.specs.Written.{gates_in, declarations_in, listed};
ghost use Rattle.spec_core.specs.Numbers.{sort_number};
ghost use Rattle.sort_overloads.specs.Views.{context_of};
ghost use Rattle.static_readings.specs.Views.{functionality_of, heading_of};
ghost use Rattle.static_processes.specs.Headings as headings;
ghost use Rattle.static_processes.specs.Views.{defined, entry_of};

use crate::entry::Entry;
use lotos_ast::declaration::{Declaration, Declarations, Functionality as Written, GateList};
use lotos_ast::spec::Process;
use lotos_ast::token::Token;
use sort_overloads::scope::Scope;
use spec_core::items::Sort;
use spec_core::memory::Memory;
use static_equations::names::{has_sort, sort_named};
use static_readings::functionality::Functionality;
use static_readings::heading::Heading;
use std::alloc::Global;

/// The gates of a list that may be left out. It takes no memory.
pub fn gates_in(list: &Option<GateList>) -> &[Token]
    ensures { result.now ≡ gates_in list.now }
{
    match list {
        None => &[],
        Some(list) => &list.gates,
    }
}

/// The declarations of a list that may be left out. It takes no memory.
pub fn declarations_in(declarations: &Option<Declarations>) -> &[Declaration]
    ensures { result.now ≡ declarations_in declarations.now }
{
    match declarations {
        None => &[],
        Some(declarations) => &declarations.list,
    }
}

/// The sorts of a list that may be left out. It takes no memory.
pub fn sorts_in(sorts: &Option<Vec<Token>>) -> &[Token]
    ensures { result.now ≡ listed sorts.now }
{
    match sorts {
        None => &[],
        Some(sorts) => sorts,
    }
}

// The sort of this name, if it is known.
fn known_sort(scope: &Scope, name: &Token) -> Option<Sort>
    requires few { length scope.now.signature.sorts.items < 2 ^ 32 }
    ensures { option_map sort_number result ≡ headings.known_sort (context_of scope.now) name.now }
{
    if has_sort(&scope.signature.sorts, name.text.as_str()) {
        Some(Sort(sort_named(&scope.signature.sorts, name.text.as_str()) as u32))
    } else {
        None
    }
}

// Those of these names, where all are known.
#[tactic(auto, using(crate::proofs::Sorts::further, crate::proofs::Sorts::further_none, crate::proofs::Sorts::at_end))]
fn known_sorts(alloc: Global, scope: &Scope, names: &[Token]) -> Result<Option<Vec<Sort>>, Memory>
    requires few { length scope.now.signature.sorts.items < 2 ^ 32 }
    ensures { IfOk result (λ found. option_map (λ sorts. map sort_number sorts.items) found
        ≡ headings.known_sorts (context_of scope.now) names.now) }
{
    let mut all = Vec::new(alloc);
    for name in names {
        match known_sort(scope, name) {
            None => return Ok(None),
            Some(sort) => all.push(sort)?,
        }
    }
    Ok(Some(all))
}

/// A functionality as it is declared, where its sorts are known.
pub fn declared(
    alloc: Global,
    scope: &Scope,
    written: &Written,
) -> Result<Option<Functionality>, Memory>
    requires few { length scope.now.signature.sorts.items < 2 ^ 32 }
    ensures { IfOk result (λ found. option_map functionality_of found ≡ headings.declared (context_of scope.now) written.now) }
{
    match written {
        Written::NoExit { place: _ } => Ok(Some(Functionality::NoExit)),
        Written::Exit { place: _, sorts } => {
            match known_sorts(alloc, scope, sorts_in(sorts))? {
                None => Ok(None),
                Some(sorts) => Ok(Some(Functionality::Exits(sorts))),
            }
        }
    }
}

// Adds the sort of the parameters of a declaration, once for each name.
fn add_sorts_of(
    scope: &Scope,
    declaration: &Declaration,
    all: &mut Vec<Option<Sort>>,
) -> Result<(), Memory>
    requires few { length scope.now.signature.sorts.items < 2 ^ 32 }
    ensures { OnOk result (map (λ sort. option_map sort_number sort) all.new.items
        ≡ map (λ sort. option_map sort_number sort) all.old.items
        ++ map (λ t. headings.known_sort (context_of scope.now) declaration.now.sort) declaration.now.names.items) }
{
    for _name in &declaration.names {
        all.push(known_sort(scope, &declaration.sort))?;
    }
    Ok(())
}

// The sorts of parameters.
fn parameter_sorts(
    alloc: Global,
    scope: &Scope,
    declarations: &[Declaration],
) -> Result<Vec<Option<Sort>>, Memory>
    requires few { length scope.now.signature.sorts.items < 2 ^ 32 }
    ensures { IfOk result (λ all. map (λ sort. option_map sort_number sort) all.items
        ≡ headings.parameter_sorts (context_of scope.now) declarations.now) }
{
    let mut all = Vec::new(alloc);
    for declaration in declarations {
        add_sorts_of(scope, declaration, &mut all)?;
    }
    Ok(all)
}

/// What a call of a process must fit. Want of memory is answered where its number is 2^32 or more.
pub fn heading(
    alloc: Global,
    scope: &Scope,
    number: usize,
    process: &Process,
) -> Result<Heading, Memory>
    requires few { length scope.now.signature.sorts.items < 2 ^ 32 }
    ensures { IfOk result (λ h. heading_of h ≡ headings.heading (context_of scope.now) number (defined process.now)) }
{
    if number >= 4_294_967_296 {
        return Err(Memory);
    }
    Ok(Heading {
        name: process.name.text.copy(alloc)?,
        number: number as u32,
        gates: gates_in(&process.gates).len(),
        sorts: parameter_sorts(alloc, scope, declarations_in(&process.parameters))?,
        functionality: declared(alloc, scope, &process.functionality)?,
    })
}

/// The headings of all processes, by their numbers.
#[tactic(auto, using(crate::proofs::Sorts::heading_next, crate::proofs::Sorts::headings_all))]
pub fn headings(alloc: Global, scope: &Scope, table: &[Entry<'_>]) -> Result<Vec<Heading>, Memory>
    requires few { length scope.now.signature.sorts.items < 2 ^ 32 }
    ensures { IfOk result (λ all. map heading_of all.items ≡ headings.headings_from (context_of scope.now) 0 (map entry_of table.now)) }
{
    let mut all = Vec::new(alloc);
    for (number, entry) in table.iter().enumerate() {
        all.push(heading(alloc, scope, number, entry.process)?)?;
    }
    Ok(all)
}
