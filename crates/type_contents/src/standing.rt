// Of which types each is made, and which types are formal.

ghost use Rattle.std.specs.Prelude.{◌≡◌, List, ◌<◌, ◌∷◌, ◌++◌, ℕ, [], suc, true, false, not, ◌==◌, IfOk, OnOk, None, is_some};
ghost use Rattle.std.specs.Prelude.{length, map, slice_index_or, nat_eq};
ghost use Rattle.std.specs.List.{list_all, list_any, flat_map};
ghost use Rattle.type_contents.specs.Lists.{listed, each_once};
ghost use Rattle.type_contents.specs.Own.{sort_names};
ghost use Rattle.lotos_ast.specs.declared.types.TypeDef.{TypeDef};
ghost use Rattle.type_contents.specs.Uses.{links, number_of, uses_by};
ghost use Rattle.type_contents.specs.FormalTypes as formal;
ghost use Rattle.type_contents.specs.Numbering as numbering;
ghost use Rattle.type_contents.specs.Settled.{are_ready};
ghost use Rattle.type_contents.specs.Views.{formal_at, parts_at, AreStandingsSettled};

use crate::item_table::each_once;
use crate::own::{formal_operations, sort_names};
use crate::schedule::{Links, are_all_found, links_of, next_ready_from};
use lotos_ast::types::{EquationBody, Formals, OperationDecl, SortEquations, TypeBody, TypeDef};
use spec_core::memory::Memory;
use std::alloc::Global;

/// How a type stands among others.
#[derive(Drop)]
pub struct Standing {
    /// Whether it is formal.
    pub formal: bool,
    /// The numbers of the types of which it is made, of those of which these are made, and so on, each once.
    pub parts: Vec<usize>,
}

// Whether there is a part with an equation.
fn has_filled(parts: &[SortEquations]) -> bool
    ensures { result ≡ list_any formal.is_filled parts.now }
{
    match parts {
        [] => false,
        [first, others @ ..] => !first.equations.is_empty() || has_filled(others),
    }
}

// Whether there is an equation.
fn has_equations(equations: &Option<EquationBody>) -> bool
    ensures { result ≡ formal.has_equations equations.now }
{
    match equations {
        None => false,
        Some(body) => has_filled(&body.parts),
    }
}

// Whether there is an operation.
fn has_operations(declarations: &[OperationDecl]) -> bool
    ensures { result ≡ list_any formal.is_declaring declarations.now }
{
    match declarations {
        [] => false,
        [first, others @ ..] => !first.names.is_empty() || has_operations(others),
    }
}

/// Whether there is a formal sort, a formal operation or a formal equation. It takes no memory.
pub fn declares_formals(formals: &Formals) -> bool
    ensures { result ≡ formal.declares_formals formals.now }
{
    !sort_names(&formals.sorts).is_empty()
        || has_operations(formal_operations(&formals.operations))
        || has_equations(&formals.equations)
}

// Whether the type of a number is found to be formal.
fn formal_at(found: &[Option<Standing>], number: usize) -> bool
    ensures { result ≡ slice_index_or (map formal_at found.now) number false }
{
    if number < found.len() {
        match &found[number] {
            None => false,
            Some(standing) => standing.formal,
        }
    } else {
        false
    }
}

/// Of what the type of a number is made, as far as it is found. It takes no memory.
pub fn parts_at(found: &[Option<Standing>], number: usize) -> &[usize]
    ensures { result.now ≡ slice_index_or (map parts_at found.now) number [] }
{
    if number < found.len() {
        match &found[number] {
            None => &[],
            Some(standing) => &standing.parts,
        }
    } else {
        &[]
    }
}

// Whether one of the types of these numbers is found to be formal.
fn is_one_formal(found: &[Option<Standing>], numbers: &[usize]) -> bool
    ensures { result ≡ list_any (λ k. slice_index_or (map formal_at found.now) k false) numbers.now }
{
    match numbers {
        [] => false,
        [first, others @ ..] => formal_at(found, *first) || is_one_formal(found, others),
    }
}

// Whether a type is formal that is made in this way of the types of these numbers.
fn is_formal_by(found: &[Option<Standing>], body: &TypeBody, linked: &[usize]) -> bool
    ensures { (types : List TypeDef) → linked.now ≡ map (number_of types) (uses_by body.now) → result
        ≡ formal.is_formal_by types (map formal_at found.now) body.now }
{
    match body {
        TypeBody::Declared {
            place: _,
            imports: _,
            formals,
            sorts: _,
            operations: _,
            equations: _,
        } => declares_formals(formals) || is_one_formal(found, linked),
        TypeBody::Renamed {
            place: _,
            source: _,
            pairs: _,
        } => is_one_formal(found, linked),
        TypeBody::Actualized {
            place: _,
            source: _,
            actuals: _,
            pairs: _,
        } => false,
    }
}

// Whether a type is formal that is made of the types of these numbers.
fn is_formal_from(found: &[Option<Standing>], definition: &TypeDef, linked: &[usize]) -> bool
    ensures { (types : List TypeDef) → linked.now ≡ links types definition.now → result
        ≡ formal.is_formal_from types (map formal_at found.now) definition.now }
{
    match definition {
        TypeDef::Library { place: _, names: _ } => false,
        TypeDef::Definition {
            place: _,
            name: _,
            body,
        } => is_formal_by(found, body, linked),
    }
}

// Adds a type and its parts.
fn add_parts(all: &mut Vec<usize>, found: &[Option<Standing>], number: usize) -> Result<(), Memory>
    ensures { OnOk result (all.new.items ≡ all.old.items ++ number ∷ slice_index_or (map parts_at found.now) number []) }
{
    all.push(number)?;
    all.extend_from_slice(parts_at(found, number))?;
    Ok(())
}

// Of what a type with these links is made.
fn parts_from(
    alloc: Global,
    found: &[Option<Standing>],
    links: &[usize],
) -> Result<Vec<usize>, Memory>
    ensures { IfOk result (λ all. all.items ≡ each_once nat_eq (flat_map (λ k. k ∷ slice_index_or (map parts_at found.now) k [])
        links.now)) }
{
    let mut all = Vec::new(alloc);
    for number in links {
        add_parts(&mut all, found, *number)?;
    }
    each_once(alloc, &all)
}

// How a type stands.
fn standing_from(
    alloc: Global,
    types: &[TypeDef],
    found: &[Option<Standing>],
    definition: &TypeDef,
    linked: &[usize],
) -> Result<Standing, Memory>
    requires { linked.now ≡ links types.now definition.now }
    ensures formal { IfOk result (λ s. s.formal ≡ formal.is_formal_from types.now (map formal_at found.now) definition.now) }
    ensures parts { IfOk result (λ s. s.parts.items ≡ numbering.parts_from types.now (map parts_at found.now) definition.now) }
{
    let _ = types;
    Ok(Standing {
        formal: is_formal_from(found, definition, linked),
        parts: parts_from(alloc, found, linked)?,
    })
}

// Nothing for each type.
fn nothing_found(alloc: Global, types: &[TypeDef]) -> Result<Vec<Option<Standing>>, Memory>
    ensures { IfOk result (λ found. found.items ≡ map (λ _. None) types.now) }
{
    let mut found = Vec::new(alloc);
    for _definition in types {
        found.push(None)?;
    }
    Ok(found)
}

// Finds how one type stands, from those that are found.
fn stand_one(
    alloc: Global,
    types: &[TypeDef],
    linked: &[Links],
    found: &mut Vec<Option<Standing>>,
    number: usize,
) -> Result<(), Memory>
    requires linked { map (λ l. l.numbers.items) linked.now ≡ map (links types.now) types.now }
    requires length { length found.old.items ≡ length types.now }
    requires number { number < length types.now }
    ensures length { OnOk result (length found.new.items ≡ length types.now) }
    ensures settled { OnOk result ((n : ℕ) → are_ready found.old.items (slice_index_or (map (links types.now) types.now) number [])
        ≡ true → AreStandingsSettled types.now found.old.items n → AreStandingsSettled types.now found.new.items (suc n)) }
{
    let standing = standing_from(alloc, types, found, &types[number], &linked[number].numbers)?;
    found[number] = Some(standing);
    Ok(())
}

// How types stand, each found once, after those of which it is made, as far as there is such an order.
fn standings_once(
    alloc: Global,
    types: &[TypeDef],
    linked: &[Links],
) -> Result<Vec<Option<Standing>>, Memory>
    requires { map (λ l. l.numbers.items) linked.now ≡ map (links types.now) types.now }
    ensures formal { IfOk result (λ found. list_all is_some found.items ≡ true → map formal_at found.items
        ≡ formal.formal_types types.now) }
    ensures parts { IfOk result (λ found. list_all is_some found.items ≡ true → map parts_at found.items ≡ numbering.parts types.now) }
{
    let mut found = nothing_found(alloc, types)?;
    let mut from = 0;
    for _found in 0..types.len() {
        match next_ready_from(&found, linked, from) {
            None => return Ok(found),
            Some(number) => {
                stand_one(alloc, types, linked, &mut found, number)?;
                from = number;
            }
        }
    }
    Ok(found)
}

// How types stand, each from those of the round before.
fn next_standings(
    alloc: Global,
    types: &[TypeDef],
    linked: &[Links],
    found: &[Option<Standing>],
) -> Result<Vec<Option<Standing>>, Memory>
    requires { map (λ l. l.numbers.items) linked.now ≡ map (links types.now) types.now }
    ensures formal { IfOk result (λ next. map formal_at next.items ≡ map (formal.is_formal_from types.now (map formal_at found.now))
        types.now) }
    ensures parts { IfOk result (λ next. map parts_at next.items ≡ map (numbering.parts_from types.now (map parts_at found.now))
        types.now) }
{
    let mut next = Vec::new(alloc);
    for (i, definition) in types.iter().enumerate() {
        next.push(Some(standing_from(alloc, types, found, definition, &linked[i].numbers)?))?;
    }
    Ok(next)
}

// How types stand, by rounds.
fn standings_by_rounds(
    alloc: Global,
    types: &[TypeDef],
    linked: &[Links],
) -> Result<Vec<Option<Standing>>, Memory>
    requires { map (λ l. l.numbers.items) linked.now ≡ map (links types.now) types.now }
    ensures formal { IfOk result (λ found. map formal_at found.items ≡ formal.formal_types types.now) }
    ensures parts { IfOk result (λ found. map parts_at found.items ≡ numbering.parts types.now) }
{
    let mut found = nothing_found(alloc, types)?;
    for _round in 0..types.len() {
        found = next_standings(alloc, types, linked, &found)?;
    }
    Ok(found)
}

/// How each type stands. Each is found once, unless one is made from itself.
pub fn standings_of(alloc: Global, types: &[TypeDef]) -> Result<Vec<Option<Standing>>, Memory>
    ensures formal { IfOk result (λ found. map formal_at found.items ≡ formal.formal_types types.now) }
    ensures parts { IfOk result (λ found. map parts_at found.items ≡ numbering.parts types.now) }
{
    let linked = links_of(alloc, types)?;
    let once = standings_once(alloc, types, &linked)?;
    if are_all_found(&once) {
        return Ok(once);
    }
    standings_by_rounds(alloc, types, &linked)
}
