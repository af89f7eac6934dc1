// What all types bring in.

ghost use Rattle.std.specs.Prelude.{◌≡◌, ◌<◌, ℕ, [], suc, true, IfOk, OnOk, None, is_some, length, map, slice_index_or};
ghost use Rattle.std.specs.List.{list_all};
ghost use Rattle.type_contents.specs.Numbering as numbering;
ghost use Rattle.type_contents.specs.Contents as contents;
ghost use Rattle.type_contents.specs.Settled.{are_ready};
ghost use Rattle.type_contents.specs.Views.{described_of, parts_at, brought_at, IsBroughtSettled};

use crate::brings::brings_of;
use crate::contents::Contents;
use crate::order::{Brought, itself_and_parts};
use crate::schedule::{Links, are_all_found, next_ready_from};
use crate::standing::Standing;
use lotos_ast::types::{TypeBody, TypeDef};
use spec_core::memory::Memory;
use std::alloc::Global;

// On which types it depends what a type that is made in this way brings in.
fn needs_by(
    alloc: Global,
    types: &[TypeDef],
    standings: &[Option<Standing>],
    body: &TypeBody,
) -> Result<Vec<usize>, Memory>
    requires { map parts_at standings.now ≡ numbering.parts types.now }
    ensures { IfOk result (λ all. all.items ≡ numbering.needs_by types.now body.now) }
{
    match body {
        TypeBody::Declared {
            place: _,
            imports: _,
            formals: _,
            sorts: _,
            operations: _,
            equations: _,
        } => Ok(Vec::new(alloc)),
        TypeBody::Renamed {
            place: _,
            source,
            pairs: _,
        } => itself_and_parts(alloc, types, standings, source),
        TypeBody::Actualized {
            place: _,
            source,
            actuals: _,
            pairs: _,
        } => itself_and_parts(alloc, types, standings, source),
    }
}

// On which types it depends what a type brings in.
fn needs(
    alloc: Global,
    types: &[TypeDef],
    standings: &[Option<Standing>],
    definition: &TypeDef,
) -> Result<Vec<usize>, Memory>
    requires { map parts_at standings.now ≡ numbering.parts types.now }
    ensures { IfOk result (λ all. all.items ≡ numbering.needs types.now definition.now) }
{
    match definition {
        TypeDef::Library { place: _, names: _ } => Ok(Vec::new(alloc)),
        TypeDef::Definition {
            place: _,
            name: _,
            body,
        } => needs_by(alloc, types, standings, body),
    }
}

// On which types it depends what each type brings in.
fn needs_of(
    alloc: Global,
    types: &[TypeDef],
    standings: &[Option<Standing>],
) -> Result<Vec<Links>, Memory>
    requires { map parts_at standings.now ≡ numbering.parts types.now }
    ensures { IfOk result (λ all. map (λ l. l.numbers.items) all.items ≡ map (numbering.needs types.now) types.now) }
{
    let mut all = Vec::new(alloc);
    for definition in types {
        all.push(Links {
            numbers: needs(alloc, types, standings, definition)?,
        })?;
    }
    Ok(all)
}

// Nothing for each type.
fn nothing_found<'a>(alloc: Global, types: &[TypeDef]) -> Result<Vec<Option<Brought<'a>>>, Memory>
    ensures { IfOk result (λ found. found.items ≡ map (λ _. None) types.now) }
{
    let mut found = Vec::new(alloc);
    for _definition in types {
        found.push(None)?;
    }
    Ok(found)
}

// Finds what one type brings in, from what is found.
fn bring_one<'a>(
    alloc: Global,
    types: &'a [TypeDef],
    made: &Contents,
    standings: &[Option<Standing>],
    found: &mut Vec<Option<Brought<'a>>>,
    number: usize,
) -> Result<(), Memory>
    requires made { made.now ≡ contents.contents types.now }
    requires parts { map parts_at standings.now ≡ numbering.parts types.now }
    requires length { length found.old.items ≡ length types.now }
    requires number { number < length types.now }
    ensures length { OnOk result (length found.new.items ≡ length types.now) }
    ensures settled { OnOk result ((n : ℕ) → are_ready found.old.items (slice_index_or (map (numbering.needs types.now) types.now)
        number []) ≡ true → IsBroughtSettled types.now found.old.items n → IsBroughtSettled types.now found.new.items (suc n)) }
{
    let all = brings_of(alloc, types, made, standings, found, &types[number])?;
    found[number] = Some(Brought { all });
    Ok(())
}

// What types bring in, each found once, after those on which it depends, as far as there is such an order.
fn brought_once<'a>(
    alloc: Global,
    types: &'a [TypeDef],
    made: &Contents,
    standings: &[Option<Standing>],
) -> Result<Vec<Option<Brought<'a>>>, Memory>
    requires made { made.now ≡ contents.contents types.now }
    requires parts { map parts_at standings.now ≡ numbering.parts types.now }
    ensures { IfOk result (λ found. list_all is_some found.items ≡ true → map brought_at found.items ≡ numbering.brought types.now) }
{
    let needed = needs_of(alloc, types, standings)?;
    let mut found = nothing_found(alloc, types)?;
    let mut from = 0;
    for _found in 0..types.len() {
        match next_ready_from(&found, &needed, from) {
            None => return Ok(found),
            Some(number) => {
                bring_one(alloc, types, made, standings, &mut found, number)?;
                from = number;
            }
        }
    }
    Ok(found)
}

// What types bring in, each from those of the round before.
fn next_brought<'a>(
    alloc: Global,
    types: &'a [TypeDef],
    made: &Contents,
    standings: &[Option<Standing>],
    found: &[Option<Brought<'a>>],
) -> Result<Vec<Option<Brought<'a>>>, Memory>
    requires made { made.now ≡ contents.contents types.now }
    requires parts { map parts_at standings.now ≡ numbering.parts types.now }
    ensures { IfOk result (λ next. map brought_at next.items ≡ map (numbering.brings types.now (map brought_at found.now)) types.now) }
{
    let mut next = Vec::new(alloc);
    for definition in types {
        let all = brings_of(alloc, types, made, standings, found, definition)?;
        next.push(Some(Brought { all }))?;
    }
    Ok(next)
}

// What types bring in, by rounds.
fn brought_by_rounds<'a>(
    alloc: Global,
    types: &'a [TypeDef],
    made: &Contents,
    standings: &[Option<Standing>],
) -> Result<Vec<Option<Brought<'a>>>, Memory>
    requires made { made.now ≡ contents.contents types.now }
    requires parts { map parts_at standings.now ≡ numbering.parts types.now }
    ensures { IfOk result (λ found. map brought_at found.items ≡ numbering.brought types.now) }
{
    let mut found = nothing_found(alloc, types)?;
    for _round in 0..types.len() {
        found = next_brought(alloc, types, made, standings, &found)?;
    }
    Ok(found)
}

/// What each type brings in. Each is found once, unless one is made from itself.
pub fn all_brought<'a>(
    alloc: Global,
    types: &'a [TypeDef],
    made: &Contents,
    standings: &[Option<Standing>],
) -> Result<Vec<Option<Brought<'a>>>, Memory>
    requires made { made.now ≡ contents.contents types.now }
    requires parts { map parts_at standings.now ≡ numbering.parts types.now }
    ensures { IfOk result (λ found. map brought_at found.items ≡ numbering.brought types.now) }
{
    let once = brought_once(alloc, types, made, standings)?;
    if are_all_found(&once) {
        return Ok(once);
    }
    brought_by_rounds(alloc, types, made, standings)
}
