// The equations of all types.

ghost use Rattle.std.specs.Prelude.{◌≡◌, ◌<◌, ◌∷◌, ◌++◌, ℕ, [], suc, true, IfOk, OnOk, None, is_some, length, map, slice_index_or};
ghost use Rattle.std.specs.List.{list_all, zip};
ghost use Rattle.type_contents.specs.Settled.{are_ready};
ghost use Rattle.type_contents.specs.Views.{parts_at};
ghost use Rattle.type_equation_copies.specs.Contents as contents;
ghost use Rattle.type_equation_copies.specs.Needs.{with_parts, needs};
ghost use Rattle.type_equation_copies.specs.Views.{made_at, stated_by, IsPrepared, AreEquationsSettled};

use crate::equations::TypeEquations;
use crate::made::{Prepared, made_from};
use lotos_ast::types::TypeDef;
use spec_core::equation::Equation;
use spec_core::memory::Memory;
use std::alloc::Global;
use type_contents::schedule::{Links, are_all_found, links_of, next_ready_from};
use type_contents::standing::{Standing, parts_at};

// Adds a type and all of which it is made.
fn add_with_parts(
    all: &mut Vec<usize>,
    standings: &[Option<Standing>],
    number: usize,
) -> Result<(), Memory>
    ensures { OnOk result (all.new.items ≡ all.old.items ++ number ∷ slice_index_or (map parts_at standings.now) number []) }
{
    all.push(number)?;
    all.extend_from_slice(parts_at(standings, number))?;
    Ok(())
}

// Types and all of which they are made.
fn with_parts(
    alloc: Global,
    standings: &[Option<Standing>],
    numbers: &[usize],
) -> Result<Vec<usize>, Memory>
    ensures { IfOk result (λ all. all.items ≡ with_parts (map parts_at standings.now) numbers.now) }
{
    let mut all = Vec::new(alloc);
    for number in numbers {
        add_with_parts(&mut all, standings, *number)?;
    }
    Ok(all)
}

// The same for several lists.
fn all_with_parts(
    alloc: Global,
    standings: &[Option<Standing>],
    linked: &[Links],
) -> Result<Vec<Links>, Memory>
    ensures { IfOk result (λ all. map (λ l. l.numbers.items) all.items ≡ map (with_parts (map parts_at standings.now))
        (map (λ l. l.numbers.items) linked.now)) }
{
    let mut all = Vec::new(alloc);
    for links in linked {
        all.push(Links {
            numbers: with_parts(alloc, standings, &links.numbers)?,
        })?;
    }
    Ok(all)
}

// On which types the equations of each type depend.
fn needs_of(alloc: Global, prepared: &Prepared<'_, '_>) -> Result<Vec<Links>, Memory>
    requires { IsPrepared prepared.now }
    ensures { IfOk result (λ all. map (λ l. l.numbers.items) all.items ≡ map (needs prepared.now.types.now) prepared.now.types.now) }
{
    let linked = links_of(alloc, prepared.types)?;
    all_with_parts(alloc, &prepared.standings, &linked)
}

// Nothing for each type.
fn nothing_found(alloc: Global, types: &[TypeDef]) -> Result<Vec<Option<TypeEquations>>, Memory>
    ensures { IfOk result (λ found. found.items ≡ map (λ _. None) types.now) }
{
    let mut found = Vec::new(alloc);
    for _definition in types {
        found.push(None)?;
    }
    Ok(found)
}

// Finds the equations of one type, from what is found.
fn make_one(
    alloc: Global,
    prepared: &Prepared<'_, '_>,
    own: &[Vec<Equation>],
    found: &mut Vec<Option<TypeEquations>>,
    number: usize,
) -> Result<(), Memory>
    requires prepared { IsPrepared prepared.now }
    requires own { length own.now ≡ length prepared.now.types.now }
    requires length { length found.old.items ≡ length prepared.now.types.now }
    requires number { number < length prepared.now.types.now }
    ensures length { OnOk result (length found.new.items ≡ length prepared.now.types.now) }
    ensures settled { OnOk result ((n : ℕ) → are_ready found.old.items (slice_index_or (map (needs prepared.now.types.now)
        prepared.now.types.now) number []) ≡ true → AreEquationsSettled prepared.now.types.now (stated_by own.now) found.old.items n
        → AreEquationsSettled prepared.now.types.now (stated_by own.now) found.new.items (suc n)) }
{
    let equations = made_from(
        alloc,
        prepared,
        found,
        &own[number],
        &prepared.types[number],
    )?;
    found[number] = Some(equations);
    Ok(())
}

// The equations of types, each found once, after those on which it depends, as far as there is such an order.
fn made_once(
    alloc: Global,
    prepared: &Prepared<'_, '_>,
    own: &[Vec<Equation>],
) -> Result<Vec<Option<TypeEquations>>, Memory>
    requires prepared { IsPrepared prepared.now }
    requires own { length own.now ≡ length prepared.now.types.now }
    ensures { IfOk result (λ found. list_all is_some found.items ≡ true → map made_at found.items
        ≡ contents.equations prepared.now.types.now (stated_by own.now)) }
{
    let needed = needs_of(alloc, prepared)?;
    let mut found = nothing_found(alloc, prepared.types)?;
    let mut from = 0;
    for _found in 0..prepared.types.len() {
        match next_ready_from(&found, &needed, from) {
            None => return Ok(found),
            Some(number) => {
                make_one(alloc, prepared, own, &mut found, number)?;
                from = number;
            }
        }
    }
    Ok(found)
}

// The equations of types, each from those of the round before.
fn next_round(
    alloc: Global,
    prepared: &Prepared<'_, '_>,
    own: &[Vec<Equation>],
    found: &[Option<TypeEquations>],
) -> Result<Vec<Option<TypeEquations>>, Memory>
    requires prepared { IsPrepared prepared.now }
    requires own { length own.now ≡ length prepared.now.types.now }
    ensures { IfOk result (λ next. map made_at next.items ≡ map (contents.made_from prepared.now.types.now (map made_at found.now))
        (zip prepared.now.types.now (stated_by own.now))) }
{
    let mut next = Vec::new(alloc);
    for (i, definition) in prepared.types.iter().enumerate() {
        next.push(Some(made_from(alloc, prepared, found, &own[i], definition)?))?;
    }
    Ok(next)
}

// The equations of types, by rounds.
fn made_by_rounds(
    alloc: Global,
    prepared: &Prepared<'_, '_>,
    own: &[Vec<Equation>],
) -> Result<Vec<Option<TypeEquations>>, Memory>
    requires prepared { IsPrepared prepared.now }
    requires own { length own.now ≡ length prepared.now.types.now }
    ensures { IfOk result (λ found. map made_at found.items ≡ contents.equations prepared.now.types.now (stated_by own.now)) }
{
    let mut found = nothing_found(alloc, prepared.types)?;
    for _round in 0..prepared.types.len() {
        found = next_round(alloc, prepared, own, &found)?;
    }
    Ok(found)
}

/// The equations of each type. Each is found once, unless one is made from itself.
pub fn equations_of(
    alloc: Global,
    prepared: &Prepared<'_, '_>,
    own: &[Vec<Equation>],
) -> Result<Vec<Option<TypeEquations>>, Memory>
    requires prepared { IsPrepared prepared.now }
    requires own { length own.now ≡ length prepared.now.types.now }
    ensures { IfOk result (λ found. map made_at found.items ≡ contents.equations prepared.now.types.now (stated_by own.now)) }
{
    let once = made_once(alloc, prepared, own)?;
    if are_all_found(&once) {
        return Ok(once);
    }
    made_by_rounds(alloc, prepared, own)
}
