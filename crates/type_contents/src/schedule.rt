// In which order types are made.

ghost use Rattle.std.specs.Prelude.{◌≡◌, ◌<◌, ◌≤◌, ◌++◌, ◌∷◌, [], List, true, IsTrue, OnOk, IfOk, IfSome, is_some, length, map, slice_index_or, None};
ghost use Rattle.std.specs.List.{list_all};
ghost use Rattle.lotos_ast.specs.declared.types.TypeDef.{TypeDef};
ghost use Rattle.type_contents.specs.Uses.{number_of, uses, uses_by, links};
ghost use Rattle.type_contents.specs.Lists.{listed};
ghost use Rattle.type_contents.specs.TypeIndexes.{IsTypeIndexOf};
ghost use Rattle.type_contents.specs.Settled.{is_ready, are_ready};

use crate::type_index::TypeIndex;
use lotos_ast::token::Token;
use lotos_ast::types::{TypeBody, TypeDef};
use spec_core::memory::Memory;
use std::alloc::Global;

/// Numbers of types.
#[derive(Drop)]
pub struct Links {
    /// They.
    pub numbers: Vec<usize>,
}

// Adds the number of the type of a name.
fn add_link(
    alloc: Global,
    index: &TypeIndex,
    all: &mut Vec<usize>,
    name: &Token,
) -> Result<(), Memory>
    ensures { OnOk result ((types : List TypeDef) → IsTypeIndexOf index.now types → all.new.items
        ≡ all.old.items ++ number_of types name.now ∷ []) }
{
    let number = index.number(alloc, name)?;
    all.push(number)?;
    Ok(())
}

// Adds the numbers of the types of these names.
fn add_links(
    alloc: Global,
    index: &TypeIndex,
    all: &mut Vec<usize>,
    names: &[Token],
) -> Result<(), Memory>
    ensures { OnOk result ((types : List TypeDef) → IsTypeIndexOf index.now types → all.new.items
        ≡ all.old.items ++ map (number_of types) names.now) }
{
    for name in names {
        add_link(alloc, index, all, name)?;
    }
    Ok(())
}

// Adds the numbers of the types of which one is made, by how it is made.
fn add_links_by(
    alloc: Global,
    index: &TypeIndex,
    all: &mut Vec<usize>,
    body: &TypeBody,
) -> Result<(), Memory>
    ensures { OnOk result ((types : List TypeDef) → IsTypeIndexOf index.now types → all.new.items
        ≡ all.old.items ++ map (number_of types) (uses_by body.now)) }
{
    match body {
        TypeBody::Declared {
            place: _,
            imports,
            formals: _,
            sorts: _,
            operations: _,
            equations: _,
        } => match imports {
            None => Ok(()),
            Some(names) => add_links(alloc, index, all, names),
        },
        TypeBody::Renamed {
            place: _,
            source,
            pairs: _,
        } => add_link(alloc, index, all, source),
        TypeBody::Actualized {
            place: _,
            source,
            actuals,
            pairs: _,
        } => {
            add_link(alloc, index, all, source)?;
            add_links(alloc, index, all, actuals)?;
            Ok(())
        }
    }
}

// The numbers of the types of which one is made.
fn links_from(alloc: Global, index: &TypeIndex, definition: &TypeDef) -> Result<Links, Memory>
    ensures { IfOk result (λ all. (types : List TypeDef) → IsTypeIndexOf index.now types → all.numbers.items
        ≡ links types definition.now) }
{
    let mut all = Vec::new(alloc);
    match definition {
        TypeDef::Library { place: _, names: _ } => {}
        TypeDef::Definition {
            place: _,
            name: _,
            body,
        } => add_links_by(alloc, index, &mut all, body)?,
    }
    Ok(Links { numbers: all })
}

/// Of each type the numbers of those of which it is made, in the order of mention.
pub fn links_of(alloc: Global, types: &[TypeDef]) -> Result<Vec<Links>, Memory>
    ensures { IfOk result (λ all. map (λ l. l.numbers.items) all.items ≡ map (links types.now) types.now) }
{
    let index = TypeIndex::of(alloc, types)?;
    let mut all = Vec::new(alloc);
    for definition in types {
        all.push(links_from(alloc, &index, definition)?)?;
    }
    Ok(all)
}

// Whether an element of this number is there already, or isn't one of the list.
fn is_ready<T>(found: &[Option<T>], number: usize) -> bool
    ensures { result ≡ is_ready found.now number }
{
    number >= found.len() || found[number].is_some()
}

// Whether all of these are there already, or aren't of the list.
fn are_ready<T>(found: &[Option<T>], used: &[usize]) -> bool
    ensures { result ≡ are_ready found.now used.now }
{
    match used {
        [] => true,
        [first, others @ ..] => is_ready(found, *first) && are_ready(found, others),
    }
}

// Whether the element of a number isn't there yet and can be made, as all that it is made from are there.
fn can_be_made<T>(found: &[Option<T>], links: &[Links], number: usize) -> bool
    requires as_many { length links.now ≡ length found.now }
    requires within { number < length found.now }
    ensures { IsTrue result → are_ready found.now (slice_index_or (map (λ l. l.numbers.items) links.now) number []) ≡ true }
{
    found[number].is_none() && are_ready(found, &links[number].numbers)
}

// The first from a number on that isn't there yet and can be made.
fn next_behind<T>(found: &[Option<T>], links: &[Links], from: usize) -> Option<usize>
    requires { length links.now ≡ length found.now }
    ensures { IfSome result (λ k. (k < length found.now) × (are_ready found.now
        (slice_index_or (map (λ l. l.numbers.items) links.now) k []) ≡ true)) }
{
    for number in from..found.len() {
        if can_be_made(found, links, number) {
            return Some(number);
        }
    }
    None
}

// The last before a number that isn't there yet and can be made.
fn next_before<T>(found: &[Option<T>], links: &[Links], from: usize) -> Option<usize>
    requires as_many { length links.now ≡ length found.now }
    requires within { from ≤ length found.now }
    ensures { IfSome result (λ k. (k < length found.now) × (are_ready found.now
        (slice_index_or (map (λ l. l.numbers.items) links.now) k []) ≡ true)) }
{
    for behind in 0..from {
        let number = from - 1 - behind;
        if can_be_made(found, links, number) {
            return Some(number);
        }
    }
    None
}

/// One that isn't there yet and can be made, as all that it is made from are there: the first from a number on, or else the last before it.
/// Where each is listed behind those from which it is made, or each before them, the next is found at once from the one before.
pub fn next_ready_from<T>(found: &[Option<T>], links: &[Links], from: usize) -> Option<usize>
    requires { length links.now ≡ length found.now }
    ensures { IfSome result (λ k. (k < length found.now) × (are_ready found.now
        (slice_index_or (map (λ l. l.numbers.items) links.now) k []) ≡ true)) }
{
    if from >= found.len() {
        return next_before(found, links, found.len());
    }
    match next_behind(found, links, from) {
        Some(number) => Some(number),
        None => next_before(found, links, from),
    }
}

/// The first that isn't there yet and can be made, as all that it is made from are there.
pub fn next_ready<T>(found: &[Option<T>], links: &[Links]) -> Option<usize>
    requires { length links.now ≡ length found.now }
    ensures { IfSome result (λ k. (k < length found.now) × (are_ready found.now
        (slice_index_or (map (λ l. l.numbers.items) links.now) k []) ≡ true)) }
{
    next_behind(found, links, 0)
}

/// Whether all are there. It takes no memory.
pub fn are_all_found<T>(found: &[Option<T>]) -> bool
    ensures { result ≡ list_all is_some found.now }
{
    match found {
        [] => true,
        [first, others @ ..] => first.is_some() && are_all_found(others),
    }
}
