// The equations of a type, from those of the types of which it is made.

ghost use Rattle.std.specs.Prelude.{◌≡◌, ◌++◌, [], IfOk, OnOk, map};
ghost use Rattle.std.specs.List.{flat_map};
ghost use Rattle.lotos_ast.specs.declared.types.TypeDef.{TypeDef};
ghost use Rattle.spec_core.specs.Theories.{equation_of};
ghost use Rattle.type_contents.specs.Lists.{listed};
ghost use Rattle.type_contents.specs.Contents as items;
ghost use Rattle.type_contents.specs.Numbering.{all_sorts, all_operations};
ghost use Rattle.type_contents.specs.Uses.{number_of};
ghost use Rattle.type_contents.specs.Views.{described_of};
ghost use Rattle.type_images.specs.Same as same;
ghost use Rattle.type_images.specs.Views.{numbers_of, shared_of};
ghost use Rattle.type_equation_copies.specs.Copies as copies;
ghost use Rattle.type_equation_copies.specs.Contents as contents;
ghost use Rattle.type_equation_copies.specs.Views.{equations_of, made_at, IsPrepared};

use crate::equations::{TypeEquations, add_images, add_shared, all_at, new_images, shared};
use crate::new_numbers::ItemNumbers;
use crate::order::in_order;
use lotos_ast::token::Token;
use lotos_ast::types::{Pairs, TypeBody, TypeDef};
use spec_core::equation::Equation;
use spec_core::memory::Memory;
use std::alloc::Global;
use type_contents::contents::Contents;
use type_contents::flat::FlatData;
use type_contents::order::itself_and_parts;
use type_contents::standing::{Standing, standings_of};
use type_contents::type_index::TypeIndex;
use type_images::numbers::Renumbering;
use type_images::set::firsts;
use type_images::shared::SharedEquation;

/// What is known of a list of types before their equations.
#[derive(Drop)]
pub struct Prepared<'f, 'a> {
    /// The types.
    pub types: &'f [TypeDef],
    /// What each has.
    pub contents: &'f Contents,
    /// The numbers of all sorts and operations.
    pub numbers: ItemNumbers<'f, 'a>,
    /// Of which types each is made.
    pub standings: Vec<Option<Standing>>,
    // the numbers of the types
    by_name: TypeIndex,
}

impl<'f, 'a> Prepared<'f, 'a> {
    /// What is known of types that come to this.
    pub fn of(
        alloc: Global,
        types: &'f [TypeDef],
        flat: &'f FlatData<'a>,
    ) -> Result<Prepared<'f, 'a>, Memory>
        requires sorts { map described_of flat.now.sorts.items ≡ all_sorts types.now }
        requires operations { map described_of flat.now.operations.items ≡ all_operations types.now }
        requires contents { flat.now.contents ≡ items.contents types.now }
        ensures types { IfOk result (λ p. p.types.now ≡ types.now) }
        ensures prepared { IfOk result (λ p. IsPrepared p) }
    {
        Ok(Prepared {
            types,
            contents: &flat.contents,
            numbers: ItemNumbers::of(alloc, flat)?,
            standings: standings_of(alloc, types)?,
            by_name: TypeIndex::of(alloc, types)?,
        })
    }

    // The number of the type of this name; how many types there are where there is none.
    fn number(&self, alloc: Global, name: &Token) -> Result<usize, Memory>
        requires { IsPrepared self.now }
        ensures { IfOk result (λ n. n ≡ number_of self.now.types.now name.now) }
    {
        self.by_name.number(alloc, name)
    }
}

// Adds the equations of the types of these names.
fn add_all_of(
    alloc: Global,
    prepared: &Prepared<'_, '_>,
    all: &mut Vec<SharedEquation>,
    found: &[Option<TypeEquations>],
    names: &[Token],
) -> Result<(), Memory>
    requires { IsPrepared prepared.now }
    ensures { OnOk result (map shared_of all.new.items ≡ map shared_of all.old.items
        ++ flat_map (contents.all_of prepared.now.types.now (map made_at found.now)) names.now) }
{
    for name in names {
        let number = prepared.number(alloc, name)?;
        add_shared(all, all_at(found, number))?;
    }
    Ok(())
}

// Each equation once.
fn each_once(alloc: Global, all: &[SharedEquation]) -> Result<Vec<SharedEquation>, Memory>
    ensures { IfOk result (λ once. map shared_of once.items ≡ same.firsts (map shared_of all.now)) }
{
    Ok(firsts(alloc, all)?.into_vec())
}

// The imports of a type.
fn imports_of(imports: &Option<Vec<Token>>) -> &[Token]
    ensures { result.now ≡ listed imports.now }
{
    match imports {
        None => &[],
        Some(all) => all,
    }
}

// All equations of a type that is declared with these.
fn declared_all(
    alloc: Global,
    prepared: &Prepared<'_, '_>,
    found: &[Option<TypeEquations>],
    imports: &[Token],
    own: &[SharedEquation],
) -> Result<Vec<SharedEquation>, Memory>
    requires { IsPrepared prepared.now }
    ensures { IfOk result (λ all. map shared_of all.items ≡ same.firsts
        (flat_map (contents.all_of prepared.now.types.now (map made_at found.now)) imports.now ++ map shared_of own.now)) }
{
    let mut all = Vec::new(alloc);
    add_all_of(alloc, prepared, &mut all, found, imports)?;
    add_shared(&mut all, own)?;
    each_once(alloc, &all)
}

// All equations of a copy.
fn copied_all(
    alloc: Global,
    prepared: &Prepared<'_, '_>,
    found: &[Option<TypeEquations>],
    source: &Token,
    actuals: &[Token],
    news: &Renumbering,
) -> Result<Vec<SharedEquation>, Memory>
    requires { IsPrepared prepared.now }
    ensures { IfOk result (λ all. map shared_of all.items ≡ same.firsts
        (flat_map (contents.all_of prepared.now.types.now (map made_at found.now)) actuals.now
        ++ contents.copied prepared.now.types.now (map made_at found.now) source.now (numbers_of news.now))) }
{
    let mut all = Vec::new(alloc);
    add_all_of(alloc, prepared, &mut all, found, actuals)?;
    let number = prepared.number(alloc, source)?;
    add_images(alloc, &mut all, news, all_at(found, number))?;
    each_once(alloc, &all)
}

// What a copy brings in.
fn newly_copied(
    alloc: Global,
    prepared: &Prepared<'_, '_>,
    found: &[Option<TypeEquations>],
    source: &Token,
    news: &Renumbering,
) -> Result<Vec<SharedEquation>, Memory>
    requires { IsPrepared prepared.now }
    ensures { IfOk result (λ all. map shared_of all.items ≡ contents.newly_copied prepared.now.types.now (map made_at found.now)
        source.now (numbers_of news.now)) }
{
    let types = prepared.types;
    let among = itself_and_parts(alloc, types, &prepared.standings, source)?;
    let number = prepared.number(alloc, source)?;
    let content = all_at(found, number);
    let ordered = in_order(alloc, found, &among, content, types.len())?;
    new_images(alloc, news, &ordered)
}

// The equations of a copy.
fn copied(
    alloc: Global,
    prepared: &Prepared<'_, '_>,
    found: &[Option<TypeEquations>],
    source: &Token,
    actuals: &[Token],
    news: &Renumbering,
) -> Result<TypeEquations, Memory>
    requires { IsPrepared prepared.now }
    ensures all { IfOk result (λ e. (equations_of e).all ≡ same.firsts
        (flat_map (contents.all_of prepared.now.types.now (map made_at found.now)) actuals.now
        ++ contents.copied prepared.now.types.now (map made_at found.now) source.now (numbers_of news.now))) }
    ensures brought { IfOk result (λ e. (equations_of e).brought ≡ contents.newly_copied prepared.now.types.now
        (map made_at found.now) source.now (numbers_of news.now)) }
{
    Ok(TypeEquations {
        all: copied_all(alloc, prepared, found, source, actuals, news)?,
        brought: newly_copied(alloc, prepared, found, source, news)?,
    })
}

// The equations of a type that is declared.
fn declared(
    alloc: Global,
    prepared: &Prepared<'_, '_>,
    found: &[Option<TypeEquations>],
    own: &[Equation],
    imports: &[Token],
) -> Result<TypeEquations, Memory>
    requires { IsPrepared prepared.now }
    ensures all { IfOk result (λ e. (equations_of e).all ≡ same.firsts
        (flat_map (contents.all_of prepared.now.types.now (map made_at found.now)) imports.now ++ map equation_of own.now)) }
    ensures brought { IfOk result (λ e. (equations_of e).brought ≡ map equation_of own.now) }
{
    let brought = shared(alloc, own)?;
    Ok(TypeEquations {
        all: declared_all(alloc, prepared, found, imports, &brought)?,
        brought,
    })
}

// The equations of a copy with new names.
fn renamed(
    alloc: Global,
    prepared: &Prepared<'_, '_>,
    found: &[Option<TypeEquations>],
    source: &Token,
    pairs: &Pairs,
) -> Result<TypeEquations, Memory>
    requires { IsPrepared prepared.now }
    ensures all { IfOk result (λ e. (equations_of e).all ≡ same.firsts (contents.copied prepared.now.types.now (map made_at found.now)
        source.now (copies.copy_numbers prepared.now.types.now [] pairs.now))) }
    ensures brought { IfOk result (λ e. (equations_of e).brought ≡ contents.newly_copied prepared.now.types.now
        (map made_at found.now) source.now (copies.copy_numbers prepared.now.types.now [] pairs.now)) }
{
    let number = prepared.number(alloc, source)?;
    let content = prepared.contents.of_type(number);
    let news = prepared.numbers.in_copy(alloc, content.table, &[], pairs)?;
    copied(alloc, prepared, found, source, &[], &news)
}

// The equations of a copy whose formal items are replaced.
fn actualized(
    alloc: Global,
    prepared: &Prepared<'_, '_>,
    found: &[Option<TypeEquations>],
    source: &Token,
    actuals: &[Token],
    pairs: &Pairs,
) -> Result<TypeEquations, Memory>
    requires { IsPrepared prepared.now }
    ensures all { IfOk result (λ e. (equations_of e).all ≡ same.firsts
        (flat_map (contents.all_of prepared.now.types.now (map made_at found.now)) actuals.now
        ++ contents.copied prepared.now.types.now (map made_at found.now) source.now (copies.copy_numbers prepared.now.types.now
        (items.formals_of prepared.now.types.now (items.contents prepared.now.types.now) source.now) pairs.now))) }
    ensures brought { IfOk result (λ e. (equations_of e).brought ≡ contents.newly_copied prepared.now.types.now
        (map made_at found.now) source.now (copies.copy_numbers prepared.now.types.now
        (items.formals_of prepared.now.types.now (items.contents prepared.now.types.now) source.now) pairs.now)) }
{
    let number = prepared.number(alloc, source)?;
    let content = prepared.contents.of_type(number);
    let news = prepared
        .numbers
        .in_copy(alloc, content.table, content.formals, pairs)?;
    copied(alloc, prepared, found, source, actuals, &news)
}

// The equations of a type by how it is made.
fn made_by(
    alloc: Global,
    prepared: &Prepared<'_, '_>,
    found: &[Option<TypeEquations>],
    own: &[Equation],
    body: &TypeBody,
) -> Result<TypeEquations, Memory>
    requires { IsPrepared prepared.now }
    ensures all { IfOk result (λ e. (equations_of e).all ≡ same.firsts (contents.all_by prepared.now.types.now (map made_at found.now)
        (map equation_of own.now) body.now)) }
    ensures brought { IfOk result (λ e. (equations_of e).brought ≡ contents.brings_by prepared.now.types.now (map made_at found.now)
        (map equation_of own.now) body.now) }
{
    match body {
        TypeBody::Declared {
            place: _,
            imports,
            formals: _,
            sorts: _,
            operations: _,
            equations: _,
        } => declared(alloc, prepared, found, own, imports_of(imports)),
        TypeBody::Renamed {
            place: _,
            source,
            pairs,
        } => renamed(alloc, prepared, found, source, pairs),
        TypeBody::Actualized {
            place: _,
            source,
            actuals,
            pairs,
        } => actualized(alloc, prepared, found, source, actuals, pairs),
    }
}

/// The equations of a type with these own ones, where others have what is found.
pub fn made_from(
    alloc: Global,
    prepared: &Prepared<'_, '_>,
    found: &[Option<TypeEquations>],
    own: &[Equation],
    definition: &TypeDef,
) -> Result<TypeEquations, Memory>
    requires { IsPrepared prepared.now }
    ensures { IfOk result (λ e. equations_of e ≡ contents.made_by prepared.now.types.now (map made_at found.now)
        (map equation_of own.now) definition.now) }
{
    match definition {
        TypeDef::Library { place: _, names: _ } => Ok(TypeEquations {
            all: Vec::new(alloc),
            brought: Vec::new(alloc),
        }),
        TypeDef::Definition {
            place: _,
            name: _,
            body,
        } => made_by(alloc, prepared, found, own, body),
    }
}
