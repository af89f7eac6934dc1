// Refusals of names of types without a definition.

ghost use Rattle.std.specs.Prelude.{◌≡◌, ◌++◌, List, OnOk, IfOk, map};
ghost use Rattle.std.specs.List.{flat_map};
ghost use Rattle.type_names.specs.NameSets.{library_type_name, unless_known};
ghost use Rattle.type_names.specs.UnknownTypes.{library_names, unknown_type, unknown_library, unknown_types};
ghost use Rattle.type_contents.specs.Uses.{uses};

use crate::name_set::NameSet;
use crate::names::{all_library_names, all_uses, type_names};
use crate::refused::refused;
use lotos_ast::refusal::{Refusal, RefusalKind};
use lotos_ast::token::Token;
use lotos_ast::types::TypeDef;
use spec_core::memory::Memory;
use std::alloc::Global;

// Adds the name of a type of the library.
fn add_library_type_name<'a>(
    all: &mut Vec<&'a Token>,
    definition: &'a TypeDef,
) -> Result<(), Memory>
    ensures { OnOk result (map (λ t. t.now) all.new.items ≡ map (λ t. t.now) all.old.items ++ library_type_name definition.now) }
{
    match definition {
        TypeDef::Library { place: _, names: _ } => Ok(()),
        TypeDef::Definition {
            place: _,
            name,
            body: _,
        } => {
            if name.place.line == 0 {
                all.push(name)?;
            }
            Ok(())
        }
    }
}

// The names of the types of the library.
fn library_type_names<'a>(alloc: Global, types: &'a [TypeDef]) -> Result<Vec<&'a Token>, Memory>
    ensures { IfOk result (λ all. map (λ t. t.now) all.items ≡ flat_map library_type_name types.now) }
{
    let mut all = Vec::new(alloc);
    for definition in types {
        add_library_type_name(&mut all, definition)?;
    }
    Ok(all)
}

// Refuses a name that isn't one of these.
fn add_unless_known(
    alloc: Global,
    known: &NameSet,
    name: &Token,
    refusals: &mut Vec<Refusal>,
) -> Result<(), Memory>
    ensures { OnOk result (refusals.new.items ≡ refusals.old.items ++ unless_known known.now name.now) }
{
    if !known.has(alloc, name)? {
        refusals.push(refused(alloc, RefusalKind::UnknownType, name.place))?;
    }
    Ok(())
}

// Refuses those of the names that aren't among these.
fn add_each_unless_known(
    alloc: Global,
    known: &NameSet,
    names: &[&Token],
    refusals: &mut Vec<Refusal>,
) -> Result<(), Memory>
    ensures { OnOk result (refusals.new.items ≡ refusals.old.items ++ flat_map (unless_known known.now) (map (λ t. t.now) names.now)) }
{
    for name in names {
        add_unless_known(alloc, known, name, refusals)?;
    }
    Ok(())
}

// Refuses the names of which types are made and that no type has.
fn add_unknown_uses(
    alloc: Global,
    types: &[TypeDef],
    refusals: &mut Vec<Refusal>,
) -> Result<(), Memory>
    ensures { OnOk result (refusals.new.items ≡ refusals.old.items ++ flat_map (unknown_type types.now) (flat_map uses types.now)) }
{
    let names = type_names(alloc, types)?;
    let known = NameSet::of(alloc, &names)?;
    let uses = all_uses(alloc, types)?;
    add_each_unless_known(alloc, &known, &uses, refusals)?;
    Ok(())
}

// Refuses the names in library parts that no type of the library has.
fn add_unknown_libraries(
    alloc: Global,
    types: &[TypeDef],
    refusals: &mut Vec<Refusal>,
) -> Result<(), Memory>
    ensures { OnOk result (refusals.new.items ≡ refusals.old.items ++ flat_map (unknown_library types.now)
        (flat_map library_names types.now)) }
{
    let names = library_type_names(alloc, types)?;
    let known = NameSet::of(alloc, &names)?;
    let used = all_library_names(alloc, types)?;
    add_each_unless_known(alloc, &known, &used, refusals)?;
    Ok(())
}

/// Refuses the names of types that have no definition.
pub fn add_unknown_types(
    alloc: Global,
    types: &[TypeDef],
    refusals: &mut Vec<Refusal>,
) -> Result<(), Memory>
    ensures { OnOk result (refusals.new.items ≡ refusals.old.items ++ unknown_types types.now) }
{
    add_unknown_uses(alloc, types, refusals)?;
    add_unknown_libraries(alloc, types, refusals)
}
