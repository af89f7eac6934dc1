// The names that types have and use.

ghost use Rattle.std.specs.Prelude.{◌≡◌, ◌++◌, ◌∷◌, [], IfOk, OnOk, map};
ghost use Rattle.std.specs.List.{flat_map};
ghost use Rattle.type_contents.specs.Uses.{uses, uses_by};
ghost use Rattle.type_names.specs.TypeCycles.{type_name};
ghost use Rattle.type_names.specs.UnknownTypes.{library_names};

use lotos_ast::token::Token;
use lotos_ast::types::{TypeBody, TypeDef};
use spec_core::memory::Memory;
use std::alloc::Global;

/// Adds references to names.
pub fn add_names<'a>(all: &mut Vec<&'a Token>, names: &'a [Token]) -> Result<(), Memory>
    ensures { OnOk result (map (λ t. t.now) all.new.items ≡ map (λ t. t.now) all.old.items ++ names.now) }
{
    for name in names {
        all.push(name)?;
    }
    Ok(())
}

// Adds the types of which a type with this body is made, as they are named.
fn add_uses_by<'a>(all: &mut Vec<&'a Token>, body: &'a TypeBody) -> Result<(), Memory>
    ensures { OnOk result (map (λ t. t.now) all.new.items ≡ map (λ t. t.now) all.old.items ++ uses_by body.now) }
{
    match body {
        TypeBody::Declared {
            place: _,
            imports,
            formals: _,
            sorts: _,
            operations: _,
            equations: _,
        } => match imports {
            None => Ok(()),
            Some(names) => add_names(all, names),
        },
        TypeBody::Renamed {
            place: _,
            source,
            pairs: _,
        } => {
            all.push(source)?;
            Ok(())
        }
        TypeBody::Actualized {
            place: _,
            source,
            actuals,
            pairs: _,
        } => {
            all.push(source)?;
            add_names(all, actuals)
        }
    }
}

/// Adds the types of which a type is made, as they are named.
pub fn add_uses<'a>(all: &mut Vec<&'a Token>, definition: &'a TypeDef) -> Result<(), Memory>
    ensures { OnOk result (map (λ t. t.now) all.new.items ≡ map (λ t. t.now) all.old.items ++ uses definition.now) }
{
    match definition {
        TypeDef::Library { place: _, names: _ } => Ok(()),
        TypeDef::Definition {
            place: _,
            name: _,
            body,
        } => add_uses_by(all, body),
    }
}

/// The types of which types are made, as they are named.
pub fn all_uses<'a>(alloc: Global, types: &'a [TypeDef]) -> Result<Vec<&'a Token>, Memory>
    ensures { IfOk result (λ all. map (λ t. t.now) all.items ≡ flat_map uses types.now) }
{
    let mut all = Vec::new(alloc);
    for definition in types {
        add_uses(&mut all, definition)?;
    }
    Ok(all)
}

/// Adds the name of a type.
pub fn add_type_name<'a>(all: &mut Vec<&'a Token>, definition: &'a TypeDef) -> Result<(), Memory>
    ensures { OnOk result (map (λ t. t.now) all.new.items ≡ map (λ t. t.now) all.old.items ++ type_name definition.now) }
{
    match definition {
        TypeDef::Library { place: _, names: _ } => Ok(()),
        TypeDef::Definition {
            place: _,
            name,
            body: _,
        } => {
            all.push(name)?;
            Ok(())
        }
    }
}

/// The names of types.
pub fn type_names<'a>(alloc: Global, types: &'a [TypeDef]) -> Result<Vec<&'a Token>, Memory>
    ensures { IfOk result (λ all. map (λ t. t.now) all.items ≡ flat_map type_name types.now) }
{
    let mut all = Vec::new(alloc);
    for definition in types {
        add_type_name(&mut all, definition)?;
    }
    Ok(all)
}

// Adds the types of the library that are taken in, as they are named.
fn add_library_names<'a>(all: &mut Vec<&'a Token>, definition: &'a TypeDef) -> Result<(), Memory>
    ensures { OnOk result (map (λ t. t.now) all.new.items ≡ map (λ t. t.now) all.old.items ++ library_names definition.now) }
{
    match definition {
        TypeDef::Library { place: _, names } => add_names(all, names),
        TypeDef::Definition {
            place: _,
            name: _,
            body: _,
        } => Ok(()),
    }
}

/// The types of the library that are taken in, as they are named.
pub fn all_library_names<'a>(alloc: Global, types: &'a [TypeDef]) -> Result<Vec<&'a Token>, Memory>
    ensures { IfOk result (λ all. map (λ t. t.now) all.items ≡ flat_map library_names types.now) }
{
    let mut all = Vec::new(alloc);
    for definition in types {
        add_library_names(&mut all, definition)?;
    }
    Ok(all)
}
