// What a type declares itself.

ghost use Rattle.std.specs.Prelude.{◌≡◌, ◌++◌, ◌∷◌, [], OnOk, IfOk, map, string_bytes};
ghost use Rattle.std.specs.List.{flat_map};
ghost use Rattle.type_contents.specs.Lists.{listed};
ghost use Rattle.type_contents.specs.Items.{small};
ghost use Rattle.type_contents.specs.Own as own;
ghost use Rattle.type_contents.specs.Views.{item_of, described_of};

use crate::item::{Item, small};
use crate::item_kind::ItemKind;
use lotos_ast::place::Place;
use lotos_ast::token::Token;
use lotos_ast::types::{
    DeclaredName, Formals, OperationDecl, OperationName, OperationPart, SortList, SortPart,
};
use spec_core::memory::Memory;
use std::alloc::Global;

/// A sort or an operation as it is declared.
#[derive(Drop)]
pub struct Declared<'a> {
    /// It.
    pub item: Item,
    /// Its name as it is written.
    pub spelled: &'a Token,
    /// Whether its declaration marks it as a constructor.
    pub marked: bool,
    /// Where it is declared.
    pub place: Place,
}

/// The name of an operation without low lines. It takes no memory.
pub fn name_of(name: &OperationName) -> &Token
    ensures { result.now ≡ own.name_of name.now }
{
    match name {
        OperationName::Prefix { place: _, name } => name,
        OperationName::Infix { place: _, name } => name,
    }
}

/// Where an operation of this name stands. It takes no memory.
pub fn kind_of(name: &OperationName) -> ItemKind
    ensures { result ≡ own.kind_of name.now }
{
    match name {
        OperationName::Prefix { place: _, name: _ } => ItemKind::Prefix,
        OperationName::Infix { place: _, name: _ } => ItemKind::Infix,
    }
}

// A declared sort.
fn declared_sort<'a>(alloc: Global, name: &'a Token) -> Result<Declared<'a>, Memory>
    ensures { IfOk result (λ d. described_of d ≡ own.declared_sort name.now) }
{
    Ok(Declared {
        item: Item {
            kind: ItemKind::Sort,
            name: small(alloc, name)?,
            sorts: Vec::new(alloc),
        },
        spelled: name,
        marked: false,
        place: name.place,
    })
}

// Adds declared sorts.
fn add_sorts<'a>(
    alloc: Global,
    all: &mut Vec<Declared<'a>>,
    names: &'a [Token],
) -> Result<(), Memory>
    ensures { OnOk result (map described_of all.new.items ≡ map described_of all.old.items ++ map own.declared_sort names.now) }
{
    for name in names {
        all.push(declared_sort(alloc, name)?)?;
    }
    Ok(())
}

// Adds names in small letters.
fn add_names(alloc: Global, all: &mut Vec<String>, names: &[Token]) -> Result<(), Memory>
    ensures { OnOk result (map (λ s. string_bytes s) all.new.items ≡ map (λ s. string_bytes s) all.old.items ++ map small names.now) }
{
    for name in names {
        all.push(small(alloc, name)?)?;
    }
    Ok(())
}

// The sorts of an operation: those of its arguments, and then that of its result.
fn sorts_of(alloc: Global, declaration: &OperationDecl) -> Result<Vec<String>, Memory>
    ensures { IfOk result (λ all. map (λ s. string_bytes s) all.items ≡ map small (listed declaration.now.arguments)
        ++ small declaration.now.result ∷ []) }
{
    let mut all = Vec::new(alloc);
    if let Some(arguments) = &declaration.arguments {
        add_names(alloc, &mut all, arguments)?;
    }
    all.push(small(alloc, &declaration.result)?)?;
    Ok(all)
}

// One of the operations of a declaration.
fn declared_operation<'a>(
    alloc: Global,
    declaration: &'a OperationDecl,
    declared: &'a DeclaredName,
) -> Result<Declared<'a>, Memory>
    ensures { IfOk result (λ d. described_of d ≡ own.declared_operation declaration.now declared.now) }
{
    Ok(Declared {
        item: Item {
            kind: kind_of(&declared.name),
            name: small(alloc, name_of(&declared.name))?,
            sorts: sorts_of(alloc, declaration)?,
        },
        spelled: name_of(&declared.name),
        marked: declared.mark.is_some(),
        place: declared.place,
    })
}

// Adds the operations of one declaration.
fn add_declaration<'a>(
    alloc: Global,
    all: &mut Vec<Declared<'a>>,
    declaration: &'a OperationDecl,
) -> Result<(), Memory>
    ensures { OnOk result (map described_of all.new.items ≡ map described_of all.old.items ++ own.declared_operations declaration.now) }
{
    for declared in &declaration.names {
        all.push(declared_operation(alloc, declaration, declared)?)?;
    }
    Ok(())
}

// Adds operations.
fn add_operations<'a>(
    alloc: Global,
    all: &mut Vec<Declared<'a>>,
    declarations: &'a [OperationDecl],
) -> Result<(), Memory>
    ensures { OnOk result (map described_of all.new.items ≡ map described_of all.old.items
        ++ flat_map own.declared_operations declarations.now) }
{
    for declaration in declarations {
        add_declaration(alloc, all, declaration)?;
    }
    Ok(())
}

/// The names of formal sorts. It takes no memory.
pub fn sort_names(sorts: &Option<SortList>) -> &[Token]
    ensures { result.now ≡ own.sort_names sorts.now }
{
    match sorts {
        None => &[],
        Some(list) => &list.names,
    }
}

/// The names of declared sorts. It takes no memory.
pub fn part_sort_names(sorts: &Option<SortPart>) -> &[Token]
    ensures { result.now ≡ own.part_sort_names sorts.now }
{
    match sorts {
        None => &[],
        Some(part) => &part.sorts.names,
    }
}

/// Declarations of formal operations. It takes no memory.
pub fn formal_operations(operations: &Option<Vec<OperationDecl>>) -> &[OperationDecl]
    ensures { result.now ≡ listed operations.now }
{
    match operations {
        None => &[],
        Some(all) => all,
    }
}

/// Declarations of operations. It takes no memory.
pub fn part_operations(operations: &Option<OperationPart>) -> &[OperationDecl]
    ensures { result.now ≡ own.part_operations operations.now }
{
    match operations {
        None => &[],
        Some(part) => &part.operations,
    }
}

/// What is left open in a type.
pub fn own_formals<'a>(alloc: Global, formals: &'a Formals) -> Result<Vec<Declared<'a>>, Memory>
    ensures { IfOk result (λ all. map described_of all.items ≡ own.own_formals formals.now) }
{
    let mut all = Vec::new(alloc);
    add_sorts(alloc, &mut all, sort_names(&formals.sorts))?;
    add_operations(alloc, &mut all, formal_operations(&formals.operations))?;
    Ok(all)
}

/// What a type declares, in the order of declaration: what is left open first, among sorts and among operations.
pub fn own_items<'a>(
    alloc: Global,
    formals: &'a Formals,
    sorts: &'a Option<SortPart>,
    operations: &'a Option<OperationPart>,
) -> Result<Vec<Declared<'a>>, Memory>
    ensures { IfOk result (λ all. map described_of all.items ≡ own.own_items formals.now sorts.now operations.now) }
{
    let mut all = Vec::new(alloc);
    add_sorts(alloc, &mut all, sort_names(&formals.sorts))?;
    add_sorts(alloc, &mut all, part_sort_names(sorts))?;
    add_operations(alloc, &mut all, formal_operations(&formals.operations))?;
    add_operations(alloc, &mut all, part_operations(operations))?;
    Ok(all)
}
