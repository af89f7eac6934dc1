// The types of a text, in one list.

ghost use Rattle.std.specs.Prelude.{◌≡◌, ◌++◌, ◌≤◌, IfOk, OnOk, length, map};
ghost use Rattle.lotos_ast.specs.Refusals.{IfRefused};
ghost use Rattle.lotos_ast.specs.Tokenizes.{text_limit};
ghost use Rattle.lotos_ast.specs.SpecTrees.{where_item_tree, process_tree, items_tree, spec_tree};
ghost use Rattle.lotos_ast.specs.TypeTrees.{type_def_tree};
ghost use Rattle.lotos_front.specs.Parsed.{IsUnparsed};
ghost use Rattle.lotos_front.specs.Types as types;
ghost use Rattle.lotos_front.specs.Types.{AreTypesOf, item_types, process_types, where_types};

use crate::libraries::with_library;
use crate::parsed::parse;
use lotos_ast::behaviour::Behaviour;
use lotos_ast::declaration::{Declarations, Functionality, GateList};
use lotos_ast::refusal::FrontFault;
use lotos_ast::spec::{Process, Spec, WhereItem};
use lotos_ast::token::Token;
use lotos_ast::types::TypeDef;
use spec_core::memory::Memory;
use std::alloc::Global;

// Adds the types of a `where` part, if there is one.
#[cycle(where_parts)]
fn add_items(all: &mut Vec<TypeDef>, items: Option<Vec<WhereItem>>) -> Result<(), Memory>
    ensures { OnOk result (map type_def_tree all.new.items ≡ map type_def_tree all.old.items ++ where_types (items_tree items)) }
{
    match items {
        None => Ok(()),
        Some(items) => {
            for item in items {
                add_item(all, item)?;
            }
            Ok(())
        }
    }
}

// Adds the types of an item: a type, or those of a process.
#[cycle(where_parts)]
fn add_item(all: &mut Vec<TypeDef>, item: WhereItem) -> Result<(), Memory>
    ensures { OnOk result (map type_def_tree all.new.items ≡ map type_def_tree all.old.items ++ item_types (where_item_tree item)) }
{
    match item {
        WhereItem::Types(definition) => {
            all.push(definition)?;
            Ok(())
        }
        WhereItem::Definition(process) => add_process(all, process),
    }
}

// Adds the types of the `where` part of a process.
#[cycle(where_parts)]
fn add_process(all: &mut Vec<TypeDef>, process: Process) -> Result<(), Memory>
    ensures { OnOk result (map type_def_tree all.new.items ≡ map type_def_tree all.old.items ++ process_types (process_tree process)) }
{
    let Process {
        place: _,
        name,
        gates,
        parameters,
        functionality,
        behaviour,
        items,
    } = process;
    let_go(name, gates, parameters, functionality, behaviour);
    add_items(all, items)
}

// Lets the other parts of a process or a specification go.
fn let_go(
    _name: Token,
    _gates: Option<GateList>,
    _parameters: Option<Declarations>,
    _functionality: Functionality,
    _behaviour: Behaviour,
) {}

// The types of a specification: the global ones, then those of its `where` parts.
#[tactic(auto, using(crate::proofs::Collected::globals))]
fn types_in(spec: Spec) -> Result<Vec<TypeDef>, Memory>
    ensures { IfOk result (λ all. map type_def_tree all.items ≡ types.types_in (spec_tree spec)) }
{
    let Spec {
        place: _,
        name,
        gates,
        functionality,
        types,
        behaviour,
        items,
    } = spec;
    let_go(name, gates, None, functionality, behaviour);
    let mut all = types;
    add_items(&mut all, items)?;
    Ok(all)
}

/// The types of a text with these tokens, in one list: those of the library that it takes in, then its own. Or its refusal, if the tokens
/// are no specification.
pub fn types_of(alloc: Global, text: &[u8], tokens: &[Token]) -> Result<Vec<TypeDef>, FrontFault>
    requires short { length text.now ≤ text_limit }
    ensures types { IfOk result (λ all. AreTypesOf tokens.now all.items) }
    ensures refused { IfRefused result (IsUnparsed text.now tokens.now) }
{
    let spec = parse(alloc, text, tokens)?;
    let own = types_in(spec)?;
    let all = with_library(alloc, own)?;
    Ok(all)
}
