// Types of the library, and definitions of types.

ghost use Rattle.std.specs.Prelude.{◌≡◌, ◌≤◌, ◌<◌, IfOk, OnOk, IfErr, length, map, true, false};
ghost use Rattle.lotos_ast.specs.declared.mark.Mark.{Mark};
ghost use Rattle.lotos_ast.specs.MarkNumbers.{is_same_mark};
ghost use Rattle.lotos_ast.specs.Begins.{mark_at};
ghost use Rattle.lotos_ast.specs.Notation.{optional, repeated, quoted, loose_list, part, sort_pair, operation_pair, type_definition, ◌▸◌};
ghost use Rattle.lotos_ast.specs.Grammar.{formals, declared_items, pairs, type_body, sort_list, equation_body, operation_declaration};
ghost use Rattle.lotos_ast.specs.Reads.{Reads, both, left, right, leaf, node};
ghost use Rattle.lotos_ast.specs.ListTrees.{repeated_tree, behind};
ghost use Rattle.lotos_ast.specs.TypeTrees.{formal_sorts_tree, formal_operations_tree, formal_equations_tree};
ghost use Rattle.lotos_ast.specs.TypeTrees.{formals_tree, declared_items_tree, sort_pairs_tree, operation_pairs_tree};
ghost use Rattle.lotos_ast.specs.TypeTrees.{pairs_tree, type_body_tree, type_def_tree};
ghost use Rattle.lotos_ast.specs.Nesting.{nesting_of};
ghost use Rattle.syntax_cursor.specs.Parsers.{Halts};

use crate::equation::{equation_body, optional_equation_part};
use crate::operation::{
    OneOperationDeclaration, at_operation_name, operation_name, optional_operation_part,
};
use crate::sort::{optional_sort_part, sort_list};
use lotos_ast::mark::Mark;
use lotos_ast::nest::Nest;
use lotos_ast::place::Place;
use lotos_ast::token::Token;
use lotos_ast::types::{
    EquationBody, EquationPart, Formals, OperationDecl, OperationPair, OperationPart, Pairs,
    SortList, SortPair, SortPart, TypeBody, TypeDef,
};
use syntax_cursor::cursor::Cursor;
use syntax_cursor::identifier::Identifier;
use syntax_cursor::item::Item;
use syntax_cursor::parse_fault::ParseFault;

/// A new sort for an old one.
pub struct OneSortPair;

impl Item for OneSortPair {
    ghost use Rattle.lotos_ast.specs.Notation.{part, sort_pair};
    ghost use Rattle.lotos_ast.specs.TypeTrees.{sort_pair_tree};

    type Output = SortPair;

    ghost syntax = { part sort_pair };

    ghost tree = { sort_pair_tree };

    fn begins(cursor: &Cursor<'_>) -> bool {
        cursor.at(Mark::Identifier)
    }

    fn read(cursor: &mut Cursor<'_>, nest: Nest) -> Result<SortPair, ParseFault> {
        let place = cursor.place();
        let new = cursor.token(nest, Mark::Identifier)?;
        cursor.pass(nest, Mark::For)?;
        let old = cursor.token(nest, Mark::Identifier)?;
        Ok(SortPair { place, new, old })
    }
}

/// A new operation for an old one.
pub struct OneOperationPair;

impl Item for OneOperationPair {
    ghost use Rattle.lotos_ast.specs.Notation.{part, operation_pair};
    ghost use Rattle.lotos_ast.specs.TypeTrees.{operation_pair_tree};

    type Output = OperationPair;

    ghost syntax = { part operation_pair };

    ghost tree = { operation_pair_tree };

    fn begins(cursor: &Cursor<'_>) -> bool {
        at_operation_name(cursor)
    }

    fn read(cursor: &mut Cursor<'_>, nest: Nest) -> Result<OperationPair, ParseFault> {
        let place = cursor.place();
        let new = operation_name(cursor, nest)?;
        cursor.pass(nest, Mark::For)?;
        let old = operation_name(cursor, nest)?;
        Ok(OperationPair { place, new, old })
    }
}

/// Types of the library, or the definition of a type.
pub struct OneTypeDefinition;

impl Item for OneTypeDefinition {
    ghost use Rattle.lotos_ast.specs.Notation.{part, type_definition};
    ghost use Rattle.lotos_ast.specs.TypeTrees.{type_def_tree};

    type Output = TypeDef;

    ghost syntax = { part type_definition };

    ghost tree = { type_def_tree };

    fn begins(cursor: &Cursor<'_>) -> bool {
        cursor.at(Mark::Library) || cursor.at(Mark::TypeKeyword)
    }

    fn read(cursor: &mut Cursor<'_>, nest: Nest) -> Result<TypeDef, ParseFault> {
        if cursor.at(Mark::Library) {
            library(cursor, nest)
        } else {
            definition(cursor, nest)
        }
    }
}

// What a type declares.
#[derive(Drop)]
struct DeclaredItems {
    formals: Formals,
    sorts: Option<SortPart>,
    operations: Option<OperationPart>,
    equations: Option<EquationPart>,
}

// The body of a type that imports no other.
fn without_imports(place: Place, items: DeclaredItems) -> TypeBody
    ensures { type_body_tree result ≡ node place (right (declared_items_tree items.formals items.sorts items.operations items.equations)) }
{
    TypeBody::Declared {
        place,
        imports: None,
        formals: items.formals,
        sorts: items.sorts,
        operations: items.operations,
        equations: items.equations,
    }
}

// The body of a type that imports others.
#[tactic(auto, using(crate::proofs::Imports::imports_put_together))]
fn with_imports(
    place: Place,
    first: Token,
    rest: Vec<Token>,
    items: DeclaredItems,
) -> Result<TypeBody, ParseFault>
    ensures tree { IfOk result
        (λ b. type_body_tree b ≡ node place
        (left (both (leaf first) (right
        (right (both (repeated_tree (map behind (map leaf rest.items)))
        (declared_items_tree items.formals items.sorts items.operations items.equations))))))) }
    ensures memory { IfErr result (λ e. e ≡ ParseFault.Memory) }
{
    let mut imports = rest;
    imports.insert(0, first)?;
    Ok(TypeBody::Declared {
        place,
        imports: Some(imports),
        formals: items.formals,
        sorts: items.sorts,
        operations: items.operations,
        equations: items.equations,
    })
}

// Formal sorts, where they stand.
fn formal_sorts(cursor: &mut Cursor<'_>, nest: Nest) -> Result<Option<SortList>, ParseFault>
    ensures read { IfOk result (λ s. Reads (nesting_of nest) (optional (quoted Mark.FormalSorts ▸ sort_list)) cursor.old
        (formal_sorts_tree s) cursor.new) }
    ensures halts { IfErr result (λ e. Halts e (nesting_of nest) (optional (quoted Mark.FormalSorts ▸ sort_list)) cursor.old cursor.new) }
    ensures no_more { OnOk result (length cursor.new ≤ length cursor.old) }
{
    if cursor.at(Mark::FormalSorts) {
        cursor.pass(nest, Mark::FormalSorts)?;
        Ok(Some(sort_list(cursor, nest)?))
    } else {
        Ok(None)
    }
}

// Formal operations, where they stand.
fn formal_operations(
    cursor: &mut Cursor<'_>,
    nest: Nest,
) -> Result<Option<Vec<OperationDecl>>, ParseFault>
    ensures read { IfOk result (λ o. Reads (nesting_of nest) (optional (quoted Mark.FormalOpns ▸ repeated operation_declaration)) cursor.old
        (formal_operations_tree o) cursor.new) }
    ensures halts { IfErr result (λ e.
        Halts e (nesting_of nest) (optional (quoted Mark.FormalOpns ▸ repeated operation_declaration)) cursor.old cursor.new) }
    ensures no_more { OnOk result (length cursor.new ≤ length cursor.old) }
{
    if cursor.at(Mark::FormalOpns) {
        cursor.pass(nest, Mark::FormalOpns)?;
        Ok(Some(cursor.repeated::<OneOperationDeclaration>(nest)?))
    } else {
        Ok(None)
    }
}

// Formal equations, where they stand.
fn formal_equations(cursor: &mut Cursor<'_>, nest: Nest) -> Result<Option<EquationBody>, ParseFault>
    ensures read { IfOk result (λ b. Reads (nesting_of nest) (optional (quoted Mark.FormalEqns ▸ equation_body)) cursor.old
        (formal_equations_tree b) cursor.new) }
    ensures halts { IfErr result (λ e. Halts e (nesting_of nest) (optional (quoted Mark.FormalEqns ▸ equation_body)) cursor.old
        cursor.new) }
    ensures no_more { OnOk result (length cursor.new ≤ length cursor.old) }
{
    if cursor.at(Mark::FormalEqns) {
        cursor.pass(nest, Mark::FormalEqns)?;
        Ok(Some(equation_body(cursor, nest)?))
    } else {
        Ok(None)
    }
}

// What is left open in a type.
fn formals(cursor: &mut Cursor<'_>, nest: Nest) -> Result<Formals, ParseFault>
    ensures read { IfOk result (λ f. Reads (nesting_of nest) formals cursor.old (formals_tree f) cursor.new) }
    ensures halts { IfErr result (λ e. Halts e (nesting_of nest) formals cursor.old cursor.new) }
    ensures no_more { OnOk result (length cursor.new ≤ length cursor.old) }
{
    let place = cursor.place();
    let sorts = formal_sorts(cursor, nest)?;
    let operations = formal_operations(cursor, nest)?;
    let equations = formal_equations(cursor, nest)?;
    Ok(Formals {
        place,
        sorts,
        operations,
        equations,
    })
}

// What a type declares.
fn declared_items(cursor: &mut Cursor<'_>, nest: Nest) -> Result<DeclaredItems, ParseFault>
    ensures read { IfOk result (λ i. Reads (nesting_of nest) declared_items cursor.old
        (declared_items_tree i.formals i.sorts i.operations i.equations) cursor.new) }
    ensures halts { IfErr result (λ e. Halts e (nesting_of nest) declared_items cursor.old cursor.new) }
    ensures no_more { OnOk result (length cursor.new ≤ length cursor.old) }
{
    let formals = formals(cursor, nest)?;
    let sorts = optional_sort_part(cursor, nest)?;
    let operations = optional_operation_part(cursor, nest)?;
    let equations = optional_equation_part(cursor, nest)?;
    Ok(DeclaredItems {
        formals,
        sorts,
        operations,
        equations,
    })
}

// New names for sorts, where they stand.
fn sort_pairs(cursor: &mut Cursor<'_>, nest: Nest) -> Result<Option<Vec<SortPair>>, ParseFault>
    ensures read { IfOk result (λ p. Reads (nesting_of nest) (optional (quoted Mark.SortNames ▸ loose_list (part sort_pair))) cursor.old
        (sort_pairs_tree p) cursor.new) }
    ensures halts { IfErr result (λ e. Halts e (nesting_of nest) (optional (quoted Mark.SortNames ▸ loose_list (part sort_pair))) cursor.old
        cursor.new) }
    ensures no_more { OnOk result (length cursor.new ≤ length cursor.old) }
{
    if cursor.at(Mark::SortNames) {
        cursor.pass(nest, Mark::SortNames)?;
        Ok(Some(cursor.loose_list::<OneSortPair>(nest)?))
    } else {
        Ok(None)
    }
}

// New names for operations, where they stand.
fn operation_pairs(
    cursor: &mut Cursor<'_>,
    nest: Nest,
) -> Result<Option<Vec<OperationPair>>, ParseFault>
    ensures read { IfOk result (λ p. Reads (nesting_of nest) (optional (quoted Mark.OpnNames ▸ loose_list (part operation_pair))) cursor.old
        (operation_pairs_tree p) cursor.new) }
    ensures halts { IfErr result (λ e.
        Halts e (nesting_of nest) (optional (quoted Mark.OpnNames ▸ loose_list (part operation_pair))) cursor.old cursor.new) }
    ensures no_more { OnOk result (length cursor.new ≤ length cursor.old) }
{
    if cursor.at(Mark::OpnNames) {
        cursor.pass(nest, Mark::OpnNames)?;
        Ok(Some(cursor.loose_list::<OneOperationPair>(nest)?))
    } else {
        Ok(None)
    }
}

// New names for items of a type.
fn pairs(cursor: &mut Cursor<'_>, nest: Nest) -> Result<Pairs, ParseFault>
    ensures read { IfOk result (λ p. Reads (nesting_of nest) pairs cursor.old (pairs_tree p) cursor.new) }
    ensures halts { IfErr result (λ e. Halts e (nesting_of nest) pairs cursor.old cursor.new) }
    ensures no_more { OnOk result (length cursor.new ≤ length cursor.old) }
{
    let place = cursor.place();
    let sorts = sort_pairs(cursor, nest)?;
    let operations = operation_pairs(cursor, nest)?;
    Ok(Pairs {
        place,
        sorts,
        operations,
    })
}

// How a type is made.
fn type_body(cursor: &mut Cursor<'_>, nest: Nest) -> Result<TypeBody, ParseFault>
    ensures read { IfOk result (λ b. Reads (nesting_of nest) type_body cursor.old (type_body_tree b) cursor.new) }
    ensures halts { IfErr result (λ e. Halts e (nesting_of nest) type_body cursor.old cursor.new) }
    ensures no_more { OnOk result (length cursor.new ≤ length cursor.old) }
{
    let place = cursor.place();
    if !cursor.at(Mark::Identifier) {
        let items = declared_items(cursor, nest)?;
        return Ok(without_imports(place, items));
    }
    let source = cursor.token(nest, Mark::Identifier)?;
    if cursor.at(Mark::RenamedBy) {
        cursor.pass(nest, Mark::RenamedBy)?;
        let pairs = pairs(cursor, nest)?;
        Ok(TypeBody::Renamed {
            place,
            source,
            pairs,
        })
    } else if cursor.at(Mark::ActualizedBy) {
        cursor.pass(nest, Mark::ActualizedBy)?;
        let actuals = cursor.list::<Identifier>(nest)?;
        cursor.pass(nest, Mark::Using)?;
        let pairs = pairs(cursor, nest)?;
        Ok(TypeBody::Actualized {
            place,
            source,
            actuals,
            pairs,
        })
    } else {
        let rest = cursor.after_commas::<Identifier>(nest)?;
        let items = declared_items(cursor, nest)?;
        let body = with_imports(place, source, rest, items)?;
        Ok(body)
    }
}

// Types of the library.
fn library(cursor: &mut Cursor<'_>, nest: Nest) -> Result<TypeDef, ParseFault>
    requires { is_same_mark Mark.Library (mark_at cursor.old) ≡ true }
    ensures read { IfOk result (λ t. Reads (nesting_of nest) (part type_definition) cursor.old (type_def_tree t) cursor.new) }
    ensures halts { IfErr result (λ e. Halts e (nesting_of nest) (part type_definition) cursor.old cursor.new) }
    ensures fewer { OnOk result (length cursor.new < length cursor.old) }
{
    let place = cursor.place();
    cursor.pass(nest, Mark::Library)?;
    let names = cursor.list::<Identifier>(nest)?;
    cursor.pass(nest, Mark::EndLib)?;
    Ok(TypeDef::Library { place, names })
}

// The definition of a type.
fn definition(cursor: &mut Cursor<'_>, nest: Nest) -> Result<TypeDef, ParseFault>
    requires { is_same_mark Mark.Library (mark_at cursor.old) ≡ false }
    ensures read { IfOk result (λ t. Reads (nesting_of nest) (part type_definition) cursor.old (type_def_tree t) cursor.new) }
    ensures halts { IfErr result (λ e. Halts e (nesting_of nest) (part type_definition) cursor.old cursor.new) }
    ensures fewer { OnOk result (length cursor.new < length cursor.old) }
{
    let place = cursor.place();
    cursor.pass(nest, Mark::TypeKeyword)?;
    let name = cursor.token(nest, Mark::Identifier)?;
    cursor.pass(nest, Mark::Is)?;
    let body = type_body(cursor, nest)?;
    cursor.pass(nest, Mark::EndType)?;
    Ok(TypeDef::Definition { place, name, body })
}

/// Types one after another.
pub fn type_definitions(cursor: &mut Cursor<'_>, nest: Nest) -> Result<Vec<TypeDef>, ParseFault>
    ensures read { IfOk result (λ all. Reads (nesting_of nest) (repeated (part type_definition)) cursor.old
        (repeated_tree (map type_def_tree all.items)) cursor.new) }
    ensures halts { IfErr result (λ e. Halts e (nesting_of nest) (repeated (part type_definition)) cursor.old cursor.new) }
    ensures no_more { OnOk result (length cursor.new ≤ length cursor.old) }
{
    let all = cursor.repeated::<OneTypeDefinition>(nest)?;
    Ok(all)
}
