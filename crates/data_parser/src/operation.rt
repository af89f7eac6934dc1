// Declarations of operations.

ghost use Rattle.std.specs.Prelude.{◌≡◌, ◌≤◌, ◌<◌, IfOk, OnOk, IfErr, length, [], Bool, false, ◌||◌};
ghost use Rattle.lotos_ast.specs.declared.mark.Mark.{Mark};
ghost use Rattle.lotos_ast.specs.MarkNumbers.{is_same_mark};
ghost use Rattle.lotos_ast.specs.Notation.{optional, part, operation_part, operation_name, operation_names, constructor_mark, ◌▸◌};
ghost use Rattle.lotos_ast.specs.Begins.{begins_name, mark_at, place_at};
ghost use Rattle.lotos_ast.specs.Grammar.{operation_declaration, infix_end};
ghost use Rattle.lotos_ast.specs.Reads.{Reads, both, right, leaf};
ghost use Rattle.lotos_ast.specs.ListTrees.{behind, optional_token_tree, optional_list_tree};
ghost use Rattle.lotos_ast.specs.TypeTrees.{operation_name_tree, both_sorts_tree, operation_decl_tree, optional_operation_part_tree};
ghost use Rattle.lotos_ast.specs.Nesting.{nesting_of};
ghost use Rattle.syntax_cursor.specs.Parsers.{Halts};
ghost use Rattle.data_parser.specs.OperationNames.{is_infix, after_names, after_names_tree, NamesOn};

use lotos_ast::mark::Mark;
use lotos_ast::nest::Nest;
use lotos_ast::token::Token;
use lotos_ast::types::{DeclaredName, OperationDecl, OperationName, OperationPart};
use syntax_cursor::cursor::Cursor;
use syntax_cursor::item::Item;
use syntax_cursor::parse_fault::ParseFault;

/// Operations with one list of sorts.
pub struct OneOperationDeclaration;

impl Item for OneOperationDeclaration {
    ghost use Rattle.lotos_ast.specs.Grammar.{operation_declaration};
    ghost use Rattle.lotos_ast.specs.TypeTrees.{operation_decl_tree};

    type Output = OperationDecl;

    ghost syntax = { operation_declaration };

    ghost tree = { operation_decl_tree };

    fn begins(cursor: &Cursor<'_>) -> bool {
        at_operation_name(cursor)
    }

    fn read(cursor: &mut Cursor<'_>, nest: Nest) -> Result<OperationDecl, ParseFault> {
        operation_declaration(cursor, nest)
    }
}

// Operations with one list of sorts, before the sorts.
#[derive(Drop)]
struct DeclaredNames {
    names: Vec<DeclaredName>,
    // Whether one of them stands between its arguments.
    between: bool,
}

// Their argument sorts, and their result sort.
#[derive(Drop)]
struct ArgumentsAndResult {
    arguments: Option<Vec<Token>>,
    result: Token,
}

// Whether an operation stands between its arguments, or one before it does.
fn is_now_between(before: bool, name: &OperationName) -> bool
    ensures { result ≡ before || is_infix name.now }
{
    match name {
        OperationName::Prefix { .. } => before,
        OperationName::Infix { .. } => true,
    }
}

/// Whether the name of an operation begins with the next token. It takes no memory.
pub fn at_operation_name(cursor: &Cursor<'_>) -> bool
    ensures { result ≡ begins_name (mark_at cursor.now) }
{
    cursor.at_name() || cursor.at(Mark::Underscore)
}

/// An operation's name; low lines round it are the places of its arguments.
pub fn operation_name(cursor: &mut Cursor<'_>, nest: Nest) -> Result<OperationName, ParseFault>
    ensures read { IfOk result (λ n. Reads (nesting_of nest) (part operation_name) cursor.old (operation_name_tree n) cursor.new) }
    ensures halts { IfErr result (λ e. Halts e (nesting_of nest) (part operation_name) cursor.old cursor.new) }
    ensures fewer { OnOk result (length cursor.new < length cursor.old) }
{
    let place = cursor.place();
    if cursor.at_name() {
        let name = cursor.name(nest)?;
        Ok(OperationName::Prefix { place, name })
    } else {
        cursor.pass(nest, Mark::Underscore)?;
        let name = cursor.name(nest)?;
        cursor.pass(nest, Mark::Underscore)?;
        Ok(OperationName::Infix { place, name })
    }
}

// A comment that marks the operation before it as a constructor, where one stands.
fn optional_constructor_mark(
    cursor: &mut Cursor<'_>,
    nest: Nest,
) -> Result<Option<Token>, ParseFault>
    ensures read { IfOk result (λ m. Reads (nesting_of nest) (optional constructor_mark) cursor.old (optional_token_tree m) cursor.new) }
    ensures halts { IfErr result (λ e. Halts e (nesting_of nest) (optional constructor_mark) cursor.old cursor.new) }
    ensures no_more { OnOk result (length cursor.new ≤ length cursor.old) }
{
    if cursor.at(Mark::ConstructorMark) {
        Ok(Some(cursor.token(nest, Mark::ConstructorMark)?))
    } else {
        Ok(None)
    }
}

// An operation as it is declared.
fn declared_name(cursor: &mut Cursor<'_>, nest: Nest) -> Result<DeclaredName, ParseFault>
    ensures read { IfOk result (λ n. Reads (nesting_of nest) (part operation_name ▸ optional constructor_mark) cursor.old
        (both (operation_name_tree n.name) (optional_token_tree n.mark)) cursor.new) }
    ensures place { IfOk result (λ n. n.place ≡ place_at cursor.old) }
    ensures halts { IfErr result (λ e. Halts e (nesting_of nest) (part operation_name ▸ optional constructor_mark) cursor.old cursor.new) }
    ensures fewer { OnOk result (length cursor.new < length cursor.old) }
{
    let place = cursor.place();
    let name = operation_name(cursor, nest)?;
    let mark = optional_constructor_mark(cursor, nest)?;
    Ok(DeclaredName { place, name, mark })
}

// Operations with commas between them.
#[tactic(auto, using(crate::proofs::OperationNames::name_steps))]
fn declared_names(cursor: &mut Cursor<'_>, nest: Nest) -> Result<DeclaredNames, ParseFault>
    ensures read { IfOk result (λ all. NamesOn (nesting_of nest) cursor.old all.names.items all.between cursor.new) }
    ensures end { OnOk result (is_same_mark Mark.Comma (mark_at cursor.new) ≡ false) }
    ensures halts { IfErr result (λ e. Halts e (nesting_of nest) (part operation_names) cursor.old cursor.new) }
    ensures fewer { OnOk result (length cursor.new < length cursor.old) }
{
    let first = declared_name(cursor, nest)?;
    let mut between = is_now_between(false, &first.name);
    let mut names = Vec::new(cursor.alloc());
    names.push(first)?;
    'names: while cursor.at(Mark::Comma) {
        cursor.pass(nest, Mark::Comma)?;
        let next = declared_name(cursor, nest)?;
        between = is_now_between(between, &next.name);
        names.push(next)?;
    }
    Ok(DeclaredNames { names, between })
}

// Two argument sorts and the result sort.
fn two_sorts(cursor: &mut Cursor<'_>, nest: Nest) -> Result<ArgumentsAndResult, ParseFault>
    requires { is_same_mark Mark.Comma (mark_at cursor.old) ≡ false }
    ensures read { IfOk result (λ s. Reads (nesting_of nest) infix_end cursor.old
        (right (both_sorts_tree s.arguments s.result)) cursor.new) }
    ensures halts { IfErr result (λ e. Halts e (nesting_of nest) infix_end cursor.old cursor.new) }
    ensures fewer { OnOk result (length cursor.new < length cursor.old) }
{
    cursor.pass(nest, Mark::Colon)?;
    let first = cursor.token(nest, Mark::Identifier)?;
    cursor.pass(nest, Mark::Comma)?;
    let second = cursor.token(nest, Mark::Identifier)?;
    cursor.pass(nest, Mark::Arrow)?;
    let result = cursor.token(nest, Mark::Identifier)?;
    let mut arguments = Vec::new(cursor.alloc());
    arguments.push(first)?;
    arguments.push(second)?;
    Ok(ArgumentsAndResult {
        arguments: Some(arguments),
        result,
    })
}

// Any argument sorts and the result sort.
fn any_sorts(cursor: &mut Cursor<'_>, nest: Nest) -> Result<ArgumentsAndResult, ParseFault>
    requires { is_same_mark Mark.Comma (mark_at cursor.old) ≡ false }
    ensures read { IfOk result (λ s. Reads (nesting_of nest) (after_names false) cursor.old
        (right (behind (both (optional_list_tree s.arguments) (behind (leaf s.result))))) cursor.new) }
    ensures halts { IfErr result (λ e. Halts e (nesting_of nest) (after_names false) cursor.old cursor.new) }
    ensures fewer { OnOk result (length cursor.new < length cursor.old) }
{
    cursor.pass(nest, Mark::Colon)?;
    let arguments = cursor.optional_identifiers(nest)?;
    cursor.pass(nest, Mark::Arrow)?;
    let result = cursor.token(nest, Mark::Identifier)?;
    Ok(ArgumentsAndResult { arguments, result })
}

// The sorts behind operations of which one stands between its arguments or none does.
fn arguments_and_result(
    cursor: &mut Cursor<'_>,
    nest: Nest,
    between: bool,
) -> Result<ArgumentsAndResult, ParseFault>
    requires { is_same_mark Mark.Comma (mark_at cursor.old) ≡ false }
    ensures read { IfOk result (λ s. Reads (nesting_of nest) (after_names between) cursor.old
        (after_names_tree between [] s.arguments s.result) cursor.new) }
    ensures halts { IfErr result (λ e. Halts e (nesting_of nest) (after_names between) cursor.old cursor.new) }
    ensures fewer { OnOk result (length cursor.new < length cursor.old) }
{
    if between {
        two_sorts(cursor, nest)
    } else {
        any_sorts(cursor, nest)
    }
}

// Operations with one list of sorts.
#[tactic(auto, using(crate::proofs::OperationNames::name_steps))]
fn operation_declaration(cursor: &mut Cursor<'_>, nest: Nest) -> Result<OperationDecl, ParseFault>
    ensures read { IfOk result (λ d. Reads (nesting_of nest) operation_declaration cursor.old (operation_decl_tree d) cursor.new) }
    ensures halts { IfErr result (λ e. Halts e (nesting_of nest) operation_declaration cursor.old cursor.new) }
    ensures fewer { OnOk result (length cursor.new < length cursor.old) }
{
    let place = cursor.place();
    let declared = declared_names(cursor, nest)?;
    let sorts = arguments_and_result(cursor, nest, declared.between)?;
    Ok(OperationDecl {
        place,
        names: declared.names,
        arguments: sorts.arguments,
        result: sorts.result,
    })
}

/// The operations that a type declares, where it does.
pub fn optional_operation_part(
    cursor: &mut Cursor<'_>,
    nest: Nest,
) -> Result<Option<OperationPart>, ParseFault>
    ensures read { IfOk result (λ o. Reads (nesting_of nest) (optional (part operation_part)) cursor.old
        (optional_operation_part_tree o) cursor.new) }
    ensures halts { IfErr result (λ e. Halts e (nesting_of nest) (optional (part operation_part)) cursor.old cursor.new) }
    ensures no_more { OnOk result (length cursor.new ≤ length cursor.old) }
{
    if cursor.at(Mark::Opns) {
        let place = cursor.place();
        cursor.pass(nest, Mark::Opns)?;
        let operations = cursor.repeated::<OneOperationDeclaration>(nest)?;
        Ok(Some(OperationPart { place, operations }))
    } else {
        Ok(None)
    }
}
