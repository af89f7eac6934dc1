// Processes, and the types and processes of a `where`.

ghost use Rattle.std.specs.Prelude.{◌≡◌, ◌≤◌, ◌<◌, IfOk, OnOk, IfErr, length, map};
ghost use Rattle.lotos_ast.specs.Notation.{optional, repeated, part, declarations, in_parentheses, process, where_item};
ghost use Rattle.lotos_ast.specs.Grammar.{where_part};
ghost use Rattle.lotos_ast.specs.Reads.{Reads};
ghost use Rattle.lotos_ast.specs.Begins.{mark_at, begins};
ghost use Rattle.lotos_ast.specs.ListTrees.{repeated_tree};
ghost use Rattle.lotos_ast.specs.SpecTrees.{parameters_tree, items_tree, process_tree, where_item_tree};
ghost use Rattle.lotos_ast.specs.Nesting.{nesting_of};
ghost use Rattle.syntax_cursor.specs.Parsers.{Halts};

use crate::behaviour::behaviour;
use crate::functionality::functionality;
use data_parser::declaration::declarations;
use data_parser::type_definition::OneTypeDefinition;
use lotos_ast::declaration::Declarations;
use lotos_ast::mark::Mark;
use lotos_ast::nest::Nest;
use lotos_ast::spec::{Process, WhereItem};
use opening_parser::gates::optional_gates;
use syntax_cursor::cursor::Cursor;
use syntax_cursor::item::Item;
use syntax_cursor::parse_fault::ParseFault;

// Variables in parentheses, where they stand.
fn parameters(cursor: &mut Cursor<'_>, nest: Nest) -> Result<Option<Declarations>, ParseFault>
    ensures read { IfOk result (λ p. Reads (nesting_of nest) (optional (in_parentheses (part declarations))) cursor.old
        (parameters_tree p) cursor.new) }
    ensures halts { IfErr result (λ e. Halts e (nesting_of nest) (optional (in_parentheses (part declarations))) cursor.old cursor.new) }
    ensures no_more { OnOk result (length cursor.new ≤ length cursor.old) }
{
    if cursor.at(Mark::LeftParenthesis) {
        let inner = nest.bracket()?;
        cursor.pass(inner, Mark::LeftParenthesis)?;
        let declarations = declarations(cursor, inner)?;
        cursor.pass(inner, Mark::RightParenthesis)?;
        Ok(Some(declarations))
    } else {
        Ok(None)
    }
}

// `where` with its types and processes, where it stands.
#[cycle(process)]
pub fn items(cursor: &mut Cursor<'_>, nest: Nest) -> Result<Option<Vec<WhereItem>>, ParseFault>
    ensures read { IfOk result (λ all. Reads (nesting_of nest) (optional where_part) cursor.old (items_tree all) cursor.new) }
    ensures halts { IfErr result (λ e. Halts e (nesting_of nest) (optional where_part) cursor.old cursor.new) }
    ensures no_more { OnOk result (length cursor.new ≤ length cursor.old) }
{
    if cursor.at(Mark::Where) {
        cursor.pass(nest, Mark::Where)?;
        Ok(Some(where_items(cursor, nest)?))
    } else {
        Ok(None)
    }
}

// Whether a type or a process begins with the next token.
fn at_where_item(cursor: &Cursor<'_>) -> bool
    ensures { result ≡ begins where_item (mark_at cursor.now) }
{
    cursor.at(Mark::Library) || cursor.at(Mark::TypeKeyword) || cursor.at(Mark::Process)
}

// Types and processes, any number of them.
#[tactic(auto, using(syntax_cursor::proofs::Loops::loop_steps))]
#[cycle(process)]
fn where_items(cursor: &mut Cursor<'_>, nest: Nest) -> Result<Vec<WhereItem>, ParseFault>
    ensures read { IfOk result (λ all. Reads (nesting_of nest) (repeated (part where_item)) cursor.old
        (repeated_tree (map where_item_tree all.items)) cursor.new) }
    ensures halts { IfErr result (λ e. Halts e (nesting_of nest) (repeated (part where_item)) cursor.old cursor.new) }
    ensures no_more { OnOk result (length cursor.new ≤ length cursor.old) }
{
    let mut all = Vec::new(cursor.alloc());
    'items: while at_where_item(cursor) {
        let next = one_where_item(cursor, nest)?;
        all.push(next)?;
    }
    Ok(all)
}

// A type or a process.
#[cycle(process)]
fn one_where_item(cursor: &mut Cursor<'_>, nest: Nest) -> Result<WhereItem, ParseFault>
    ensures read { IfOk result (λ item. Reads (nesting_of nest) (part where_item) cursor.old (where_item_tree item) cursor.new) }
    ensures halts { IfErr result (λ e. Halts e (nesting_of nest) (part where_item) cursor.old cursor.new) }
    ensures fewer { OnOk result (length cursor.new < length cursor.old) }
{
    if OneTypeDefinition::begins(cursor) {
        Ok(WhereItem::types(OneTypeDefinition::read(cursor, nest)?))
    } else {
        Ok(WhereItem::definition(process(cursor, nest)?))
    }
}

// A process.
#[cycle(process)]
fn process(cursor: &mut Cursor<'_>, nest: Nest) -> Result<Process, ParseFault>
    ensures read { IfOk result (λ p. Reads (nesting_of nest) (part process) cursor.old (process_tree p) cursor.new) }
    ensures halts { IfErr result (λ e. Halts e (nesting_of nest) (part process) cursor.old cursor.new) }
    ensures fewer { OnOk result (length cursor.new < length cursor.old) }
{
    let place = cursor.place();
    let inner = nest.bracket()?;
    cursor.pass(inner, Mark::Process)?;
    let name = cursor.token(inner, Mark::Identifier)?;
    let gates = optional_gates(cursor, inner)?;
    let parameters = parameters(cursor, inner)?;
    cursor.pass(inner, Mark::Colon)?;
    let functionality = functionality(cursor, inner)?;
    cursor.pass(inner, Mark::ColonEquals)?;
    let behaviour = behaviour(cursor, inner)?;
    let items = items(cursor, inner)?;
    cursor.pass(inner, Mark::EndProc)?;
    let behaviour = Box::into_inner(behaviour);
    Ok(Process::new(
        place,
        name,
        gates,
        parameters,
        functionality,
        behaviour,
        items,
    ))
}
