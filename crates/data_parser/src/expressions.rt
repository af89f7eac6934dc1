// Expressions and premisses.

ghost use Rattle.std.specs.Prelude.{◌≡◌, ◌≤◌, ◌<◌, IfOk, OnOk, IfErr, length, map};
ghost use Rattle.lotos_ast.specs.declared.mark.Mark.{Mark};
ghost use Rattle.lotos_ast.specs.Notation.{Syntax, quoted, optional, repeated, part, expression, infixes, simple, head};
ghost use Rattle.lotos_ast.specs.Notation.{premiss, list, in_parentheses, ◌▸◌};
ghost use Rattle.lotos_ast.specs.Reads.{Reads, leaf};
ghost use Rattle.lotos_ast.specs.ListTrees.{repeated_tree, list_tree, behind, between};
ghost use Rattle.lotos_ast.specs.ExpressionTrees.{expr_tree, infix_tree, simple_tree, head_tree, infixes_tree};
ghost use Rattle.lotos_ast.specs.ExpressionTrees.{values_tree, optional_right_tree, premiss_tree};
ghost use Rattle.lotos_ast.specs.Nesting.{nesting_of};
ghost use Rattle.syntax_cursor.specs.Parsers.{Halts};

use lotos_ast::expression::{Expr, Head, Infix, Premiss, Simple};
use lotos_ast::mark::Mark;
use lotos_ast::nest::Nest;
use lotos_ast::token::Token;
use syntax_cursor::cursor::Cursor;
use syntax_cursor::item::Item;
use syntax_cursor::parse_fault::ParseFault;

/// An `of` and a sort.
pub struct OfSort;

impl Item for OfSort {
    ghost use Rattle.lotos_ast.specs.declared.mark.Mark.{Mark};
    ghost use Rattle.lotos_ast.specs.Notation.{quoted, identifier, ◌▸◌};
    ghost use Rattle.lotos_ast.specs.ExpressionTrees.{of_sort};

    type Output = Token;

    ghost syntax = { quoted Mark.Of ▸ identifier };

    ghost tree = { of_sort };

    fn begins(cursor: &Cursor<'_>) -> bool {
        cursor.at(Mark::Of)
    }

    fn read(cursor: &mut Cursor<'_>, nest: Nest) -> Result<Token, ParseFault> {
        cursor.pass(nest, Mark::Of)?;
        cursor.token(nest, Mark::Identifier)
    }
}

/// An expression.
#[cycle(expression)]
pub fn expression(cursor: &mut Cursor<'_>, nest: Nest) -> Result<Expr, ParseFault>
    ensures read { IfOk result (λ e. Reads (nesting_of nest) (part expression) cursor.old (expr_tree e) cursor.new) }
    ensures halts { IfErr result (λ e. Halts e (nesting_of nest) (part expression) cursor.old cursor.new) }
    ensures fewer { OnOk result (length cursor.new < length cursor.old) }
{
    let place = cursor.place();
    let first = simple(cursor, nest)?;
    let rest = infixes(cursor, nest)?;
    Ok(Expr::new(place, first, rest))
}

// The operations behind the first operand of a chain. Each encloses those behind it.
#[tactic(auto, using(crate::proofs::Chains::chain_steps))]
#[cycle(expression)]
fn infixes(cursor: &mut Cursor<'_>, nest: Nest) -> Result<Vec<Infix>, ParseFault>
    ensures read { IfOk result (λ all. Reads (nesting_of nest) (optional (part infixes)) cursor.old
        (infixes_tree (map infix_tree all.items)) cursor.new) }
    ensures halts { IfErr result (λ e. Halts e (nesting_of nest) (optional (part infixes)) cursor.old cursor.new) }
    ensures no_more { OnOk result (length cursor.new ≤ length cursor.old) }
{
    let mut all = Vec::new(cursor.alloc());
    let mut here = nest;
    'operations: while cursor.at_name() {
        let place = cursor.place();
        let name = cursor.name(here)?;
        let inner = here.construct()?;
        let right = simple(cursor, inner)?;
        all.push(Infix::new(place, name, right))?;
        here = inner;
    }
    Ok(all)
}

// An operand, with the sorts that it is said to have.
#[cycle(expression)]
fn simple(cursor: &mut Cursor<'_>, nest: Nest) -> Result<Simple, ParseFault>
    ensures read { IfOk result (λ s. Reads (nesting_of nest) (part simple) cursor.old (simple_tree s) cursor.new) }
    ensures halts { IfErr result (λ e. Halts e (nesting_of nest) (part simple) cursor.old cursor.new) }
    ensures fewer { OnOk result (length cursor.new < length cursor.old) }
{
    let place = cursor.place();
    let head = head(cursor, nest)?;
    let sorts = cursor.repeated::<OfSort>(nest)?;
    Ok(Simple::new(place, head, sorts))
}

// An operand without sorts.
#[cycle(expression)]
fn head(cursor: &mut Cursor<'_>, nest: Nest) -> Result<Head, ParseFault>
    ensures read { IfOk result (λ h. Reads (nesting_of nest) (part head) cursor.old (head_tree h) cursor.new) }
    ensures halts { IfErr result (λ e. Halts e (nesting_of nest) (part head) cursor.old cursor.new) }
    ensures fewer { OnOk result (length cursor.new < length cursor.old) }
{
    let place = cursor.place();
    if cursor.at(Mark::LeftParenthesis) {
        let inner = group(cursor, nest)?;
        Ok(Head::grouped(cursor.alloc(), place, inner)?)
    } else {
        let name = cursor.name(nest)?;
        let arguments = arguments(cursor, nest)?;
        Ok(Head::applied(place, name, arguments))
    }
}

// An expression in parentheses.
#[cycle(expression)]
fn group(cursor: &mut Cursor<'_>, nest: Nest) -> Result<Expr, ParseFault>
    ensures read { IfOk result (λ e. Reads (nesting_of nest) (in_parentheses (part expression)) cursor.old
        (between (expr_tree e)) cursor.new) }
    ensures halts { IfErr result (λ e. Halts e (nesting_of nest) (in_parentheses (part expression)) cursor.old cursor.new) }
    ensures fewer { OnOk result (length cursor.new < length cursor.old) }
{
    let inner = nest.bracket()?;
    cursor.pass(inner, Mark::LeftParenthesis)?;
    let expression = expression(cursor, inner)?;
    cursor.pass(inner, Mark::RightParenthesis)?;
    Ok(expression)
}

// Arguments in parentheses, where they stand.
#[cycle(expression)]
pub fn arguments(cursor: &mut Cursor<'_>, nest: Nest) -> Result<Option<Vec<Expr>>, ParseFault>
    ensures read { IfOk result (λ all. Reads (nesting_of nest) (optional (in_parentheses (list (part expression)))) cursor.old
        (values_tree all) cursor.new) }
    ensures halts { IfErr result (λ e. Halts e (nesting_of nest) (optional (in_parentheses (list (part expression)))) cursor.old
        cursor.new) }
    ensures no_more { OnOk result (length cursor.new ≤ length cursor.old) }
{
    if cursor.at(Mark::LeftParenthesis) {
        let inner = nest.bracket()?;
        cursor.pass(inner, Mark::LeftParenthesis)?;
        let all = expressions(cursor, inner)?;
        cursor.pass(inner, Mark::RightParenthesis)?;
        Ok(Some(all))
    } else {
        Ok(None)
    }
}

// One expression or more, with commas between them.
#[tactic(auto, using(syntax_cursor::proofs::Loops::loop_steps))]
#[cycle(expression)]
fn expressions(cursor: &mut Cursor<'_>, nest: Nest) -> Result<Vec<Expr>, ParseFault>
    ensures read { IfOk result (λ all. Reads (nesting_of nest) (list (part expression)) cursor.old
        (list_tree (map expr_tree all.items)) cursor.new) }
    ensures halts { IfErr result (λ e. Halts e (nesting_of nest) (list (part expression)) cursor.old cursor.new) }
    ensures fewer { OnOk result (length cursor.new < length cursor.old) }
{
    let first = expression(cursor, nest)?;
    let mut all = further_expressions(cursor, nest)?;
    all.insert(0, first)?;
    Ok(all)
}

// Expressions, each behind a comma.
#[tactic(auto, using(syntax_cursor::proofs::Loops::loop_steps))]
#[cycle(expression)]
fn further_expressions(cursor: &mut Cursor<'_>, nest: Nest) -> Result<Vec<Expr>, ParseFault>
    ensures read { IfOk result (λ all. Reads (nesting_of nest) (repeated (quoted Mark.Comma ▸ part expression)) cursor.old
        (repeated_tree (map behind (map expr_tree all.items))) cursor.new) }
    ensures halts { IfErr result (λ e. Halts e (nesting_of nest) (repeated (quoted Mark.Comma ▸ part expression)) cursor.old cursor.new) }
    ensures no_more { OnOk result (length cursor.new ≤ length cursor.old) }
{
    let mut all = Vec::new(cursor.alloc());
    'expressions: while cursor.at(Mark::Comma) {
        cursor.pass(nest, Mark::Comma)?;
        let next = expression(cursor, nest)?;
        all.push(next)?;
    }
    Ok(all)
}

/// A condition: an expression, or two with `=` between them.
pub fn premiss(cursor: &mut Cursor<'_>, nest: Nest) -> Result<Premiss, ParseFault>
    ensures read { IfOk result (λ p. Reads (nesting_of nest) (part premiss) cursor.old (premiss_tree p) cursor.new) }
    ensures halts { IfErr result (λ e. Halts e (nesting_of nest) (part premiss) cursor.old cursor.new) }
    ensures fewer { OnOk result (length cursor.new < length cursor.old) }
{
    let place = cursor.place();
    let left = expression(cursor, nest)?;
    let right = optional_right(cursor, nest)?;
    Ok(Premiss { place, left, right })
}

// A `=` and an expression, where they stand.
fn optional_right(cursor: &mut Cursor<'_>, nest: Nest) -> Result<Option<Expr>, ParseFault>
    ensures read { IfOk result (λ r. Reads (nesting_of nest) (optional (quoted Mark.Equals ▸ part expression)) cursor.old
        (optional_right_tree r) cursor.new) }
    ensures halts { IfErr result (λ e. Halts e (nesting_of nest) (optional (quoted Mark.Equals ▸ part expression)) cursor.old cursor.new) }
    ensures no_more { OnOk result (length cursor.new ≤ length cursor.old) }
{
    if cursor.at(Mark::Equals) {
        cursor.pass(nest, Mark::Equals)?;
        Ok(Some(expression(cursor, nest)?))
    } else {
        Ok(None)
    }
}
