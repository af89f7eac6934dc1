// Equations.

ghost use Rattle.std.specs.Prelude.{◌≡◌, ◌≤◌, ◌<◌, IfOk, OnOk, IfErr, length, map};
ghost use Rattle.lotos_ast.specs.Notation.{optional, part, equation, equations, equation_part};
ghost use Rattle.lotos_ast.specs.Grammar.{conclusion, equation_body};
ghost use Rattle.lotos_ast.specs.Begins.{mark_at, starts};
ghost use Rattle.lotos_ast.specs.Reads.{Reads, both, node};
ghost use Rattle.lotos_ast.specs.ExpressionTrees.{expr_tree, premiss_tree};
ghost use Rattle.lotos_ast.specs.TypeTrees.{conclusion_tree, first_premiss_tree, equation_tree, equations_tree};
ghost use Rattle.lotos_ast.specs.TypeTrees.{equation_body_tree, optional_equation_part_tree};
ghost use Rattle.lotos_ast.specs.Nesting.{nesting_of};
ghost use Rattle.syntax_cursor.specs.Parsers.{Halts};

use crate::declaration::declarations;
use crate::expressions::{expression, premiss};
use lotos_ast::expression::{Expr, Premiss};
use lotos_ast::mark::Mark;
use lotos_ast::nest::Nest;
use lotos_ast::place::Place;
use lotos_ast::types::{Equation, EquationBody, EquationPart, ForAll, SortEquations};
use syntax_cursor::cursor::Cursor;
use syntax_cursor::item::Item;
use syntax_cursor::parse_fault::ParseFault;

/// A premiss.
pub struct OnePremiss;

impl Item for OnePremiss {
    ghost use Rattle.lotos_ast.specs.Notation.{part, premiss};
    ghost use Rattle.lotos_ast.specs.ExpressionTrees.{premiss_tree};

    type Output = Premiss;

    ghost syntax = { part premiss };

    ghost tree = { premiss_tree };

    fn begins(cursor: &Cursor<'_>) -> bool {
        cursor.at_expression()
    }

    fn read(cursor: &mut Cursor<'_>, nest: Nest) -> Result<Premiss, ParseFault> {
        premiss(cursor, nest)
    }
}

/// Variables of equations.
pub struct OneForAll;

impl Item for OneForAll {
    ghost use Rattle.lotos_ast.specs.Notation.{part, for_all};
    ghost use Rattle.lotos_ast.specs.TypeTrees.{for_all_tree};

    type Output = ForAll;

    ghost syntax = { part for_all };

    ghost tree = { for_all_tree };

    fn begins(cursor: &Cursor<'_>) -> bool {
        cursor.at(Mark::ForAll)
    }

    fn read(cursor: &mut Cursor<'_>, nest: Nest) -> Result<ForAll, ParseFault> {
        let place = cursor.place();
        cursor.pass(nest, Mark::ForAll)?;
        let declarations = declarations(cursor, nest)?;
        Ok(ForAll {
            place,
            declarations,
        })
    }
}

/// Equations of one sort.
pub struct EquationsOfSort;

impl Item for EquationsOfSort {
    ghost use Rattle.lotos_ast.specs.Notation.{part, sort_equations};
    ghost use Rattle.lotos_ast.specs.TypeTrees.{sort_equations_tree};

    type Output = SortEquations;

    ghost syntax = { part sort_equations };

    ghost tree = { sort_equations_tree };

    fn begins(cursor: &Cursor<'_>) -> bool {
        cursor.at(Mark::OfSort)
    }

    fn read(cursor: &mut Cursor<'_>, nest: Nest) -> Result<SortEquations, ParseFault> {
        let place = cursor.place();
        cursor.pass(nest, Mark::OfSort)?;
        let sort = cursor.token(nest, Mark::Identifier)?;
        let variables = cursor.repeated::<OneForAll>(nest)?;
        let equations = equations(cursor, nest)?;
        Ok(SortEquations {
            place,
            sort,
            variables,
            equations,
        })
    }
}

// What stands behind the first premiss of an equation.
#[derive(Drop)]
struct PremissesAndSides {
    premisses: Vec<Premiss>,
    left: Expr,
    right: Expr,
}

// An equation with premisses.
#[tactic(auto, using(crate::proofs::Equations::premisses_put_together))]
fn with_premisses(
    place: Place,
    first: Premiss,
    rest: PremissesAndSides,
) -> Result<Equation, ParseFault>
    ensures tree { IfOk result
        (λ e. equation_tree e ≡ node place
        (node first.place (both (expr_tree first.left)
        (first_premiss_tree first.right (conclusion_tree (map premiss_tree rest.premisses.items) rest.left rest.right))))) }
    ensures memory { IfErr result (λ e. e ≡ ParseFault.Memory) }
{
    let mut premisses = rest.premisses;
    premisses.insert(0, first)?;
    Ok(Equation {
        place,
        premisses: Some(premisses),
        left: rest.left,
        right: rest.right,
    })
}

// Whether what stands behind a first premiss begins with the next token.
fn at_conclusion(cursor: &Cursor<'_>) -> bool
    ensures { result ≡ starts conclusion (mark_at cursor.now) }
{
    cursor.at(Mark::Comma) || cursor.at(Mark::DoubleArrow)
}

// Further premisses, and both sides of an equation.
fn conclusion(cursor: &mut Cursor<'_>, nest: Nest) -> Result<PremissesAndSides, ParseFault>
    ensures read { IfOk result (λ c. Reads (nesting_of nest) conclusion cursor.old
        (conclusion_tree (map premiss_tree c.premisses.items) c.left c.right) cursor.new) }
    ensures halts { IfErr result (λ e. Halts e (nesting_of nest) conclusion cursor.old cursor.new) }
    ensures fewer { OnOk result (length cursor.new < length cursor.old) }
{
    let premisses = cursor.after_commas::<OnePremiss>(nest)?;
    cursor.pass(nest, Mark::DoubleArrow)?;
    let left = expression(cursor, nest)?;
    cursor.pass(nest, Mark::Equals)?;
    let right = expression(cursor, nest)?;
    Ok(PremissesAndSides {
        premisses,
        left,
        right,
    })
}

// An equation.
fn equation(cursor: &mut Cursor<'_>, nest: Nest) -> Result<Equation, ParseFault>
    ensures read { IfOk result (λ e. Reads (nesting_of nest) (part equation) cursor.old (equation_tree e) cursor.new) }
    ensures halts { IfErr result (λ e. Halts e (nesting_of nest) (part equation) cursor.old cursor.new) }
    ensures fewer { OnOk result (length cursor.new < length cursor.old) }
{
    let place = cursor.place();
    let first = expression(cursor, nest)?;
    if !cursor.at(Mark::Equals) {
        let rest = conclusion(cursor, nest)?;
        let premiss = Premiss {
            place,
            left: first,
            right: None,
        };
        let equation = with_premisses(place, premiss, rest)?;
        return Ok(equation);
    }
    cursor.pass(nest, Mark::Equals)?;
    let second = expression(cursor, nest)?;
    if at_conclusion(cursor) {
        let rest = conclusion(cursor, nest)?;
        let premiss = Premiss {
            place,
            left: first,
            right: Some(second),
        };
        let equation = with_premisses(place, premiss, rest)?;
        return Ok(equation);
    }
    Ok(Equation {
        place,
        premisses: None,
        left: first,
        right: second,
    })
}

// Equations with semicolons between them; one may stand behind the last, too.
#[tactic(auto, using(crate::proofs::Equations::equation_steps))]
fn equations(cursor: &mut Cursor<'_>, nest: Nest) -> Result<Vec<Equation>, ParseFault>
    ensures read { IfOk result (λ all. Reads (nesting_of nest) (optional (part equations)) cursor.old
        (equations_tree (map equation_tree all.items)) cursor.new) }
    ensures halts { IfErr result (λ e. Halts e (nesting_of nest) (optional (part equations)) cursor.old cursor.new) }
    ensures no_more { OnOk result (length cursor.new ≤ length cursor.old) }
{
    let mut all = Vec::new(cursor.alloc());
    'equations: while cursor.at_expression() {
        let next = equation(cursor, nest)?;
        all.push(next)?;
        if !cursor.at(Mark::Semicolon) {
            return Ok(all);
        }
        cursor.pass(nest, Mark::Semicolon)?;
    }
    Ok(all)
}

/// Equations by sorts.
pub fn equation_body(cursor: &mut Cursor<'_>, nest: Nest) -> Result<EquationBody, ParseFault>
    ensures read { IfOk result (λ b. Reads (nesting_of nest) equation_body cursor.old (equation_body_tree b) cursor.new) }
    ensures halts { IfErr result (λ e. Halts e (nesting_of nest) equation_body cursor.old cursor.new) }
    ensures no_more { OnOk result (length cursor.new ≤ length cursor.old) }
{
    let place = cursor.place();
    let variables = cursor.repeated::<OneForAll>(nest)?;
    let parts = cursor.repeated::<EquationsOfSort>(nest)?;
    Ok(EquationBody {
        place,
        variables,
        parts,
    })
}

/// The equations that a type declares, where it does.
pub fn optional_equation_part(
    cursor: &mut Cursor<'_>,
    nest: Nest,
) -> Result<Option<EquationPart>, ParseFault>
    ensures read { IfOk result (λ e. Reads (nesting_of nest) (optional (part equation_part)) cursor.old
        (optional_equation_part_tree e) cursor.new) }
    ensures halts { IfErr result (λ e. Halts e (nesting_of nest) (optional (part equation_part)) cursor.old cursor.new) }
    ensures no_more { OnOk result (length cursor.new ≤ length cursor.old) }
{
    if cursor.at(Mark::Eqns) {
        let place = cursor.place();
        cursor.pass(nest, Mark::Eqns)?;
        let body = equation_body(cursor, nest)?;
        Ok(Some(EquationPart { place, body }))
    } else {
        Ok(None)
    }
}
