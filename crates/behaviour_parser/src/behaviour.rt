// Behaviours. The right side of each operator is one construct deeper than its left side.
//
// The functions that call each other keep little while they do: what they read stands in memory of its own.

ghost use Rattle.std.specs.Prelude.{◌≡◌, ◌<◌, box_value, IfOk, OnOk, IfErr, length};
ghost use Rattle.lotos_ast.specs.Notation.{part, behaviour, disable, parallel, choice, unary};
ghost use Rattle.lotos_ast.specs.Reads.{Reads};
ghost use Rattle.lotos_ast.specs.BehaviourTrees.{behaviour_tree, disable_tree, parallel_tree, choice_tree, unary_tree};
ghost use Rattle.lotos_ast.specs.Nesting.{nesting_of};
ghost use Rattle.syntax_cursor.specs.Parsers.{Halts};

use crate::accepts::accepts;
use crate::joined::{
    behaviour_alone, choice_alone, chosen, composed, disable_alone, disabled, enabled, grouped,
    parallel_alone,
};
use lotos_ast::behaviour::{Behaviour, Choice, Disable, Parallel, Unary};
use lotos_ast::mark::Mark;
use lotos_ast::nest::Nest;
use opening_parser::opening::{Heading, Opening, Prefix, read_opening};
use opening_parser::operator::{at_operator, operator};
use syntax_cursor::cursor::Cursor;
use syntax_cursor::parse_fault::ParseFault;

// A behaviour.
#[tactic(auto, using(crate::proofs::Levels::behaviour_steps))]
#[cycle(behaviour)]
pub fn behaviour(cursor: &mut Cursor<'_>, nest: Nest) -> Result<Box<Behaviour>, ParseFault>
    ensures read { IfOk result (λ b. Reads (nesting_of nest) (part behaviour) cursor.old (behaviour_tree (box_value b)) cursor.new) }
    ensures halts { IfErr result (λ e. Halts e (nesting_of nest) (part behaviour) cursor.old cursor.new) }
    ensures fewer { OnOk result (length cursor.new < length cursor.old) }
{
    let place = cursor.place();
    let first = disable(cursor, nest)?;
    if cursor.at(Mark::Enable) {
        let sign = cursor.place();
        cursor.pass(nest, Mark::Enable)?;
        let accepts = accepts(cursor, nest)?;
        let inner = nest.construct()?;
        let right = behaviour(cursor, inner)?;
        Ok(enabled(cursor.alloc(), place, first, sign, accepts, right)?)
    } else {
        Ok(behaviour_alone(cursor.alloc(), place, first)?)
    }
}

// A behaviour without `>>` between two parts.
#[tactic(auto, using(crate::proofs::Levels::disable_steps))]
#[cycle(behaviour)]
fn disable(cursor: &mut Cursor<'_>, nest: Nest) -> Result<Box<Disable>, ParseFault>
    ensures read { IfOk result (λ d. Reads (nesting_of nest) (part disable) cursor.old (disable_tree (box_value d)) cursor.new) }
    ensures halts { IfErr result (λ e. Halts e (nesting_of nest) (part disable) cursor.old cursor.new) }
    ensures fewer { OnOk result (length cursor.new < length cursor.old) }
{
    let place = cursor.place();
    let first = parallel(cursor, nest)?;
    if cursor.at(Mark::Disable) {
        let sign = cursor.place();
        cursor.pass(nest, Mark::Disable)?;
        let inner = nest.construct()?;
        let right = disable(cursor, inner)?;
        Ok(disabled(cursor.alloc(), place, first, sign, right)?)
    } else {
        Ok(disable_alone(cursor.alloc(), place, first)?)
    }
}

// A behaviour without `>>` and `[>` between two parts.
#[tactic(auto, using(crate::proofs::Levels::parallel_steps))]
#[cycle(behaviour)]
fn parallel(cursor: &mut Cursor<'_>, nest: Nest) -> Result<Box<Parallel>, ParseFault>
    ensures read { IfOk result (λ p. Reads (nesting_of nest) (part parallel) cursor.old (parallel_tree (box_value p)) cursor.new) }
    ensures halts { IfErr result (λ e. Halts e (nesting_of nest) (part parallel) cursor.old cursor.new) }
    ensures fewer { OnOk result (length cursor.new < length cursor.old) }
{
    let place = cursor.place();
    let first = choice(cursor, nest)?;
    if at_operator(cursor) {
        let sign = cursor.place();
        let operator = operator(cursor, nest)?;
        let inner = nest.construct()?;
        let right = parallel(cursor, inner)?;
        Ok(composed(cursor.alloc(), place, first, sign, operator, right)?)
    } else {
        Ok(parallel_alone(cursor.alloc(), place, first)?)
    }
}

// A behaviour without an operator between two parts but `[]`.
#[tactic(auto, using(crate::proofs::Levels::choice_steps))]
#[cycle(behaviour)]
fn choice(cursor: &mut Cursor<'_>, nest: Nest) -> Result<Box<Choice>, ParseFault>
    ensures read { IfOk result (λ c. Reads (nesting_of nest) (part choice) cursor.old (choice_tree (box_value c)) cursor.new) }
    ensures halts { IfErr result (λ e. Halts e (nesting_of nest) (part choice) cursor.old cursor.new) }
    ensures fewer { OnOk result (length cursor.new < length cursor.old) }
{
    let place = cursor.place();
    let first = unary(cursor, nest)?;
    if cursor.at(Mark::Brackets) {
        let sign = cursor.place();
        cursor.pass(nest, Mark::Brackets)?;
        let inner = nest.construct()?;
        let right = choice(cursor, inner)?;
        Ok(chosen(cursor.alloc(), place, first, sign, right)?)
    } else {
        Ok(choice_alone(cursor.alloc(), place, first)?)
    }
}

// A behaviour without an operator between two parts.
#[tactic(auto, using(crate::proofs::Levels::unary_steps))]
#[cycle(behaviour)]
fn unary(cursor: &mut Cursor<'_>, nest: Nest) -> Result<Box<Unary>, ParseFault>
    ensures read { IfOk result (λ u. Reads (nesting_of nest) (part unary) cursor.old (unary_tree (box_value u)) cursor.new) }
    ensures halts { IfErr result (λ e. Halts e (nesting_of nest) (part unary) cursor.old cursor.new) }
    ensures fewer { OnOk result (length cursor.new < length cursor.old) }
{
    match read_opening(cursor, nest)? {
        Opening::Before(prefix) => {
            let inner = nest.construct()?;
            let rest = unary(cursor, inner)?;
            Ok(Prefix::before(prefix, cursor.alloc(), rest)?)
        }
        Opening::Around(heading) => {
            let inner = nest.bracket()?;
            let inside = behaviour(cursor, inner)?;
            Ok(Heading::around(heading, cursor.alloc(), inside)?)
        }
        Opening::Parenthesis { place } => {
            let inner = nest.bracket()?;
            let group = behaviour(cursor, inner)?;
            cursor.pass(inner, Mark::RightParenthesis)?;
            Ok(grouped(cursor.alloc(), place, group)?)
        }
        Opening::Whole(unary) => Ok(unary),
    }
}
