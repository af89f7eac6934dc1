// What other crates call.

ghost use Rattle.std.specs.Prelude.{◌≤◌, IfOk, length, map};
ghost use Rattle.lotos_ast.specs.Notation.{part, repeated, expression, type_definition};
ghost use Rattle.lotos_ast.specs.ListTrees.{repeated_tree};
ghost use Rattle.lotos_ast.specs.ExpressionTrees.{expr_tree};
ghost use Rattle.lotos_ast.specs.TypeTrees.{type_def_tree};
ghost use Rattle.lotos_ast.specs.Parsing.{IsParsedBetween, IsRefusedFrom};
ghost use Rattle.lotos_ast.specs.Refusals.{IfRefused};

use crate::expressions;
use crate::type_definition::type_definitions;
use lotos_ast::expression::Expr;
use lotos_ast::nest::Nest;
use lotos_ast::refusal::FrontFault;
use lotos_ast::token::Token;
use lotos_ast::types::TypeDef;
use std::alloc::Global;
use syntax_cursor::cursor::Cursor;
use syntax_cursor::refusals::refusal;

/// The expression that is the longest front of the tokens from number `from` on, and the number of the token behind it. Tokens
/// count from 0.
///
/// Refusals: 3 Unexpected at the token behind the longest front, where that is no expression; 27 External in its place, where
/// that token marks an item as external; 4 TooDeep at the first token that is nested too deep.
#[tactic(auto, using(crate::proofs::Answered::answer_steps))]
pub fn expression(alloc: Global, tokens: &[Token], from: usize) -> Result<(Expr, usize), FrontFault>
    requires { from ≤ length tokens.now }
    ensures read { IfOk result (λ r. IsParsedBetween (part expression) tokens.now from (expr_tree r.0) r.1) }
    ensures refused { IfRefused result (IsRefusedFrom (part expression) tokens.now from) }
{
    let (_, left) = tokens.split_at(from);
    let mut cursor = Cursor::new(alloc, left);
    match expressions::expression(&mut cursor, Nest::outermost()) {
        Ok(expression) => Ok((expression, tokens.len() - cursor.rest().len())),
        Err(fault) => Err(refusal(alloc, fault, tokens, cursor.rest())),
    }
}

/// The types that are the longest front of the tokens from number `from` on, and the number of the token behind them. Tokens count
/// from 0. There may be none.
///
/// Refusals: 3 Unexpected at the token behind the longest front, where that isn't whole types; 27 External in its place, where that
/// token marks an item as external; 4 TooDeep at the first token that is nested too deep.
#[tactic(auto, using(crate::proofs::Answered::answer_steps))]
pub fn types(
    alloc: Global,
    tokens: &[Token],
    from: usize,
) -> Result<(Vec<TypeDef>, usize), FrontFault>
    requires { from ≤ length tokens.now }
    ensures read { IfOk result
        (λ r. IsParsedBetween (repeated (part type_definition)) tokens.now from (repeated_tree (map type_def_tree r.0.items)) r.1) }
    ensures refused { IfRefused result (IsRefusedFrom (repeated (part type_definition)) tokens.now from) }
{
    let (_, left) = tokens.split_at(from);
    let mut cursor = Cursor::new(alloc, left);
    match type_definitions(&mut cursor, Nest::outermost()) {
        Ok(types) => Ok((types, tokens.len() - cursor.rest().len())),
        Err(fault) => Err(refusal(alloc, fault, tokens, cursor.rest())),
    }
}
