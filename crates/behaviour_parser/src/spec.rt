// Whole specifications.

ghost use Rattle.std.specs.Prelude.{◌<◌, [], IfOk, OnOk, IfErr, length};
ghost use Rattle.lotos_ast.specs.Nesting.{nesting_of, outermost};
ghost use Rattle.lotos_ast.specs.Notation.{part, specification};
ghost use Rattle.lotos_ast.specs.Reads.{Reads};
ghost use Rattle.lotos_ast.specs.Parsing.{IsParsed};
ghost use Rattle.lotos_ast.specs.Refusals.{IfRefused};
ghost use Rattle.lotos_ast.specs.SpecTrees.{spec_tree};
ghost use Rattle.syntax_cursor.specs.Parsers.{Halts};
ghost use Rattle.behaviour_parser.specs.Specifications.{IsNoSpecification, Fails};

use crate::behaviour::behaviour;
use crate::functionality::functionality;
use crate::process::items;
use data_parser::type_definition::type_definitions;
use lotos_ast::fault::Fault;
use lotos_ast::mark::Mark;
use lotos_ast::nest::Nest;
use lotos_ast::refusal::FrontFault;
use lotos_ast::spec::Spec;
use lotos_ast::token::Token;
use opening_parser::gates::optional_gates;
use std::alloc::Global;
use syntax_cursor::cursor::Cursor;
use syntax_cursor::parse_fault::ParseFault;
use syntax_cursor::refusals::refusal;

/// The specification that the tokens are, all of them.
///
/// Refusals: 3 Unexpected at the first token with which no specification goes on, or behind the last token, where the tokens are
/// only the beginning of one; 27 External in its place, where that token marks an item as external; 4 TooDeep at the first
/// token that is nested too deep.
#[tactic(auto, using(crate::proofs::Specifications::whole_parsed, crate::proofs::Specifications::no_specification))]
pub fn specification(alloc: Global, tokens: &[Token]) -> Result<Spec, FrontFault>
    ensures read { IfOk result (λ spec. IsParsed (part specification) tokens.now (spec_tree spec) []) }
    ensures refused { IfRefused result (IsNoSpecification tokens.now) }
{
    let mut cursor = Cursor::new(alloc, tokens);
    match to_the_end(&mut cursor) {
        Ok(spec) => Ok(spec),
        Err(fault) => Err(refusal(alloc, fault, tokens, cursor.rest())),
    }
}

// A specification, and no token behind it.
#[tactic(auto, using(crate::proofs::Specifications::fails_halting, crate::proofs::Specifications::fails_followed))]
fn to_the_end(cursor: &mut Cursor<'_>) -> Result<Spec, ParseFault>
    ensures read { IfOk result (λ s. Reads outermost (part specification) cursor.old (spec_tree s) []) }
    ensures fails { IfErr result (λ e. Fails e cursor.old cursor.new) }
{
    let spec = one_specification(cursor, Nest::outermost())?;
    match cursor.rest() {
        [] => Ok(spec),
        [next, ..] => Err(ParseFault::Stopped(Fault::at(true, next.mark()))),
    }
}

// A specification.
fn one_specification(cursor: &mut Cursor<'_>, nest: Nest) -> Result<Spec, ParseFault>
    ensures read { IfOk result (λ s. Reads (nesting_of nest) (part specification) cursor.old (spec_tree s) cursor.new) }
    ensures halts { IfErr result (λ e. Halts e (nesting_of nest) (part specification) cursor.old cursor.new) }
    ensures fewer { OnOk result (length cursor.new < length cursor.old) }
{
    let place = cursor.place();
    cursor.pass(nest, Mark::Specification)?;
    let name = cursor.token(nest, Mark::Identifier)?;
    let gates = optional_gates(cursor, nest)?;
    cursor.pass(nest, Mark::Colon)?;
    let functionality = functionality(cursor, nest)?;
    let types = type_definitions(cursor, nest)?;
    cursor.pass(nest, Mark::Behaviour)?;
    let behaviour = behaviour(cursor, nest)?;
    let items = items(cursor, nest)?;
    cursor.pass(nest, Mark::EndSpec)?;
    Ok(Spec {
        place,
        name,
        gates,
        functionality,
        types,
        behaviour: Box::into_inner(behaviour),
        items,
    })
}
