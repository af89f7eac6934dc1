// Tokens read as a specification.

ghost use Rattle.std.specs.Prelude.{◌≡◌, ◌≤◌, IfOk, length};
ghost use Rattle.lotos_ast.specs.Refusals.{IfRefused};
ghost use Rattle.lotos_ast.specs.Tokenizes.{text_limit};
ghost use Rattle.lotos_front.specs.Parsed as parsed;
ghost use Rattle.lotos_front.specs.Parsed.{IsSpecification, IsUnparsed, names_end};

use behaviour_parser::specification;
use lotos_ast::place::Place;
use lotos_ast::refusal::{FrontFault, Refusal};
use lotos_ast::spec::Spec;
use lotos_ast::token::Token;
use spec_core::name::Name;
use std::alloc::Global;

// Whether a refusal with these names is at the end of the text.
fn names_end(names: &[Name]) -> bool
    ensures { result ≡ parsed.names_end names.now }
{
    match names {
        [] => false,
        [name] => name.as_str() == "end of text",
        [_, _, ..] => false,
    }
}

// A refusal at the end of the tokens, at the end of their text; any other stays where it is.
fn in_text(text: &[u8], refusal: Refusal) -> Refusal
    requires short { length text.now ≤ text_limit }
    ensures { result ≡ parsed.in_text text.now refusal }
{
    if names_end(refusal.names.as_slice()) {
        Refusal {
            kind: refusal.kind,
            place: Place::START.after(text),
            names: refusal.names,
        }
    } else {
        refusal
    }
}

/// The specification that the tokens of a text are. Or the refusal of the text: 3 Unexpected, 4 TooDeep or 27 External. Where the text ends
/// too early, that is at its end.
#[tactic(auto, using(crate::proofs::Refusing::no_specification))]
pub fn parse(alloc: Global, text: &[u8], tokens: &[Token]) -> Result<Spec, FrontFault>
    requires short { length text.now ≤ text_limit }
    ensures read { IfOk result (λ spec. IsSpecification tokens.now spec) }
    ensures refused { IfRefused result (IsUnparsed text.now tokens.now) }
{
    match specification(alloc, tokens) {
        Ok(spec) => Ok(spec),
        Err(FrontFault::Refused(refusal)) => Err(FrontFault::Refused(in_text(text, refusal))),
        Err(FrontFault::Memory) => Err(FrontFault::Memory),
    }
}
