// The data of a text.

ghost use Rattle.std.specs.Prelude.{ℕ, ◌≤◌, IfOk, List, length};
ghost use Rattle.lotos_ast.specs.Refusals.{IfRefused};
ghost use Rattle.spec_core.specs.Theories.{theory_of};
ghost use Rattle.lotos_front.specs.Accepted.{IsExecutableIn};
ghost use Rattle.lotos_front.specs.FirstRefusals.{IsFirstDataRefusal};
ghost use Rattle.lotos_front.specs.Parsed.{IsLexed};
ghost use Rattle.lotos_front.specs.Stages.{AreTypesIn, IsDataOf};

use crate::check::check;
use crate::types::types_of;
use data_fits::fits_data;
use flattening::flatten::flatten;
use lotos_ast::refusal::FrontFault;
use lotos_ast::token::Token;
use lotos_ast::types::TypeDef;
use lotos_lexer::tokens;
use spec_core::equation::DataSpec;
use static_presentation::presentation;
use std::alloc::Global;

/// The tokens of a text, or its first refusal.
#[tactic(auto, using(crate::proofs::Refusing::unreadable))]
pub fn lex(alloc: Global, text: &[u8]) -> Result<Vec<Token>, FrontFault>
    ensures lexed { IfOk result (λ all. IsLexed text.now all.items) }
    ensures refused { IfRefused result (IsFirstDataRefusal text.now) }
{
    tokens(alloc, text)
}

// The data of types. Or the first refusal of every text with these types. Want of memory is answered where there are 2^32 sorts, operations
// or equations.
#[tactic(auto, using(crate::proofs::Refusing::types_refused, crate::proofs::Refusing::equations_refused))]
fn data_of(alloc: Global, types: &[TypeDef]) -> Result<DataSpec, FrontFault>
    ensures data_of { IfOk result (λ d. IsDataOf types.now (theory_of d)) }
    ensures refused { IfRefused result (λ r. (text : List ℕ) → AreTypesIn text types.now → IsFirstDataRefusal text r) }
{
    let flat = flatten(alloc, types)?;
    let algebra = presentation(alloc, types, &flat)?;
    if !fits_data(&algebra) {
        return Err(FrontFault::Memory);
    }
    Ok(algebra)
}

/// The data of a text with these tokens, which can be run. Or the first refusal of the text, if a part of the front end refuses it before
/// its behaviour is compiled.
#[tactic(auto, using(crate::proofs::Refusing::stages))]
pub fn data(alloc: Global, text: &[u8], tokens: &[Token]) -> Result<DataSpec, FrontFault>
    requires lexed { IsLexed text.now tokens.now }
    ensures executable { IfOk result (λ d. IsExecutableIn text.now (theory_of d)) }
    ensures refused { IfRefused result (IsFirstDataRefusal text.now) }
{
    let types = types_of(alloc, text, tokens)?;
    let algebra = data_of(alloc, &types)?;
    check(alloc, &algebra)?;
    Ok(algebra)
}
