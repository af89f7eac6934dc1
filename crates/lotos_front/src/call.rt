// The call.

ghost use Rattle.std.specs.Prelude.{IfOk};
ghost use Rattle.lotos_ast.specs.Refusals.{IfRefused};
ghost use Rattle.spec_core.specs.Code.{program_of};
ghost use Rattle.spec_core.specs.Theories.{theory_of};
ghost use Rattle.lotos_front.specs.Accepted.{IsExecutableIn};
ghost use Rattle.lotos_front.specs.Answers.{IsAccepted, IsFirstRefusal};
ghost use Rattle.lotos_front.specs.Parsed.{IsLexed, IsSpecification};

use crate::data::{data, lex};
use crate::parsed::parse;
use lotos_ast::refusal::FrontFault;
use lotos_ast::spec::Spec;
use lotos_ast::token::Token;
use spec_core::code::Checked;
use spec_core::equation::DataSpec;
use static_check::compile::compile;
use std::alloc::Global;

// The specification that a text with these tokens is.
#[tactic(auto, using(crate::proofs::Refusing::answers))]
fn read(alloc: Global, text: &[u8], tokens: &[Token]) -> Result<Spec, FrontFault>
    requires lexed { IsLexed text.now tokens.now }
    ensures read { IfOk result (λ spec. IsSpecification tokens.now spec) }
    ensures refused { IfRefused result (IsFirstRefusal text.now) }
{
    match parse(alloc, text, tokens) {
        Ok(spec) => Ok(spec),
        Err(FrontFault::Refused(refusal)) => Err(FrontFault::Refused(refusal)),
        Err(FrontFault::Memory) => Err(FrontFault::Memory),
    }
}

// The program that a text with these tokens is compiled to, over data that can be run.
#[tactic(auto, using(crate::proofs::Refusing::answers))]
fn compiled_over(
    alloc: Global,
    text: &[u8],
    tokens: &[Token],
    algebra: &DataSpec,
) -> Result<Checked, FrontFault>
    requires lexed { IsLexed text.now tokens.now }
    requires executable { IsExecutableIn text.now (theory_of algebra.now) }
    ensures accepted { IfOk result (λ checked. IsAccepted text.now (program_of checked)) }
    ensures refused { IfRefused result (IsFirstRefusal text.now) }
{
    let spec = read(alloc, text, tokens)?;
    match compile(alloc, &spec, algebra) {
        Ok(checked) => Ok(checked),
        Err(FrontFault::Refused(refusal)) => Err(FrontFault::Refused(refusal)),
        Err(FrontFault::Memory) => Err(FrontFault::Memory),
    }
}

#[tactic(auto, using(crate::proofs::Refusing::answers))]
fn compiled(alloc: Global, text: &[u8], tokens: &[Token]) -> Result<Checked, FrontFault>
    requires lexed { IsLexed text.now tokens.now }
    ensures accepted { IfOk result (λ checked. IsAccepted text.now (program_of checked)) }
    ensures refused { IfRefused result (IsFirstRefusal text.now) }
{
    let algebra = data(alloc, text, tokens)?;
    compiled_over(alloc, text, tokens, &algebra)
}

/// The program that a text is compiled to. Or its first refusal: the parts of the front end judge it one after another, lexing, parsing,
/// flattening of types, overloads of equations, the data's shape and decrease, and last the behaviour; the first part that refuses
/// it answers, and in that part the earliest place, then the smallest number. Want of memory is answered, too, where there are 2^32 or
/// more of anything.
#[tactic(auto, using(crate::proofs::Refusing::answers))]
pub fn accept(alloc: Global, text: &[u8]) -> Result<Checked, FrontFault>
    ensures accepted { IfOk result (λ checked. IsAccepted text.now (program_of checked)) }
    ensures refused { IfRefused result (IsFirstRefusal text.now) }
{
    let tokens = lex(alloc, text)?;
    compiled(alloc, text, &tokens)
}
