//! Specifications for tests, read by the front end.
#![tactic(auto)]

ghost use Rattle.std.specs.Prelude.{IfOk, IfSome};
ghost use Rattle.spec_core.specs.Code.{program_of};
ghost use Rattle.spec_core.specs.Ready.{IsReady};

use front_laws::accepted::accepted_is_ready;
use lotos_ast::refusal::FrontFault;
use lotos_front::accept;
use spec_core::code::Checked;
use spec_core::memory::Memory;
use std::alloc::Global;

/// The program of a text; None where it is refused.
pub fn accepted(alloc: Global, text: &str) -> Result<Option<Checked>, Memory>
    ensures ready { IfOk result (λ o. IfSome o (λ checked. IsReady (program_of checked))) }
{
    accepted_is_ready();
    match accept(alloc, text.as_bytes()) {
        Ok(checked) => Ok(Some(checked)),
        Err(FrontFault::Refused(_)) => Ok(None),
        Err(FrontFault::Memory) => Err(Memory),
    }
}

// Two truth values; natural numbers, with the number before one; and trees, with the tree that has one twice.
const OPERATIONS: &str =
    "opns t : -> B f : -> B 0 : -> N s : N -> N p : N -> N z : -> T c : T, T -> T w : T -> T";

const EQUATIONS: &str =
    "eqns forall x : N, y : T ofsort N p(0) = 0; p(s(x)) = x; ofsort T w(y) = c(y, y);";

/// The specification with this functionality and this behaviour, over three gates, and over truth values, numbers and trees.
pub fn over_small_data(
    alloc: Global,
    ends: &str,
    behaviour: &str,
) -> Result<Option<Checked>, Memory>
    ensures ready { IfOk result (λ o. IfSome o (λ checked. IsReady (program_of checked))) }
{
    let operations = OPERATIONS;
    let equations = EQUATIONS;
    let data = format!(in alloc; "type Data is sorts B, N, T {operations} {equations} endtype")?;
    let text = format!(in alloc;
        "specification S [a, b, c] : {ends} {data} behaviour {behaviour} endspec"
    )?;
    accepted(alloc, text.as_str())
}
