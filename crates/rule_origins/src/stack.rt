// Terms put together from their last operation to the first.

ghost use Rattle.std.specs.Prelude.{◌≡◌, ◌++◌, ◌∷◌, [], IfOk, IfSome, IfNone, length, map, take, drop};
ghost use Rattle.spec_core.specs.Terms.{term_of, apply, terms};
ghost use Rattle.spec_core.specs.Theories.{theory_of};
ghost use Rattle.rule_origins.specs.Stacks.{from_top};
ghost use Rattle.rule_origins.specs.Values.{arity, in_front};

use spec_core::equation::DataSpec;
use spec_core::items::Op;
use spec_core::memory::Memory;
use spec_core::term::Term;
use std::alloc::Global;

// How many arguments an operation has; none where it isn't declared.
fn arguments(algebra: &DataSpec, op: Op) -> usize
    ensures { result ≡ arity (theory_of algebra.now) op.0 }
{
    match algebra.signature.ops.get(op.0 as usize) {
        None => 0,
        Some(declared) => declared.args.len(),
    }
}

/// The term on top of a stack, taken away.
#[tactic(auto, using(crate::proofs::Stacks::pushed, crate::proofs::Stacks::emptied))]
pub fn pop(stack: &mut Vec<Term>) -> Option<Term>
    ensures some { IfSome result (λ t. from_top stack.old.items ≡ term_of t ∷ from_top stack.new.items) }
    ensures none { IfNone result (from_top stack.old.items ≡ []) }
    ensures empty { IfNone result (from_top stack.new.items ≡ []) }
{
    stack.pop()
}

// So many terms from the top, or all where there are fewer.
#[tactic(auto, using(crate::proofs::Stacks::stack_rows))]
fn take_arguments(alloc: Global, stack: &mut Vec<Term>, count: usize) -> Result<Vec<Term>, Memory>
    ensures taken { IfOk result (λ args. map term_of args.items ≡ take count (from_top stack.old.items)) }
    ensures left { IfOk result (λ _. from_top stack.new.items ≡ drop count (from_top stack.old.items)) }
{
    let mut args = Vec::new(alloc);
    for _turn in 0..count {
        match pop(stack) {
            None => return Ok(args),
            Some(term) => args.push(term)?,
        }
    }
    Ok(args)
}

/// Puts the operation over as many terms as it has arguments, in their place on the stack.
#[tactic(auto, using(crate::proofs::Stacks::pushed))]
pub fn put_operation(
    alloc: Global,
    algebra: &DataSpec,
    stack: &mut Vec<Term>,
    op: Op,
) -> Result<(), Memory>
    ensures put { IfOk result (λ _. from_top stack.new.items ≡ in_front (theory_of algebra.now) op.0 (from_top stack.old.items)) }
{
    let count = arguments(algebra, op);
    let args = take_arguments(alloc, stack, count)?;
    stack.push(Term::App(op, args))?;
    Ok(())
}
