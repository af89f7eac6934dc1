// Terms put together from their last operation to the first.

ghost use Rattle.std.specs.Prelude.{◌≡◌, ◌≤◌, ◌<◌, ◌++◌, ◌∷◌, [], ℕ, List, IfOk, IfSome, IfNone, true, false, length, map, reverse};
ghost use Rattle.std.specs.List.{slice_get};
ghost use Rattle.spec_core.specs.Sorts.{OnSome};
ghost use Rattle.spec_core.specs.Terms.{apply, term_of, terms};
ghost use Rattle.spec_core.specs.Theories.{theory_of};
ghost use Rattle.value_terms.specs.Stacks.{IsRead};

use spec_core::equation::DataSpec;
use spec_core::items::Op;
use spec_core::memory::Memory;
use spec_core::term::Term;
use std::alloc::Global;

// So many terms from the top, the last one first, if there are as many.
fn take_arguments(
    alloc: Global,
    stack: &mut Vec<Term>,
    count: usize,
) -> Result<Option<Vec<Term>>, Memory>
    ensures taken { IfOk result (λ o. IfSome o (λ args. stack.old.items ≡ stack.new.items ++ reverse args.items)) }
    ensures counted { IfOk result (λ o. IfSome o (λ args. length args.items ≡ count)) }
    ensures few { IfOk result (λ o. IfNone o (length stack.old.items < count)) }
{
    let mut args = Vec::new(alloc);
    for _turn in 0..count {
        match stack.pop() {
            None => return Ok(None),
            Some(term) => args.push(term)?,
        }
    }
    Ok(Some(args))
}

// How many arguments an operation has, if it is declared.
fn arity(algebra: &DataSpec, op: Op) -> Option<usize>
    ensures some { IfSome result (λ n. OnSome (slice_get (theory_of algebra.now).operations op.0) (λ d. length d.args ≡ n)) }
    ensures none { IfNone result (slice_get (theory_of algebra.now).operations op.0 ≡ None) }
{
    let place = op.0 as usize;
    if place < algebra.signature.ops.len() {
        Some(algebra.signature.ops[place].args.len())
    } else {
        None
    }
}

// Puts the operation over these terms on top.
fn put(stack: &mut Vec<Term>, op: Op, args: Vec<Term>) -> Result<(), Memory>
    ensures { IfOk result (λ _.
        (t : Term) × (stack.new.items ≡ stack.old.items ++ t ∷ []) × (term_of t ≡ apply op.0 (terms (map term_of args.items)))) }
{
    stack.push(Term::App(op, args))?;
    Ok(())
}

/// Puts the operation over as many terms as it has arguments, in their place on the stack; whether there were as many.
pub fn put_operation(
    alloc: Global,
    algebra: &DataSpec,
    stack: &mut Vec<Term>,
    op: Op,
) -> Result<bool, Memory>
    ensures put { IfOk result (λ there. there ≡ true →
        (w : List ℕ) → IsRead (theory_of algebra.now) stack.old.items w → IsRead (theory_of algebra.now) stack.new.items (op.0 ∷ w)) }
    ensures few { IfOk result (λ there. there ≡ false →
        OnSome (slice_get (theory_of algebra.now).operations op.0) (λ d. length d.args ≤ length stack.old.items) → ⊥) }
{
    match arity(algebra, op) {
        None => Ok(false),
        Some(count) => match take_arguments(alloc, stack, count)? {
            None => Ok(false),
            Some(args) => {
                put(stack, op, args)?;
                Ok(true)
            }
        },
    }
}

/// The only term of the stack, if there is just one. It takes no memory.
pub fn only(stack: Vec<Term>) -> Option<Term>
    ensures some { IfSome result (λ term. stack.items ≡ term ∷ []) }
    ensures none { IfNone result (length stack.items ≡ 1 → ⊥) }
{
    let mut left = stack;
    match left.pop() {
        None => None,
        Some(term) => { if left.is_empty() { Some(term) } else { None } }
    }
}
