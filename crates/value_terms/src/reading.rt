// The sort of a ground term, and the term that a list of operations spells.

ghost use Rattle.std.specs.Prelude.{◌≡◌, ◌↔◌, IfOk, IfSome, IfNone, IsTrue, map};
ghost use Rattle.spec_core.specs.Constructors.{IsConstructor};
ghost use Rattle.spec_core.specs.Lists.{Each};
ghost use Rattle.spec_core.specs.Numbers.{op_number};
ghost use Rattle.spec_core.specs.Sorts.{HasSort, FitsGround, no_variables};
ghost use Rattle.spec_core.specs.Terms.{TermTree, term_of, preorder};
ghost use Rattle.spec_core.specs.Theories.{theory_of};
ghost use Rattle.value_terms.specs.Spelled.{SpellsTerm};
ghost use Rattle.value_terms.specs.Stacks.{HasArguments};

use crate::stack::{only, put_operation};
use data_fits::{has_sort, head_sort};
use spec_core::constructors::is_constructor;
use spec_core::equation::DataSpec;
use spec_core::items::{Op, Sort};
use spec_core::memory::Memory;
use spec_core::term::Term;
use spec_core::value::Value;
use std::alloc::Global;

/// The sort of a ground term over the signature; None for any other term. It takes no memory, and recurs as deep as the term.
pub fn sort_of_ground(algebra: &DataSpec, term: &Term) -> Option<Sort>
    ensures some { IfSome result (λ sort. HasSort (theory_of algebra.now) no_variables (term_of term.now) sort.0) }
    ensures none { IfNone result (FitsGround (theory_of algebra.now) (term_of term.now) → ⊥) }
{
    match head_sort(term, algebra, &[]) {
        None => None,
        Some(sort) => {
            if is_ground_of(algebra, term, sort) {
                Some(sort)
            } else {
                None
            }
        }
    }
}

// Whether a term is ground and has this sort.
fn is_ground_of(algebra: &DataSpec, term: &Term, sort: Sort) -> bool
    ensures { IsTrue result ↔ HasSort (theory_of algebra.now) no_variables (term_of term.now) sort.0 }
{
    has_sort(term, algebra, &[], sort)
}

/// The ground term of the sort that a list of operations spells; None where it spells none. It is put together without recursion; then it
/// recurs as deep as the term.
pub fn term_of_sort(
    alloc: Global,
    algebra: &DataSpec,
    value: &Value,
    sort: Sort,
) -> Result<Option<Term>, Memory>
    ensures some { IfOk result (λ o. IfSome o (λ term. SpellsTerm (theory_of algebra.now) value.now (term_of term) sort.0)) }
    ensures none { IfOk result (λ o. IfNone o ((t : TermTree) → SpellsTerm (theory_of algebra.now) value.now t sort.0 → ⊥)) }
{
    match term_with(alloc, algebra, value.as_slice())? {
        None => Ok(None),
        Some(term) => if is_ground_of(algebra, &term, sort) {
            Ok(Some(term))
        } else {
            Ok(None)
        },
    }
}

/// The term with these operations in preorder, if there is one with as many arguments at each as it is declared with. It doesn't recur.
pub fn term_with(alloc: Global, algebra: &DataSpec, ops: &[Op]) -> Result<Option<Term>, Memory>
    ensures some { IfOk result (λ o. IfSome o (λ term. map op_number ops.now ≡ preorder (term_of term))) }
    ensures arguments { IfOk result (λ o. IfSome o (λ term. HasArguments (theory_of algebra.now) (term_of term))) }
    ensures none { IfOk result (λ o. IfNone o
        ((t : TermTree) → HasArguments (theory_of algebra.now) t → map op_number ops.now ≡ preorder t → ⊥)) }
{
    let mut stack = Vec::new(alloc);
    let count = ops.len();
    for i in 0..count {
        if !put_operation(alloc, algebra, &mut stack, ops[count - 1 - i])? {
            return Ok(None);
        }
    }
    Ok(only(stack))
}

/// Whether each of the operations is a constructor. It takes no memory.
pub fn are_constructors(algebra: &DataSpec, ops: &[Op]) -> bool
    ensures { IsTrue result ↔ Each (IsConstructor (theory_of algebra.now)) (map op_number ops.now) }
{
    for op in ops {
        if !is_constructor(algebra, *op) {
            return false;
        }
    }
    true
}
