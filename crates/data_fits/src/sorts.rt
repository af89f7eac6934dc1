// The sorts of terms.

ghost use Rattle.std.specs.Prelude.{◌≡◌, ◌↔◌, IfNone, IfSome, IsTrue, None, Some, map, option_map};
ghost use Rattle.std.specs.List.{slice_get};
ghost use Rattle.data_fits.specs.Heads.{head_sort, result_of};
ghost use Rattle.spec_core.specs.Numbers.{sort_number};
ghost use Rattle.spec_core.specs.Sorts.{HasSort, HaveSorts};
ghost use Rattle.spec_core.specs.Terms.{term_of, terms};
ghost use Rattle.spec_core.specs.Theories.{operation_of, theory_of};

use spec_core::equation::DataSpec;
use spec_core::items::{Op, Sort};
use spec_core::signature::OpDecl;
use spec_core::term::Term;

// The sort of a variable.
fn variable_sort(vars: &[Sort], x: u32) -> Option<Sort>
    ensures { option_map sort_number result ≡ slice_get (map sort_number vars.now) x }
{
    let place = x as usize;
    if place < vars.len() {
        Some(vars[place])
    } else {
        None
    }
}

// The sort of an operation's results.
fn result_sort(algebra: &DataSpec, op: Op) -> Option<Sort>
    ensures { option_map sort_number result ≡ option_map result_of (slice_get (theory_of algebra.now).operations op.0) }
{
    let place = op.0 as usize;
    if place < algebra.signature.ops.len() {
        Some(algebra.signature.ops[place].result)
    } else {
        None
    }
}

/// The sort that a term over variables of these sorts has, if it has one. It takes no memory.
pub fn head_sort(term: &Term, algebra: &DataSpec, vars: &[Sort]) -> Option<Sort>
    ensures { option_map sort_number result ≡ head_sort (theory_of algebra.now) (slice_get (map sort_number vars.now)) (term_of term.now) }
{
    match term {
        Term::Var(x) => variable_sort(vars, *x),
        Term::App(op, _) => result_sort(algebra, *op),
    }
}

// Whether a variable has this sort.
fn is_variable_of(vars: &[Sort], x: u32, sort: Sort) -> bool
    ensures { IsTrue result ↔ (slice_get (map sort_number vars.now) x ≡ Some sort.0) }
{
    match variable_sort(vars, x) {
        None => false,
        Some(found) => found.0 == sort.0,
    }
}

// The declaration of an operation.
fn declaration(algebra: &DataSpec, op: Op) -> Option<&OpDecl>
    ensures some { IfSome result (λ d. slice_get (theory_of algebra.now).operations op.0 ≡ Some (operation_of d.now)) }
    ensures none { IfNone result (slice_get (theory_of algebra.now).operations op.0 ≡ None) }
{
    let place = op.0 as usize;
    if place < algebra.signature.ops.len() {
        Some(&algebra.signature.ops[place])
    } else {
        None
    }
}

/// Whether a term over variables of these sorts has this sort. It takes no memory.
#[cycle(sorts)]
pub fn has_sort(term: &Term, algebra: &DataSpec, vars: &[Sort], sort: Sort) -> bool
    ensures { IsTrue result ↔ HasSort (theory_of algebra.now) (slice_get (map sort_number vars.now)) (term_of term.now) sort.0 }
{
    match term {
        Term::Var(x) => is_variable_of(vars, *x, sort),
        Term::App(op, args) => match declaration(algebra, *op) {
            None => false,
            Some(declared) => {
                if declared.result.0 != sort.0 {
                    return false;
                }
                have_sorts(args, algebra, vars, &declared.args)
            }
        },
    }
}

// Whether the terms of a list have these sorts, one by one.
#[cycle(sorts)]
fn have_sorts(all: &[Term], algebra: &DataSpec, vars: &[Sort], sorts: &[Sort]) -> bool
    ensures { IsTrue result ↔ HaveSorts (theory_of algebra.now) (slice_get (map sort_number vars.now))
        (terms (map term_of all.now)) (map sort_number sorts.now) }
{
    if all.len() != sorts.len() {
        return false;
    }
    for (i, term) in all.iter().enumerate() {
        if !has_sort(term, algebra, vars, sorts[i]) {
            return false;
        }
    }
    true
}
