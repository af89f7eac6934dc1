// Whether data fit together.

ghost use Rattle.std.specs.Prelude.{◌↔◌, IsTrue, map};
ghost use Rattle.std.specs.List.{slice_get};
ghost use Rattle.spec_core.specs.Lists.{Each};
ghost use Rattle.spec_core.specs.Numbers.{sort_number};
ghost use Rattle.spec_core.specs.Sorts.{EquationFits, FitsData, HaveOneSort, IsDeclaredSort, OperationFits, PremiseFits};
ghost use Rattle.spec_core.specs.Terms.{term_of};
ghost use Rattle.spec_core.specs.Theories.{equation_of, operation_of, premise_of, theory_of};

use crate::sorts::{has_sort, head_sort};
use spec_core::equation::{DataSpec, Equation};
use spec_core::items::Sort;
use spec_core::signature::OpDecl;
use spec_core::term::Term;

const FEW: usize = 4_294_967_296;

// Whether the sort is of the signature.
fn is_declared(algebra: &DataSpec, sort: Sort) -> bool
    ensures { IsTrue result ↔ IsDeclaredSort (theory_of algebra.now) sort.0 }
{
    (sort.0 as usize) < algebra.signature.sorts.len()
}

// Whether all sorts of a list are.
fn are_declared(algebra: &DataSpec, sorts: &[Sort]) -> bool
    ensures { IsTrue result ↔ Each (IsDeclaredSort (theory_of algebra.now)) (map sort_number sorts.now) }
{
    match sorts {
        [] => true,
        [first, rest @ ..] => is_declared(algebra, *first) && are_declared(algebra, rest),
    }
}

// Whether each sort of an operation is.
fn operation_fits(algebra: &DataSpec, declared: &OpDecl) -> bool
    ensures { IsTrue result ↔ OperationFits (theory_of algebra.now) (operation_of declared.now) }
{
    is_declared(algebra, declared.result) && are_declared(algebra, &declared.args)
}

// Whether each sort of all operations of a list is.
fn operations_fit(algebra: &DataSpec, all: &[OpDecl]) -> bool
    ensures { IsTrue result ↔ Each (OperationFits (theory_of algebra.now)) (map operation_of all.now) }
{
    match all {
        [] => true,
        [first, rest @ ..] => operation_fits(algebra, first) && operations_fit(algebra, rest),
    }
}

// Whether two terms have one sort.
fn have_one_sort(algebra: &DataSpec, vars: &[Sort], one: &Term, other: &Term) -> bool
    ensures { IsTrue result ↔
        HaveOneSort (theory_of algebra.now) (slice_get (map sort_number vars.now)) (term_of one.now) (term_of other.now) }
{
    match head_sort(one, algebra, vars) {
        None => false,
        Some(sort) => {
            if !has_sort(one, algebra, vars, sort) {
                return false;
            }
            has_sort(other, algebra, vars, sort)
        }
    }
}

// Whether a premise is of two terms of one sort.
fn premise_fits(algebra: &DataSpec, vars: &[Sort], premise: &(Term, Term)) -> bool
    ensures { IsTrue result ↔ PremiseFits (theory_of algebra.now) (slice_get (map sort_number vars.now)) (premise_of premise.now) }
{
    have_one_sort(algebra, vars, &premise.0, &premise.1)
}

// Whether each premise of a list is.
fn premises_fit(algebra: &DataSpec, vars: &[Sort], all: &[(Term, Term)]) -> bool
    ensures { IsTrue result ↔ Each (PremiseFits (theory_of algebra.now) (slice_get (map sort_number vars.now))) (map premise_of all.now) }
{
    match all {
        [] => true,
        [first, rest @ ..] => premise_fits(algebra, vars, first)
            && premises_fit(algebra, vars, rest),
    }
}

// Whether an equation's variables have names and sorts, and its sides, as those of each premise, are of one sort.
fn equation_fits(algebra: &DataSpec, equation: &Equation) -> bool
    ensures { IsTrue result ↔ EquationFits (theory_of algebra.now) (equation_of equation.now) }
{
    if equation.names.len() != equation.vars.len() {
        return false;
    }
    if !are_declared(algebra, &equation.vars) {
        return false;
    }
    if !have_one_sort(algebra, &equation.vars, &equation.left, &equation.right) {
        return false;
    }
    premises_fit(algebra, &equation.vars, &equation.premises)
}

// Whether each equation of a list does.
fn equations_fit(algebra: &DataSpec, all: &[Equation]) -> bool
    ensures { IsTrue result ↔ Each (EquationFits (theory_of algebra.now)) (map equation_of all.now) }
{
    for equation in all {
        if !equation_fits(algebra, equation) {
            return false;
        }
    }
    true
}

/// Whether the parts of data fit together: there are fewer than 2^32 of each kind, operations are over declared sorts, and the sides of
/// equations and of premises are terms of one sort. It takes no memory.
pub fn fits_data(algebra: &DataSpec) -> bool
    ensures decides { IsTrue result ↔ FitsData (theory_of algebra.now) }
{
    if algebra.signature.sorts.len() >= FEW {
        return false;
    }
    if algebra.signature.ops.len() >= FEW {
        return false;
    }
    if algebra.equations.len() >= FEW {
        return false;
    }
    if !operations_fit(algebra, &algebra.signature.ops) {
        return false;
    }
    equations_fit(algebra, &algebra.equations)
}
