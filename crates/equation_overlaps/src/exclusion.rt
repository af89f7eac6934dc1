// Premises that can't hold together.

ghost use Rattle.std.specs.Prelude.{◌↔◌, ◌<◌, ◌^◌, IsTrue, map, length};
ghost use Rattle.equation_overlaps.specs.Exclusion.{ClashAt, Clash, SomeClash, CannotHold};
ghost use Rattle.spec_core.specs.Lists.{OneOf};
ghost use Rattle.spec_core.specs.Terms.{term_of};
ghost use Rattle.spec_core.specs.Theories.{premise_of, theory_of};

use crate::{candidate, constant_given};
use spec_core::equation::DataSpec;
use spec_core::term::Term;

// Whether two premises give a term two different constants.
fn clash_at(algebra: &DataSpec, one: &(Term, Term), other: &(Term, Term), term: &Term) -> bool
    requires few { length (theory_of algebra.now).operations < 2 ^ 32 }
    ensures { IsTrue result ↔ ClashAt (theory_of algebra.now) (premise_of one.now) (premise_of other.now) (term_of term.now) }
{
    match constant_given(algebra, one, term) {
        None => false,
        Some(c) => match constant_given(algebra, other, term) {
            None => false,
            Some(d) => c.0 != d.0,
        },
    }
}

// Whether two premises give one term two different constants.
fn clash(algebra: &DataSpec, one: &(Term, Term), other: &(Term, Term)) -> bool
    requires few { length (theory_of algebra.now).operations < 2 ^ 32 }
    ensures { IsTrue result ↔ Clash (theory_of algebra.now) (premise_of one.now) (premise_of other.now) }
{
    clash_at(algebra, one, other, candidate(one, 0))
        || clash_at(algebra, one, other, candidate(one, 1))
        || clash_at(algebra, one, other, candidate(one, 2))
}

// Whether a premise and one of a list do.
fn clashes_with(algebra: &DataSpec, one: &(Term, Term), others: &[(Term, Term)]) -> bool
    requires few { length (theory_of algebra.now).operations < 2 ^ 32 }
    ensures { IsTrue result ↔ OneOf (Clash (theory_of algebra.now) (premise_of one.now)) (map premise_of others.now) }
{
    for other in others {
        if clash(algebra, one, other) {
            return true;
        }
    }
    false
}

// Whether a premise of one list and a premise of another give one term two different constants.
fn some_clash(algebra: &DataSpec, ones: &[(Term, Term)], others: &[(Term, Term)]) -> bool
    requires few { length (theory_of algebra.now).operations < 2 ^ 32 }
    ensures { IsTrue result ↔ SomeClash (theory_of algebra.now) (map premise_of ones.now) (map premise_of others.now) }
{
    for one in ones {
        if clashes_with(algebra, one, others) {
            return true;
        }
    }
    false
}

/// Whether two of the premises of two lists give one term two different constants. It takes no memory.
pub fn cannot_hold(algebra: &DataSpec, ones: &[(Term, Term)], others: &[(Term, Term)]) -> bool
    requires few { length (theory_of algebra.now).operations < 2 ^ 32 }
    ensures decides { IsTrue result ↔ CannotHold (theory_of algebra.now) (map premise_of ones.now) (map premise_of others.now) }
{
    some_clash(algebra, ones, ones)
        || some_clash(algebra, ones, others)
        || some_clash(algebra, others, others)
}
