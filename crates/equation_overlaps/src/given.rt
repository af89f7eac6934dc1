// The constant that a premise gives a term.

ghost use Rattle.std.specs.Prelude.{ℕ, ◌≡◌, ◌<◌, ◌^◌, IfNone, IfSome, length};
ghost use Rattle.equation_overlaps.specs.Given.{GivesByForm, GivesToCandidates, candidate, under};
ghost use Rattle.spec_core.specs.Orthogonality.{Gives, DeniesTerm};
ghost use Rattle.spec_core.specs.Terms.{apply, and_term, no_terms, constant, term_of};
ghost use Rattle.spec_core.specs.Theories.{Theory, premise_of, theory_of};

use crate::negation::false_of;
use crate::plain::{is_alone, is_nothing};
use spec_core::constructors::is_constructor;
use spec_core::equation::DataSpec;
use spec_core::items::Op;
use spec_core::term::Term;

// The operation that a term is, if it is one without arguments.
fn constant(term: &Term) -> Option<Op>
    ensures found { IfSome result (λ c. term_of term.now ≡ constant c.0) }
    ensures none { IfNone result ((c : ℕ) → term_of term.now ≡ constant c → ⊥) }
{
    match term {
        Term::Var(_) => None,
        Term::App(op, args) => if is_nothing(args) { Some(*op) } else { None },
    }
}

// The operation that stands over this one argument in the whole term.
fn operation_over(whole: &Term, argument: &Term) -> Option<Op>
    ensures found { IfSome result (λ f. term_of whole.now ≡ apply f.0 (and_term (term_of argument.now) no_terms)) }
    ensures none { IfNone result ((f : ℕ) → term_of whole.now ≡ apply f (and_term (term_of argument.now) no_terms) → ⊥) }
{
    match whole {
        Term::Var(_) => None,
        Term::App(op, args) => if is_alone(args, argument) {
            Some(*op)
        } else {
            None
        },
    }
}

// The library's `false`, where the premise says that its `not` over the term is its `true`.
fn denied(algebra: &DataSpec, premise: &(Term, Term), term: &Term) -> Option<Op>
    requires few { length (theory_of algebra.now).operations < 2 ^ 32 }
    ensures found { IfSome result (λ c. DeniesTerm (theory_of algebra.now) (premise_of premise.now) (term_of term.now) c.0) }
    ensures none { IfNone result ((c : ℕ) → DeniesTerm (theory_of algebra.now) (premise_of premise.now) (term_of term.now) c → ⊥) }
{
    match constant(&premise.1) {
        None => None,
        Some(yes) => match operation_over(&premise.0, term) {
            None => None,
            Some(op) => false_of(algebra, op, yes),
        },
    }
}

// The constant of an equality of the term with a constant.
fn equal_constant(one: &Term, other: &Term, term: &Term) -> Option<Op>
    ensures found { IfSome result (λ c. (term_of one.now ≡ term_of term.now) × (term_of other.now ≡ constant c.0)) }
    ensures none { IfNone result ((c : ℕ) → term_of one.now ≡ term_of term.now → term_of other.now ≡ constant c → ⊥) }
{
    if one.same(term) {
        constant(other)
    } else {
        None
    }
}

// The constant that a premise gives a term by its form, constructor or not.
fn constant_by_form(algebra: &DataSpec, premise: &(Term, Term), term: &Term) -> Option<Op>
    requires few { length (theory_of algebra.now).operations < 2 ^ 32 }
    ensures found { IfSome result (λ c. GivesByForm (theory_of algebra.now) (premise_of premise.now) (term_of term.now) c.0) }
    ensures none { IfNone result ((c : ℕ) → GivesByForm (theory_of algebra.now) (premise_of premise.now) (term_of term.now) c → ⊥) }
{
    match equal_constant(&premise.0, &premise.1, term) {
        Some(found) => Some(found),
        None => match equal_constant(&premise.1, &premise.0, term) {
            Some(found) => Some(found),
            None => denied(algebra, premise, term),
        },
    }
}

/// The constant constructor that a premise gives a term; it gives a term at most one. It takes no memory.
pub fn constant_given(algebra: &DataSpec, premise: &(Term, Term), term: &Term) -> Option<Op>
    requires few { length (theory_of algebra.now).operations < 2 ^ 32 }
    ensures given { IfSome result (λ c. Gives (theory_of algebra.now) (premise_of premise.now) (term_of term.now) c.0) }
    ensures only { IfSome result
        (λ c. (d : ℕ) → Gives (theory_of algebra.now) (premise_of premise.now) (term_of term.now) d → d ≡ c.0) }
    ensures none { IfNone result ((c : ℕ) → Gives (theory_of algebra.now) (premise_of premise.now) (term_of term.now) c → ⊥) }
{
    match constant_by_form(algebra, premise, term) {
        None => None,
        Some(found) => if is_constructor(algebra, found) {
            Some(found)
        } else {
            None
        },
    }
}

// What stands first under a term's operation; the term itself where nothing does.
fn under(term: &Term) -> &Term
    ensures { term_of result.now ≡ under (term_of term.now) }
{
    match term {
        Term::Var(_) => term,
        Term::App(_, args) => if args.is_empty() { term } else { &args[0] },
    }
}

/// One of the terms to which a premise may give a constant: at 0 its left side, at 1 its right side, at any other number what stands
/// first under the left side's operation. To no term else does it give one. It takes no memory.
pub fn candidate(premise: &(Term, Term), number: usize) -> &Term
    ensures term { term_of result.now ≡ candidate (premise_of premise.now) number }
{
    match number {
        0 => &premise.0,
        1 => &premise.1,
        _ => under(&premise.0),
    }
}

/// (A law.) A premise gives a constant to none but its candidates.
pub fn gives_to_candidates()
    ensures law { (theory : Theory) → GivesToCandidates theory }
{}
