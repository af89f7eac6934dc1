// Lists of premises, and what they begin with.

ghost use Rattle.std.specs.Prelude.{ℕ, ◌≡◌, ◌↔◌, IfNone, IfOk, IfSome, IsTrue, [], List, map};
ghost use Rattle.cover_groups.specs.Fullness.{Begins, BeginsWith, IsFirstOf, IsFirstPremise};
ghost use Rattle.cover_groups.specs.Groups.{premises_at};
ghost use Rattle.spec_core.specs.Cover.{BeginWithConstants, IsAfter};
ghost use Rattle.spec_core.specs.Lists.{OneOf};
ghost use Rattle.spec_core.specs.Sorts.{FitsData};
ghost use Rattle.spec_core.specs.Terms.{term_of};
ghost use Rattle.spec_core.specs.Theories.{Premise, premise_of, theory_of};

use equation_overlaps::constant_given;
use spec_core::equation::DataSpec;
use spec_core::items::Op;
use spec_core::memory::Memory;
use spec_core::term::Term;
use std::alloc::Global;

/// Whether one of the lists is empty. It takes no memory.
pub fn has_empty(lists: &[&[(Term, Term)]]) -> bool
    ensures decides { IsTrue result ↔ OneOf (λ l. l ≡ []) (map premises_at lists.now) }
{
    match lists {
        [] => false,
        [first, rest @ ..] => first.is_empty() || has_empty(rest),
    }
}

// The first premise of a list.
fn first_of(list: &[(Term, Term)]) -> Option<&(Term, Term)>
    ensures some { IfSome result (λ p. IsFirstOf (map premise_of list.now) (premise_of p.now)) }
    ensures none { IfNone result (map premise_of list.now ≡ []) }
{
    match list {
        [] => None,
        [first, ..] => Some(first),
    }
}

/// The first premise of the first list, where no list is empty. It takes no memory.
pub fn first_premise<'a>(lists: &[&'a [(Term, Term)]]) -> Option<&'a (Term, Term)>
    requires filled { OneOf (λ l. l ≡ []) (map premises_at lists.now) → ⊥ }
    ensures some { IfSome result (λ p. IsFirstPremise (map premises_at lists.now) (premise_of p.now)) }
    ensures none { IfNone result (map premises_at lists.now ≡ []) }
{
    match lists {
        [] => None,
        [first, ..] => first_of(first),
    }
}

// Whether a list begins by giving the term a constant.
fn begins(algebra: &DataSpec, list: &[(Term, Term)], term: &Term) -> bool
    requires fits { FitsData (theory_of algebra.now) }
    ensures { IsTrue result ↔ Begins (theory_of algebra.now) (term_of term.now) (map premise_of list.now) }
{
    match list {
        [] => false,
        [first, ..] => match constant_given(algebra, first, term) {
            None => false,
            Some(_) => true,
        },
    }
}

/// Whether all lists begin by giving the term a constant. It takes no memory.
pub fn all_begin(algebra: &DataSpec, lists: &[&[(Term, Term)]], term: &Term) -> bool
    requires fits { FitsData (theory_of algebra.now) }
    ensures decides { IsTrue result ↔ BeginWithConstants (theory_of algebra.now) (term_of term.now) (map premises_at lists.now) }
{
    match lists {
        [] => true,
        [first, rest @ ..] => begins(algebra, first, term) && all_begin(algebra, rest, term),
    }
}

// What stands behind the first premise of a list, if that gives the term this constant.
fn rest_after<'a>(
    algebra: &DataSpec,
    list: &'a [(Term, Term)],
    term: &Term,
    constant: Op,
) -> Option<&'a [(Term, Term)]>
    requires fits { FitsData (theory_of algebra.now) }
    ensures some { IfSome result (λ rest.
        BeginsWith (theory_of algebra.now) (term_of term.now) constant.0 (map premise_of list.now) (premises_at rest)) }
    ensures none { IfNone result ((rest : List Premise) →
        BeginsWith (theory_of algebra.now) (term_of term.now) constant.0 (map premise_of list.now) rest → ⊥) }
{
    match list {
        [] => None,
        [first, rest @ ..] => match constant_given(algebra, first, term) {
            None => None,
            Some(found) => if found.0 == constant.0 {
                Some(rest)
            } else {
                None
            },
        },
    }
}

/// The lists that begin by giving the term this constant, without that premise.
pub fn after<'a>(
    alloc: Global,
    algebra: &DataSpec,
    lists: &[&'a [(Term, Term)]],
    term: &Term,
    constant: Op,
) -> Result<Vec<&'a [(Term, Term)]>, Memory>
    requires fits { FitsData (theory_of algebra.now) }
    requires begin { BeginWithConstants (theory_of algebra.now) (term_of term.now) (map premises_at lists.now) }
    ensures after { IfOk result (λ rest.
        IsAfter (theory_of algebra.now) (term_of term.now) constant.0 (map premises_at lists.now) (map premises_at rest.items)) }
{
    let mut all = Vec::new(alloc);
    for list in lists {
        if let Some(rest) = rest_after(algebra, list, term, constant) {
            all.push(rest)?;
        }
    }
    Ok(all)
}
