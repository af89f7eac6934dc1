// Equations with one left side up to names of variables.

ghost use Rattle.std.specs.Prelude.{ℕ, ◌≡◌, ◌↔◌, IfOk, OnOk, IsTrue, map};
ghost use Rattle.cover_groups.specs.Fullness.{HaveAtMost};
ghost use Rattle.cover_groups.specs.Groups.{AllFrom, AllGive, HasFullGroup, IsListAdded, premise_instance, premises_of, premises_at};
ghost use Rattle.cover_search.specs.Heads.{equations_at};
ghost use Rattle.cover_search.specs.Indexes.{IsIndexOf};
ghost use Rattle.cover_search.specs.Lefts.{IsLeftIndexOf};
ghost use Rattle.spec_core.specs.Cover.{IsGroup};
ghost use Rattle.spec_core.specs.Lists.{Each, IsOneOf};
ghost use Rattle.spec_core.specs.Orthogonality.{HasNoLooseVariables, IsOrthogonal};
ghost use Rattle.spec_core.specs.Sorts.{FitsData};
ghost use Rattle.spec_core.specs.Substitutions.{substitution_of};
ghost use Rattle.spec_core.specs.Terms.{variable, term_of};
ghost use Rattle.spec_core.specs.Theories.{premise_of, equation_of, theory_of};

use crate::full::is_full;
use crate::renaming::renaming;
use cover_search::{DataIndex, Headed, LeftIndex};
use spec_core::equation::{DataSpec, Equation};
use spec_core::memory::Memory;
use spec_core::term::Term;
use std::alloc::Global;
use value_reference::matching::instantiate;

/// The premises of an equation.
#[derive(Drop)]
pub struct Premises {
    pub items: Vec<(Term, Term)>,
}

// Premises with these terms in place of their variables.
fn instantiated(
    alloc: Global,
    bound: &[Term],
    premises: &[(Term, Term)],
) -> Result<Premises, Memory>
    ensures { IfOk result (λ made.
        premises_of made ≡ map (premise_instance (substitution_of (map term_of bound.now))) (map premise_of premises.now)) }
{
    let mut items = Vec::new(alloc);
    for premise in premises {
        let one = instantiate(alloc, bound, &premise.0)?;
        let other = instantiate(alloc, bound, &premise.1)?;
        items.push((one, other))?;
    }
    Ok(Premises { items })
}

// Adds the premises of an equation under the names of a left side, if that is the equation's up to names.
fn add_list(
    alloc: Global,
    left: &Term,
    equation: &Equation,
    lists: &mut Vec<Premises>,
) -> Result<(), Memory>
    requires applied { (x : ℕ) → term_of left.now ≡ variable x → ⊥ }
    requires closed { HasNoLooseVariables (equation_of equation.now) }
    ensures { OnOk result (IsListAdded (term_of left.now) (equation_of equation.now)
        (map premises_of lists.old.items) (map premises_of lists.new.items)) }
{
    match renaming(alloc, &equation.left, left)? {
        None => Ok(()),
        Some(bound) => {
            lists.push(instantiated(alloc, &bound, &equation.premises)?)?;
            Ok(())
        }
    }
}

// The lists of premises of those of these equations that have this left side, under its names.
fn lists_among(
    alloc: Global,
    equations: &[Headed<'_>],
    left: &Term,
) -> Result<Vec<Premises>, Memory>
    requires applied { (x : ℕ) → term_of left.now ≡ variable x → ⊥ }
    requires closed { Each HasNoLooseVariables (equations_at equations.now) }
    ensures from { IfOk result (λ lists. AllFrom (equations_at equations.now) (term_of left.now) (map premises_of lists.items)) }
    ensures give { IfOk result (λ lists. AllGive (term_of left.now) (map premises_of lists.items) (equations_at equations.now)) }
{
    let mut lists = Vec::new(alloc);
    for one in equations {
        add_list(alloc, left, one.equation, &mut lists)?;
    }
    Ok(lists)
}

// The lists of premises of the equations with an equation's left side, under its names.
fn group_lists(
    alloc: Global,
    algebra: &DataSpec,
    lefts: &LeftIndex<'_>,
    equation: &Equation,
) -> Result<Vec<Premises>, Memory>
    requires applied { (x : ℕ) → (equation_of equation.now).left ≡ variable x → ⊥ }
    requires closed { Each HasNoLooseVariables (theory_of algebra.now).equations }
    requires lefts { IsLeftIndexOf lefts.now (theory_of algebra.now).equations }
    ensures { IfOk result (λ lists. IsGroup (theory_of algebra.now) (equation_of equation.now).left (map premises_of lists.items)) }
{
    match lefts.keyed_as(equation) {
        None => Ok(Vec::new(alloc)),
        Some(keyed) => lists_among(alloc, keyed, &equation.left),
    }
}

// The lists, as slices.
fn slices_of<'a>(alloc: Global, lists: &'a [Premises]) -> Result<Vec<&'a [(Term, Term)]>, Memory>
    ensures { IfOk result (λ all. map premises_at all.items ≡ map premises_of lists.now) }
{
    let mut all: Vec<&'a [(Term, Term)]> = Vec::new(alloc);
    for list in lists {
        all.push(&list.items)?;
    }
    Ok(all)
}

// The length of the longest list.
fn longest(lists: &[&[(Term, Term)]]) -> usize
    ensures { HaveAtMost result (map premises_at lists.now) }
{
    match lists {
        [] => 0,
        [first, rest @ ..] => {
            let other = longest(rest);
            if first.len() < other {
                other
            } else {
                first.len()
            }
        }
    }
}

/// Whether the equations with an equation's left side, up to names of variables, have full lists of premises.
pub fn has_full_group(
    alloc: Global,
    algebra: &DataSpec,
    index: &DataIndex<'_>,
    equation: &Equation,
) -> Result<bool, Memory>
    requires fits { FitsData (theory_of algebra.now) }
    requires orthogonal { IsOrthogonal (theory_of algebra.now) }
    requires index { IsIndexOf index.now (theory_of algebra.now) }
    requires listed { IsOneOf (equation_of equation.now) (theory_of algebra.now).equations }
    ensures decides { IfOk result (λ full. IsTrue full ↔ HasFullGroup (theory_of algebra.now) (equation_of equation.now)) }
{
    let lists = group_lists(alloc, algebra, &index.lefts, equation)?;
    let all = slices_of(alloc, &lists)?;
    is_full(longest(&all), &all, alloc, algebra, index, &equation.vars)
}
