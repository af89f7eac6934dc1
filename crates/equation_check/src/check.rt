// The check that data are orthogonal.

ghost use Rattle.std.specs.Prelude.{ℕ, ◌≡◌, ◌++◌, ◌∷◌, ◌<◌, ◌^◌, [], IfOk, OnOk, List, map, length, vec_len};
ghost use Rattle.equation_check.specs.Groups.{AreGroups, IsIndexed};
ghost use Rattle.equation_check.specs.Shape.{IsAnswerOf, IsFirstRefusal, listed, overlap_of};
ghost use Rattle.equation_faults.specs.Faults.{AreHeads};
ghost use Rattle.lotos_ast.specs.Refusals.{IfRefused};
ghost use Rattle.spec_core.specs.Lists.{Each, IsOneOf};
ghost use Rattle.spec_core.specs.Orthogonality.{IsOrthogonal};
ghost use Rattle.spec_core.specs.Theories.{ConditionalEquation, theory_of, equation_of};

use crate::groups::{Group, add_to_group, first_overlapped, no_groups};
use equation_faults::fault::{fault_of, refusal_naming};
use equation_faults::heads::heads;
use equation_overlaps::common::common_text;
use equation_sets::set::NumberSet;
use lotos_ast::first_refusal::first_refusal;
use lotos_ast::refusal::{FrontFault, Refusal, RefusalKind};
use spec_core::equation::{DataSpec, Equation};
use spec_core::memory::Memory;
use spec_core::term::Term;
use std::alloc::Global;

/// Whether the data are orthogonal: each equation is a left-linear constructor equation without loose variables, and is apart from each
/// other one. If they aren't, the first refusal of 15 ConstructorHasEquation, 16 PatternHasDefined, 17 NotLeftLinear, 18 LooseVariable
/// and 19 Overlap: by place, at one place by its number, and then by the number of the equation.
pub fn check_shape(alloc: Global, algebra: &DataSpec) -> Result<(), FrontFault>
    requires few { length (theory_of algebra.now).operations < 2 ^ 32 }
    ensures orthogonal { IfOk result (λ _. IsOrthogonal (theory_of algebra.now)) }
    ensures refused { IfRefused result (IsFirstRefusal (theory_of algebra.now)) }
    ensures not_orthogonal { IfRefused result (λ _. IsOrthogonal (theory_of algebra.now) → ⊥) }
{
    let heads = heads(alloc, algebra)?;
    let count = heads.bound();
    let mut groups = no_groups(alloc, count)?;
    let mut refusals = Vec::new(alloc);
    for equation in &algebra.equations {
        let answer = refusal_of(alloc, algebra, &heads, equation, &mut groups)?;
        add(&mut refusals, answer)?;
    }
    match first_refusal(refusals) {
        Some(refusal) => Err(FrontFault::Refused(refusal)),
        None => Ok(()),
    }
}

// Adds a refusal, if there is one.
fn add(refusals: &mut Vec<Refusal>, answer: Option<Refusal>) -> Result<(), Memory>
    ensures { OnOk result (refusals.new.items ≡ refusals.old.items ++ listed answer) }
{
    if let Some(refusal) = answer {
        refusals.push(refusal)?;
    }
    Ok(())
}

// The refusal of an equation, where `groups` has the well-formed equations before it; it is put there if it is well-formed.
fn refusal_of<'a>(
    alloc: Global,
    algebra: &DataSpec,
    heads: &NumberSet,
    equation: &'a Equation,
    groups: &mut Vec<Group<'a>>,
) -> Result<Option<Refusal>, Memory>
    requires few { length (theory_of algebra.now).operations < 2 ^ 32 }
    requires heads { AreHeads (theory_of algebra.now) heads.now }
    requires listed { IsOneOf (equation_of equation.now) (theory_of algebra.now).equations }
    requires sized { vec_len groups.now ≡ length heads.now }
    requires grouped { (before : List ConditionalEquation) × AreGroups (theory_of algebra.now) before groups.now.items }
    requires indexed { Each IsIndexed groups.old.items }
    ensures indexed { OnOk result (Each IsIndexed groups.new.items) }
    ensures sized { OnOk result (vec_len groups.new ≡ vec_len groups.old) }
    ensures grouped { OnOk result ((before : List ConditionalEquation) →
        AreGroups (theory_of algebra.now) before groups.old.items →
        AreGroups (theory_of algebra.now) (before ++ equation_of equation.now ∷ []) groups.new.items) }
    ensures answer { IfOk result (λ answer. (before : List ConditionalEquation) →
        AreGroups (theory_of algebra.now) before groups.old.items →
        IsAnswerOf (theory_of algebra.now) before (equation_of equation.now) answer) }
{
    if let Some(fault) = fault_of(alloc, algebra, heads, equation)? {
        return Ok(Some(fault));
    }
    match &equation.left {
        Term::Var(_) => Ok(None),
        Term::App(op, _) => {
            let place = op.0 as usize;
            let found = first_overlapped(alloc, algebra, &groups[place], equation)?;
            add_to_group(groups, place, equation)?;
            match found {
                None => Ok(None),
                Some(earlier) => Ok(Some(overlap(alloc, algebra, earlier, equation)?)),
            }
        }
    }
}

// The refusal of an equation that overlaps an earlier one.
fn overlap(
    alloc: Global,
    algebra: &DataSpec,
    earlier: &Equation,
    later: &Equation,
) -> Result<Refusal, Memory>
    ensures { IfOk result (λ r. r ≡ overlap_of (theory_of algebra.now) (equation_of earlier.now) (equation_of later.now)) }
{
    let text = common_text(alloc, algebra, earlier, later)?;
    Ok(refusal_naming(RefusalKind::Overlap, later, vec![in alloc; text]?))
}
