// Evaluation as it is defined, step by step and slowly: what faster bodies are tried against.

ghost use Rattle.std.specs.Prelude.{ℕ, ◌≡◌, ◌<◌, ◌≤◌, ◌+◌, IfOk, IfErr, map};
ghost use Rattle.spec_core.specs.Budgets.{IsBeyond, AreBeyond, BothAreBeyond, TriesAreBeyond, AsksAreBeyond};
ghost use Rattle.spec_core.specs.Evaluation.{Evaluates, EvaluatesAll, Tries, Asks, HaveValues};
ghost use Rattle.spec_core.specs.Lists.{Each};
ghost use Rattle.spec_core.specs.Orthogonality.{HasNoLooseVariables};
ghost use Rattle.spec_core.specs.Substitutions.{substitution_of};
ghost use Rattle.spec_core.specs.Terms.{TermTree, apply, instance, terms, term_of};
ghost use Rattle.spec_core.specs.Theories.{equation_of, premise_of, theory_of};

use crate::fault::EvaluationFault;
use crate::matching::{instantiate, match_pattern};
use spec_core::equation::{DataSpec, Equation};
use spec_core::items::Op;
use spec_core::term::{Term, copy_terms};
use std::alloc::Global;

/// A term's value, and how many uses of equations it took.
#[derive(Drop)]
pub struct Evaluated {
    pub value: Term,
    pub uses: u64,
}

// Whether the two sides of a premise have one value, and the uses for both.
#[derive(Drop)]
struct Asked {
    equal: bool,
    uses: u64,
}

// The values of the terms of a list, and the uses for all.
#[derive(Drop)]
struct EvaluatedAll {
    values: Vec<Term>,
    uses: u64,
}

/// The value of a ground term, with at most `budget` uses of equations; where no equation has a loose variable, `Spent` means that
/// the term has no value within them. It recurs as deep as the evaluation, so it is for small terms of executable data.
pub fn plain_value(
    alloc: Global,
    algebra: &DataSpec,
    term: &Term,
    budget: u64,
) -> Result<Evaluated, EvaluationFault>
    ensures value { IfOk result (λ r. Evaluates (theory_of algebra.now) (term_of term.now) (term_of r.value) r.uses) }
    ensures within { IfOk result (λ r. r.uses ≤ budget) }
    ensures spent { IfErr result (λ e.
        e ≡ EvaluationFault.Spent →
        Each HasNoLooseVariables (theory_of algebra.now).equations →
        IsBeyond (theory_of algebra.now) (term_of term.now) budget) }
{
    evaluate(alloc, algebra, term, budget, u64::MAX)
}

// The value of a term.
#[cycle(evaluation)]
fn evaluate(
    alloc: Global,
    algebra: &DataSpec,
    term: &Term,
    budget: u64,
    depth: u64,
) -> Result<Evaluated, EvaluationFault>
    ensures value { IfOk result (λ r. Evaluates (theory_of algebra.now) (term_of term.now) (term_of r.value) r.uses) }
    ensures within { IfOk result (λ r. r.uses ≤ budget) }
    ensures spent { IfErr result (λ e.
        e ≡ EvaluationFault.Spent →
        Each HasNoLooseVariables (theory_of algebra.now).equations →
        IsBeyond (theory_of algebra.now) (term_of term.now) budget) }
{
    if depth == 0 {
        return Err(EvaluationFault::Memory);
    }
    match term {
        Term::Var(_) => Err(EvaluationFault::Spent),
        Term::App(op, args) => {
            let all = evaluate_all(alloc, algebra, args, budget, depth - 1)?;
            let called = try_equations(
                alloc,
                algebra,
                &algebra.equations,
                *op,
                &all.values,
                budget - all.uses,
                depth - 1,
            )?;
            Ok(Evaluated {
                value: called.value,
                uses: all.uses + called.uses,
            })
        }
    }
}

// The values of terms, from the left.
#[cycle(evaluation)]
fn evaluate_all(
    alloc: Global,
    algebra: &DataSpec,
    args: &[Term],
    budget: u64,
    depth: u64,
) -> Result<EvaluatedAll, EvaluationFault>
    ensures values { IfOk result
        (λ r. EvaluatesAll (theory_of algebra.now) (terms (map term_of args.now)) (terms (map term_of r.values.items)) r.uses) }
    ensures within { IfOk result (λ r. r.uses ≤ budget) }
    ensures spent { IfErr result (λ e.
        e ≡ EvaluationFault.Spent →
        Each HasNoLooseVariables (theory_of algebra.now).equations →
        AreBeyond (theory_of algebra.now) (terms (map term_of args.now)) budget) }
{
    if depth == 0 {
        return Err(EvaluationFault::Memory);
    }
    let mut values = Vec::new(alloc);
    let mut uses = 0;
    for term in args {
        let next = evaluate(alloc, algebra, term, budget - uses, depth - 1)?;
        uses += next.uses;
        values.push(next.value)?;
    }
    Ok(EvaluatedAll { values, uses })
}

// The value of an operation over values, with these equations left to be tried.
#[cycle(evaluation)]
fn try_equations(
    alloc: Global,
    algebra: &DataSpec,
    left: &[Equation],
    op: Op,
    values: &[Term],
    budget: u64,
    depth: u64,
) -> Result<Evaluated, EvaluationFault>
    ensures value { IfOk result
        (λ r. Tries (theory_of algebra.now) (map equation_of left.now) op.0 (terms (map term_of values.now)) (term_of r.value) r.uses) }
    ensures within { IfOk result (λ r. r.uses ≤ budget) }
    ensures spent { IfErr result (λ e.
        e ≡ EvaluationFault.Spent →
        Each HasNoLooseVariables (theory_of algebra.now).equations →
        Each HasNoLooseVariables (map equation_of left.now) →
        TriesAreBeyond (theory_of algebra.now) (map equation_of left.now) op.0 (terms (map term_of values.now)) budget) }
{
    if depth == 0 {
        return Err(EvaluationFault::Memory);
    }
    match left {
        [] => itself(alloc, op, values),
        [equation, others @ ..] => {
            let matched = match_pattern(alloc, &equation.left, op, values)?;
            match matched {
                None => try_equations(alloc, algebra, others, op, values, budget, depth - 1),
                Some(bound) => ask_premises(
                    alloc,
                    algebra,
                    &equation.premises,
                    &equation.right,
                    &bound,
                    others,
                    op,
                    values,
                    budget,
                    depth - 1,
                ),
            }
        }
    }
}

// The same, with these premises left to be asked of an equation that matches, before its right side.
#[cycle(evaluation)]
fn ask_premises(
    alloc: Global,
    algebra: &DataSpec,
    premises: &[(Term, Term)],
    right: &Term,
    bound: &[Term],
    others: &[Equation],
    op: Op,
    values: &[Term],
    budget: u64,
    depth: u64,
) -> Result<Evaluated, EvaluationFault>
    ensures value { IfOk result (λ r.
        Asks (theory_of algebra.now) (map premise_of premises.now) (term_of right.now) (substitution_of (map term_of bound.now))
        (map equation_of others.now) op.0 (terms (map term_of values.now)) (term_of r.value) r.uses) }
    ensures within { IfOk result (λ r. r.uses ≤ budget) }
    ensures spent { IfErr result (λ e.
        e ≡ EvaluationFault.Spent →
        Each HasNoLooseVariables (theory_of algebra.now).equations →
        Each HasNoLooseVariables (map equation_of others.now) →
        AsksAreBeyond (theory_of algebra.now) (map premise_of premises.now) (term_of right.now)
        (substitution_of (map term_of bound.now)) (map equation_of others.now) op.0 (terms (map term_of values.now)) budget) }
{
    if depth == 0 {
        return Err(EvaluationFault::Memory);
    }
    match premises {
        [] => use_equation(alloc, algebra, right, bound, budget, depth - 1),
        [premise, more @ ..] => {
            let sides = ask_sides(alloc, algebra, premise, bound, budget, depth - 1)?;
            let rest = if sides.equal {
                ask_premises(
                    alloc,
                    algebra,
                    more,
                    right,
                    bound,
                    others,
                    op,
                    values,
                    budget - sides.uses,
                    depth - 1,
                )?
            } else {
                try_equations(
                    alloc,
                    algebra,
                    others,
                    op,
                    values,
                    budget - sides.uses,
                    depth - 1,
                )?
            };
            Ok(Evaluated {
                value: rest.value,
                uses: sides.uses + rest.uses,
            })
        }
    }
}

// Whether the sides of a premise's instance have one value.
#[cycle(evaluation)]
fn ask_sides(
    alloc: Global,
    algebra: &DataSpec,
    premise: &(Term, Term),
    bound: &[Term],
    budget: u64,
    depth: u64,
) -> Result<Asked, EvaluationFault>
    ensures sides { IfOk result (λ r.
        HaveValues (theory_of algebra.now) (instance (substitution_of (map term_of bound.now)) (term_of premise.now.0))
        (instance (substitution_of (map term_of bound.now)) (term_of premise.now.1)) r.equal r.uses) }
    ensures within { IfOk result (λ r. r.uses ≤ budget) }
    ensures spent { IfErr result (λ e.
        e ≡ EvaluationFault.Spent →
        Each HasNoLooseVariables (theory_of algebra.now).equations →
        BothAreBeyond (theory_of algebra.now) (instance (substitution_of (map term_of bound.now)) (term_of premise.now.0))
        (instance (substitution_of (map term_of bound.now)) (term_of premise.now.1)) budget) }
{
    if depth == 0 {
        return Err(EvaluationFault::Memory);
    }
    let left = instantiate(alloc, bound, &premise.0)?;
    let left_value = evaluate(alloc, algebra, &left, budget, depth - 1)?;
    let right = instantiate(alloc, bound, &premise.1)?;
    let right_value = evaluate(alloc, algebra, &right, budget - left_value.uses, depth - 1)?;
    Ok(Asked {
        equal: left_value.value.same(&right_value.value),
        uses: left_value.uses + right_value.uses,
    })
}

// The value of a right side's instance, and one use more.
#[cycle(evaluation)]
fn use_equation(
    alloc: Global,
    algebra: &DataSpec,
    right: &Term,
    bound: &[Term],
    budget: u64,
    depth: u64,
) -> Result<Evaluated, EvaluationFault>
    ensures value { IfOk result (λ r.
        (n : ℕ) ×
        Evaluates (theory_of algebra.now)
        (instance (substitution_of (map term_of bound.now)) (term_of right.now)) (term_of r.value) n ×
        (r.uses ≡ n + 1)) }
    ensures within { IfOk result (λ r. r.uses ≤ budget) }
    ensures spent { IfErr result (λ e.
        e ≡ EvaluationFault.Spent →
        Each HasNoLooseVariables (theory_of algebra.now).equations →
        (v : TermTree) (n : ℕ) →
        Evaluates (theory_of algebra.now) (instance (substitution_of (map term_of bound.now)) (term_of right.now)) v n →
        budget < n + 1) }
{
    if depth == 0 {
        return Err(EvaluationFault::Memory);
    }
    if budget == 0 {
        return Err(EvaluationFault::Spent);
    }
    let replaced = instantiate(alloc, bound, right)?;
    let result = evaluate(alloc, algebra, &replaced, budget - 1, depth - 1)?;
    Ok(Evaluated {
        value: result.value,
        uses: result.uses + 1,
    })
}

// The operation over the values, which is its own value where no equation applies.
fn itself(alloc: Global, op: Op, values: &[Term]) -> Result<Evaluated, EvaluationFault>
    ensures value { IfOk result (λ r. term_of r.value ≡ apply op.0 (terms (map term_of values.now))) }
    ensures free { IfOk result (λ r. r.uses ≡ 0) }
    ensures fault { IfErr result (λ e. e ≡ EvaluationFault.Memory) }
{
    Ok(Evaluated {
        value: Term::App(op, copy_terms(alloc, values)?),
        uses: 0,
    })
}
