// Equations.

ghost use Rattle.std.specs.Prelude.{◌≡◌, ◌<◌, ◌^◌, IfOk, OnOk, map, vec_len};
ghost use Rattle.lotos_ast.specs.ExpressionTrees.{expr_tree};
ghost use Rattle.spec_core.specs.Theories.{operations_of, premise_of};
ghost use Rattle.sort_overloads.specs.Indexes.{IsIndexOf};
ghost use Rattle.sort_overloads.specs.Judged.{Adds};
ghost use Rattle.sort_overloads.specs.Views.{context_of};
ghost use Rattle.static_equations.specs.Equations.{listed, ArePremissesJudged, IsEquationJudged};
ghost use Rattle.static_equations.specs.Gathered.{AddsBoth, IfRead};
ghost use Rattle.static_equations.specs.Premisses.{IsPremissJudged};
ghost use Rattle.static_equations.specs.Views.{equation_if_read};

use crate::condition::judge_premiss;
use crate::numbering::equation_of_terms;
use lotos_ast::expression::Premiss;
use lotos_ast::refusal::Refusal;
use lotos_ast::types::Equation as WrittenEquation;
use sort_overloads::judging::judge;
use sort_overloads::name_index::NameIndex;
use sort_overloads::scope::Scope;
use spec_core::equation::Equation;
use spec_core::items::Sort;
use spec_core::memory::Memory;
use spec_core::term::Term;
use std::alloc::Global;

// Adds the two terms of a premiss, or its refusals.
fn add_premiss(
    alloc: Global,
    premiss: &Premiss,
    scope: &Scope,
    index: &NameIndex,
    all: &mut Vec<(Term, Term)>,
    refusals: &mut Vec<Refusal>,
) -> Result<(), Memory>
    requires few { vec_len scope.now.signature.ops < 2 ^ 32 }
    requires index { IsIndexOf index.now (operations_of scope.now.signature) }
    ensures judged { OnOk result (AddsBoth (IfRead (IsPremissJudged (context_of scope.now) premiss.now))
        (map premise_of all.old.items) (map premise_of all.new.items) refusals.old.items refusals.new.items) }
{
    let found = judge_premiss(alloc, premiss, scope, index, refusals)?;
    match found {
        None => Ok(()),
        Some(terms) => {
            all.push(terms)?;
            Ok(())
        }
    }
}

// The terms of those premisses that can be read, and the refusals of the others.
fn judge_premisses(
    alloc: Global,
    premisses: &[Premiss],
    scope: &Scope,
    index: &NameIndex,
    refusals: &mut Vec<Refusal>,
) -> Result<Vec<(Term, Term)>, Memory>
    requires few { vec_len scope.now.signature.ops < 2 ^ 32 }
    requires index { IsIndexOf index.now (operations_of scope.now.signature) }
    ensures judged { IfOk result (λ all. Adds (ArePremissesJudged (context_of scope.now) premisses.now (map premise_of all.items))
        refusals.old.items refusals.new.items) }
{
    let mut all = Vec::new(alloc);
    for premiss in premisses {
        add_premiss(alloc, premiss, scope, index, &mut all, refusals)?;
    }
    Ok(all)
}

// The premisses of an equation.
fn premisses_of(premisses: &Option<Vec<Premiss>>) -> &[Premiss]
    ensures { result.now ≡ listed premisses.now }
{
    match premisses {
        None => &[],
        Some(all) => all,
    }
}

/// The equation that is written so, whose sides have this sort. Where some part of it can't be read, the refusals of all parts are added
/// to those before (8 UnknownSort, 12 UnknownName, 13 NoReading, 14 Ambiguous).
pub fn judge_equation(
    alloc: Global,
    equation: &WrittenEquation,
    sort: Sort,
    scope: &Scope,
    index: &NameIndex,
    refusals: &mut Vec<Refusal>,
) -> Result<Option<Equation>, Memory>
    requires few { vec_len scope.now.signature.ops < 2 ^ 32 }
    requires index { IsIndexOf index.now (operations_of scope.now.signature) }
    ensures judged { IfOk result (λ found. Adds (IsEquationJudged (context_of scope.now) sort equation.now (equation_if_read found))
        refusals.old.items refusals.new.items) }
{
    let before = refusals.len();
    let premisses = premisses_of(&equation.premisses);
    let premises = judge_premisses(alloc, premisses, scope, index, refusals)?;
    let left = judge(alloc, &equation.left, scope, index, Some(sort), refusals)?;
    let right = judge(alloc, &equation.right, scope, index, Some(sort), refusals)?;
    if before < refusals.len() {
        return Ok(None);
    }
    match (left, right) {
        (Some(left), Some(right)) => {
            let equation = equation_of_terms(
                alloc,
                scope.vars.as_slice(),
                equation.place,
                &premises,
                &left.term,
                &right.term,
            )?;
            Ok(Some(equation))
        }
        (None, _) => Ok(None),
        (Some(_), None) => Ok(None),
    }
}
