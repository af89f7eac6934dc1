// Conditions: two expressions that are to be equal, or one that is to be true.

ghost use Rattle.std.specs.Prelude.{◌≡◌, ◌<◌, ◌^◌, ◌++◌, OnOk, IfOk, vec_len, None};
ghost use Rattle.lotos_ast.specs.ExpressionTrees.{expr_tree};
ghost use Rattle.lotos_ast.specs.ListTrees.{tree_place};
ghost use Rattle.spec_core.specs.Terms.{term_of, constant};
ghost use Rattle.spec_core.specs.Theories.{operations_of};
ghost use Rattle.sort_overloads.specs.Expressions.{expression};
ghost use Rattle.sort_overloads.specs.Indexes.{IsIndexOf};
ghost use Rattle.sort_overloads.specs.Judged.{Adds};
ghost use Rattle.sort_overloads.specs.Refused.{unknowns};
ghost use Rattle.sort_overloads.specs.Views.{context_of};
ghost use Rattle.static_equations.specs.Equalities.{premise_if_read};
ghost use Rattle.static_equations.specs.Premisses.{or_no_reading, IsTruthJudged, IsPremissJudged};

use crate::equality::judge_equality;
use crate::truth::truth;
use lotos_ast::expression::{Expr, Premiss};
use lotos_ast::names::Names;
use lotos_ast::refusal::{Refusal, RefusalKind};
use sort_overloads::judging::judge;
use sort_overloads::name_index::NameIndex;
use sort_overloads::scope::Scope;
use sort_overloads::unknowns::add_unknowns;
use spec_core::items::Op;
use spec_core::memory::Memory;
use spec_core::term::Term;
use std::alloc::Global;

/// The two terms that are to be equal for a condition to hold: those of its two expressions, or, where it is one expression, its term and
/// the constant `true`. Where they can't be read, their refusals are added to those before (8 UnknownSort, 12 UnknownName, 13 NoReading,
/// 14 Ambiguous).
pub fn judge_premiss(
    alloc: Global,
    premiss: &Premiss,
    scope: &Scope,
    index: &NameIndex,
    refusals: &mut Vec<Refusal>,
) -> Result<Option<(Term, Term)>, Memory>
    requires few { vec_len scope.now.signature.ops < 2 ^ 32 }
    requires index { IsIndexOf index.now (operations_of scope.now.signature) }
    ensures judged { IfOk result (λ found. Adds (IsPremissJudged (context_of scope.now) premiss.now (premise_if_read found))
        refusals.old.items refusals.new.items) }
{
    match &premiss.right {
        None => judge_truth(alloc, &premiss.left, scope, index, refusals),
        Some(right) => judge_equality(alloc, &premiss.left, right, scope, index, refusals),
    }
}

// The term of an expression that is to be true, and the constant `true`.
fn judge_truth(
    alloc: Global,
    expr: &Expr,
    scope: &Scope,
    index: &NameIndex,
    refusals: &mut Vec<Refusal>,
) -> Result<Option<(Term, Term)>, Memory>
    requires few { vec_len scope.now.signature.ops < 2 ^ 32 }
    requires index { IsIndexOf index.now (operations_of scope.now.signature) }
    ensures judged { IfOk result (λ found. Adds (IsTruthJudged (context_of scope.now) (expression (expr_tree expr.now))
        (tree_place (expr_tree expr.now)) (premise_if_read found)) refusals.old.items refusals.new.items) }
{
    match truth(alloc, scope, index)? {
        None => {
            add_no_truth(alloc, expr, scope, index, refusals)?;
            Ok(None)
        }
        Some(truth) => {
            let read = judge(alloc, expr, scope, index, Some(truth.sort), refusals)?;
            match read {
                None => Ok(None),
                Some(read) => Ok(Some((read.term, constant_term(alloc, truth.op)))),
            }
        }
    }
}

// A constant as a term.
fn constant_term(alloc: Global, op: Op) -> Term
    ensures { term_of result ≡ constant op.0 }
{
    Term::App(op, Vec::new(alloc))
}

// The refusals of an expression that is to be true where there is no constant `true`.
fn add_no_truth(
    alloc: Global,
    expr: &Expr,
    scope: &Scope,
    index: &NameIndex,
    refusals: &mut Vec<Refusal>,
) -> Result<(), Memory>
    requires index { IsIndexOf index.now (operations_of scope.now.signature) }
    ensures added { OnOk result (refusals.new.items ≡ refusals.old.items
        ++ or_no_reading (tree_place (expr_tree expr.now)) (unknowns (context_of scope.now) (expression (expr_tree expr.now)))) }
{
    let before = refusals.len();
    add_unknowns(alloc, scope, index, expr, refusals)?;
    if before == refusals.len() {
        refusals.push(Refusal {
            kind: RefusalKind::NoReading,
            place: expr.place,
            names: Names::none(alloc),
        })?;
    }
    Ok(())
}
