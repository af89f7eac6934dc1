// Two expressions that are to be equal.

ghost use Rattle.std.specs.Prelude.{◌≡◌, ◌<◌, ◌^◌, IfOk, vec_len};
ghost use Rattle.lotos_ast.specs.ExpressionTrees.{expr_tree};
ghost use Rattle.lotos_ast.specs.ListTrees.{tree_place};
ghost use Rattle.spec_core.specs.Theories.{operations_of};
ghost use Rattle.sort_overloads.specs.Expressions.{expression};
ghost use Rattle.sort_overloads.specs.Indexes.{IsIndexOf};
ghost use Rattle.sort_overloads.specs.Judged.{Adds};
ghost use Rattle.sort_overloads.specs.Views.{context_of};
ghost use Rattle.static_equations.specs.Equalities.{sides_of, premise_if_read, IsEqualityJudged};

use lotos_ast::expression::Expr;
use lotos_ast::refusal::Refusal;
use sort_overloads::judging::judge;
use sort_overloads::name_index::NameIndex;
use sort_overloads::scope::Scope;
use sort_overloads::unknowns::add_unknowns;
use spec_core::memory::Memory;
use spec_core::term::Term;
use std::alloc::Global;

/// The terms that two expressions stand for: the left one is read by itself, and the right one with the sort of the left one. Where they
/// can't be read, their refusals are added to those before.
pub fn judge_equality(
    alloc: Global,
    left: &Expr,
    right: &Expr,
    scope: &Scope,
    index: &NameIndex,
    refusals: &mut Vec<Refusal>,
) -> Result<Option<(Term, Term)>, Memory>
    requires few { vec_len scope.now.signature.ops < 2 ^ 32 }
    requires index { IsIndexOf index.now (operations_of scope.now.signature) }
    ensures judged { IfOk result (λ found.
        Adds (IsEqualityJudged (context_of scope.now) (sides_of (expr_tree left.now) (expr_tree right.now)) (premise_if_read found))
        refusals.old.items refusals.new.items) }
{
    let one = judge(alloc, left, scope, index, None, refusals)?;
    match one {
        None => {
            add_unknowns(alloc, scope, index, right, refusals)?;
            Ok(None)
        }
        Some(one) => {
            let other = judge(alloc, right, scope, index, Some(one.sort), refusals)?;
            match other {
                None => Ok(None),
                Some(other) => Ok(Some((one.term, other.term))),
            }
        }
    }
}
