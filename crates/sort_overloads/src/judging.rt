// The one reading of an expression, or every refusal of it.

ghost use Rattle.std.specs.Prelude.{◌≡◌, ◌<◌, ◌^◌, ℕ, Some, IfOk, vec_len};
ghost use Rattle.lotos_ast.specs.ExpressionTrees.{expr_tree};
ghost use Rattle.lotos_ast.specs.ListTrees.{tree_place};
ghost use Rattle.spec_core.specs.Theories.{operations_of};
ghost use Rattle.sort_overloads.specs.Expressions.{expression};
ghost use Rattle.sort_overloads.specs.Indexes.{IsIndexOf};
ghost use Rattle.sort_overloads.specs.Judged.{typed_if_read, Adds, IsJudged};
ghost use Rattle.sort_overloads.specs.Views.{context_of};

use crate::name_index::NameIndex;
use crate::resolution::{TypedTerm, resolve_known};
use crate::scope::Scope;
use crate::unknowns::add_unknowns;
use lotos_ast::expression::Expr;
use lotos_ast::refusal::{FrontFault, Refusal};
use spec_core::items::Sort;
use spec_core::memory::Memory;
use std::alloc::Global;

/// The one reading of an expression, of the wanted sort if there is one. Where it hasn't just one, its refusals are added to those before.
pub fn judge(
    alloc: Global,
    expr: &Expr,
    scope: &Scope,
    index: &NameIndex,
    wanted: Option<Sort>,
    refusals: &mut Vec<Refusal>,
) -> Result<Option<TypedTerm>, Memory>
    requires few { vec_len scope.now.signature.ops < 2 ^ 32 }
    requires index { IsIndexOf index.now (operations_of scope.now.signature) }
    ensures judged { IfOk result (λ found.
        Adds (IsJudged (context_of scope.now) (expression (expr_tree expr.now)) wanted (tree_place (expr_tree expr.now))
        (typed_if_read found)) refusals.old.items refusals.new.items) }
{
    let before = refusals.len();
    add_unknowns(alloc, scope, index, expr, refusals)?;
    if before < refusals.len() {
        return Ok(None);
    }
    match resolve_known(alloc, expr, scope, index, wanted) {
        Ok(resolved) => Ok(Some(resolved)),
        Err(FrontFault::Refused(refusal)) => {
            refusals.push(refusal)?;
            Ok(None)
        }
        Err(FrontFault::Memory) => Err(Memory),
    }
}
