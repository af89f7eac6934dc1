// The equations of a type as they are written.

ghost use Rattle.std.specs.Prelude.{◌≡◌, ◌<◌, ◌-◌, ◌^◌, OnOk, map, length, vec_len};
ghost use Rattle.lotos_ast.specs.ExpressionTrees.{expr_tree};
ghost use Rattle.spec_core.specs.Theories.{operations_of, equation_of};
ghost use Rattle.sort_overloads.specs.Indexes.{IsIndexOf};
ghost use Rattle.sort_overloads.specs.Views.{context_of};
ghost use Rattle.static_equations.specs.Bodies.{AreEquationsJudged, AreJudgedOfSort, IsPartJudged, IsBodyJudged};
ghost use Rattle.static_equations.specs.Equations.{IsEquationJudged};
ghost use Rattle.static_equations.specs.Gathered.{AddsBoth, Gathers, IfRead};
ghost use Rattle.static_equations.specs.Variables.{under};

use crate::equation::judge_equation;
use crate::names::sort_named;
use crate::variables::{add_unknown_sort, add_unknown_sorts, put_variables};
use lotos_ast::refusal::Refusal;
use lotos_ast::types::{Equation as WrittenEquation, EquationBody, SortEquations};
use sort_overloads::name_index::NameIndex;
use sort_overloads::scope::Scope;
use spec_core::equation::Equation;
use spec_core::items::Sort;
use spec_core::memory::Memory;
use std::alloc::Global;

// Adds an equation, or its refusals.
fn add_equation(
    alloc: Global,
    equation: &WrittenEquation,
    sort: Sort,
    scope: &Scope,
    index: &NameIndex,
    all: &mut Vec<Equation>,
    refusals: &mut Vec<Refusal>,
) -> Result<(), Memory>
    requires few { vec_len scope.now.signature.ops < 2 ^ 32 }
    requires index { IsIndexOf index.now (operations_of scope.now.signature) }
    ensures judged { OnOk result (AddsBoth (IfRead (IsEquationJudged (context_of scope.now) sort equation.now))
        (map equation_of all.old.items) (map equation_of all.new.items) refusals.old.items refusals.new.items) }
{
    let found = judge_equation(alloc, equation, sort, scope, index, refusals)?;
    match found {
        None => Ok(()),
        Some(equation) => {
            all.push(equation)?;
            Ok(())
        }
    }
}

// Adds equations of one sort, or their refusals.
fn add_equations(
    alloc: Global,
    equations: &[WrittenEquation],
    sort: Sort,
    scope: &Scope,
    index: &NameIndex,
    all: &mut Vec<Equation>,
    refusals: &mut Vec<Refusal>,
) -> Result<(), Memory>
    requires few { vec_len scope.now.signature.ops < 2 ^ 32 }
    requires index { IsIndexOf index.now (operations_of scope.now.signature) }
    ensures judged { OnOk result (AddsBoth (AreEquationsJudged (context_of scope.now) sort equations.now)
        (map equation_of all.old.items) (map equation_of all.new.items) refusals.old.items refusals.new.items) }
{
    for equation in equations {
        add_equation(alloc, equation, sort, scope, index, all, refusals)?;
    }
    Ok(())
}

// Adds the equations of a part, whose sort and whose variables' sorts are known.
fn add_part_of_sort(
    alloc: Global,
    part: &SortEquations,
    scope: &mut Scope,
    index: &NameIndex,
    all: &mut Vec<Equation>,
    refusals: &mut Vec<Refusal>,
) -> Result<(), Memory>
    requires few { vec_len scope.old.signature.ops < 2 ^ 32 }
    requires few_sorts { vec_len scope.old.signature.sorts < 2 ^ 32 - 1 }
    requires index { IsIndexOf index.now (operations_of scope.old.signature) }
    ensures signature { OnOk result (scope.new.signature ≡ scope.old.signature) }
    ensures context { OnOk result (context_of scope.new ≡ context_of scope.old) }
    ensures judged { OnOk result (AddsBoth (AreJudgedOfSort (context_of scope.old) part.now)
        (map equation_of all.old.items) (map equation_of all.new.items) refusals.old.items refusals.new.items) }
{
    let sort = Sort(sort_named(&scope.signature.sorts, part.sort.text.as_str()) as u32);
    let outer = scope.vars.len();
    put_variables(alloc, &part.variables, scope)?;
    add_equations(alloc, &part.equations, sort, scope, index, all, refusals)?;
    scope.vars.truncate(outer);
    Ok(())
}

// Adds the equations of a part, or what is refused of it.
fn add_part(
    alloc: Global,
    part: &SortEquations,
    scope: &mut Scope,
    index: &NameIndex,
    all: &mut Vec<Equation>,
    refusals: &mut Vec<Refusal>,
) -> Result<(), Memory>
    requires few { vec_len scope.old.signature.ops < 2 ^ 32 }
    requires few_sorts { vec_len scope.old.signature.sorts < 2 ^ 32 - 1 }
    requires index { IsIndexOf index.now (operations_of scope.old.signature) }
    ensures signature { OnOk result (scope.new.signature ≡ scope.old.signature) }
    ensures context { OnOk result (context_of scope.new ≡ context_of scope.old) }
    ensures judged { OnOk result (AddsBoth (IsPartJudged (context_of scope.old) part.now)
        (map equation_of all.old.items) (map equation_of all.new.items) refusals.old.items refusals.new.items) }
{
    let before = refusals.len();
    add_unknown_sort(alloc, scope, &part.sort, refusals)?;
    add_unknown_sorts(alloc, scope, &part.variables, refusals)?;
    if before < refusals.len() {
        return Ok(());
    }
    add_part_of_sort(alloc, part, scope, index, all, refusals)
}

// Adds the equations of parts, or what is refused of them.
fn add_parts(
    alloc: Global,
    parts: &[SortEquations],
    scope: &mut Scope,
    index: &NameIndex,
    all: &mut Vec<Equation>,
    refusals: &mut Vec<Refusal>,
) -> Result<(), Memory>
    requires few { vec_len scope.old.signature.ops < 2 ^ 32 }
    requires few_sorts { vec_len scope.old.signature.sorts < 2 ^ 32 - 1 }
    requires index { IsIndexOf index.now (operations_of scope.old.signature) }
    ensures signature { OnOk result (scope.new.signature ≡ scope.old.signature) }
    ensures context { OnOk result (context_of scope.new ≡ context_of scope.old) }
    ensures judged { OnOk result (AddsBoth (Gathers (IsPartJudged (context_of scope.old)) parts.now)
        (map equation_of all.old.items) (map equation_of all.new.items) refusals.old.items refusals.new.items) }
{
    for part in parts {
        add_part(alloc, part, scope, index, all, refusals)?;
    }
    Ok(())
}

// Adds the equations of a body whose variables' sorts are known, or what is refused of its parts.
fn add_parts_under(
    alloc: Global,
    body: &EquationBody,
    scope: &mut Scope,
    index: &NameIndex,
    all: &mut Vec<Equation>,
    refusals: &mut Vec<Refusal>,
) -> Result<(), Memory>
    requires few { vec_len scope.old.signature.ops < 2 ^ 32 }
    requires few_sorts { vec_len scope.old.signature.sorts < 2 ^ 32 - 1 }
    requires index { IsIndexOf index.now (operations_of scope.old.signature) }
    ensures signature { OnOk result (scope.new.signature ≡ scope.old.signature) }
    ensures context { OnOk result (context_of scope.new ≡ context_of scope.old) }
    ensures judged { OnOk result (AddsBoth
        (Gathers (IsPartJudged (under (context_of scope.old) body.now.variables.items)) body.now.parts.items)
        (map equation_of all.old.items) (map equation_of all.new.items) refusals.old.items refusals.new.items) }
{
    let outer = scope.vars.len();
    put_variables(alloc, &body.variables, scope)?;
    add_parts(alloc, &body.parts, scope, index, all, refusals)?;
    scope.vars.truncate(outer);
    Ok(())
}

/// Adds the equations that are written so; the refusals of what can't be read are added to those before (8 UnknownSort, 12 UnknownName,
/// 13 NoReading, 14 Ambiguous). What stands under variables or a sort that are refused isn't judged. The scope is left as it was.
pub fn judge_body(
    alloc: Global,
    body: &EquationBody,
    scope: &mut Scope,
    index: &NameIndex,
    all: &mut Vec<Equation>,
    refusals: &mut Vec<Refusal>,
) -> Result<(), Memory>
    requires few { vec_len scope.old.signature.ops < 2 ^ 32 }
    requires few_sorts { vec_len scope.old.signature.sorts < 2 ^ 32 - 1 }
    requires index { IsIndexOf index.now (operations_of scope.old.signature) }
    ensures signature { OnOk result (scope.new.signature ≡ scope.old.signature) }
    ensures context { OnOk result (context_of scope.new ≡ context_of scope.old) }
    ensures judged { OnOk result (AddsBoth (IsBodyJudged (context_of scope.old) body.now)
        (map equation_of all.old.items) (map equation_of all.new.items) refusals.old.items refusals.new.items) }
{
    let before = refusals.len();
    add_unknown_sorts(alloc, scope, &body.variables, refusals)?;
    if before < refusals.len() {
        return Ok(());
    }
    add_parts_under(alloc, body, scope, index, all, refusals)
}
