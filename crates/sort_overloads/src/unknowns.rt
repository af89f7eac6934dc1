// The names and sorts of an expression that aren't known.

ghost use Rattle.std.specs.Prelude.{◌≡◌, ◌++◌, ◌∷◌, [], List, IfOk, OnOk, if◌then◌else◌, ◌||◌};
ghost use Rattle.std.specs.List.{list_any};
ghost use Rattle.lotos_ast.specs.ExpressionTrees.{expr_tree, simple_tree, head_tree};
ghost use Rattle.spec_core.specs.Theories.{Operation, operations_of};
ghost use Rattle.sort_overloads.specs.Expressions.{expression, simple_expression, head_expression, between};
ghost use Rattle.sort_overloads.specs.Indexes.{IsIndexOf};
ghost use Rattle.sort_overloads.specs.Listed.{is_same_name};
ghost use Rattle.sort_overloads.specs.Readings.{spelling};
ghost use Rattle.sort_overloads.specs.Refused.{is_called, is_known, is_sort_known, unknown_name, unknown_sort, unknowns, refused};
ghost use Rattle.sort_overloads.specs.Views.{context_of};

use crate::name_index::NameIndex;
use crate::names::has_name;
use crate::readings::infix_spelling;
use crate::scope::Scope;
use lotos_ast::expression::{Expr, Head, Simple};
use lotos_ast::names::Names;
use lotos_ast::place::Place;
use lotos_ast::refusal::{Refusal, RefusalKind};
use lotos_ast::token::Token;
use spec_core::memory::Memory;
use spec_core::name::Name;
use std::alloc::Global;

/// Adds a refusal for each name or sort of an expression that isn't known.
#[cycle(unknowns)]
pub fn add_unknowns(
    alloc: Global,
    scope: &Scope,
    index: &NameIndex,
    expr: &Expr,
    refusals: &mut Vec<Refusal>,
) -> Result<(), Memory>
    requires index { IsIndexOf index.now (operations_of scope.now.signature) }
    ensures added { OnOk result (refusals.new.items
        ≡ refusals.old.items ++ unknowns (context_of scope.now) (expression (expr_tree expr.now))) }
{
    add_unknowns_of_operand(alloc, scope, index, &expr.first, refusals)?;
    for operation in &expr.rest {
        add_unknown_name(alloc, scope, index, &operation.name, refusals)?;
        add_unknowns_of_operand(alloc, scope, index, &operation.right, refusals)?;
    }
    Ok(())
}

// Those of an operand.
#[cycle(unknowns)]
fn add_unknowns_of_operand(
    alloc: Global,
    scope: &Scope,
    index: &NameIndex,
    simple: &Simple,
    refusals: &mut Vec<Refusal>,
) -> Result<(), Memory>
    requires index { IsIndexOf index.now (operations_of scope.now.signature) }
    ensures added { OnOk result (refusals.new.items
        ≡ refusals.old.items ++ unknowns (context_of scope.now) (simple_expression (simple_tree simple.now))) }
{
    add_unknowns_of_head(alloc, scope, index, &simple.head, refusals)?;
    for sort in &simple.sorts {
        add_unknown_sort(alloc, scope, sort, refusals)?;
    }
    Ok(())
}

// Those of an operand without the sorts that are said of it.
#[cycle(unknowns)]
fn add_unknowns_of_head(
    alloc: Global,
    scope: &Scope,
    index: &NameIndex,
    head: &Head,
    refusals: &mut Vec<Refusal>,
) -> Result<(), Memory>
    requires index { IsIndexOf index.now (operations_of scope.now.signature) }
    ensures added { OnOk result (refusals.new.items
        ≡ refusals.old.items ++ unknowns (context_of scope.now) (head_expression (head_tree head.now))) }
{
    match head {
        Head::Applied {
            place: _,
            name,
            arguments,
        } => {
            add_unknown_name(alloc, scope, index, name, refusals)?;
            match arguments {
                None => Ok(()),
                Some(arguments) => {
                    for argument in arguments {
                        add_unknowns(alloc, scope, index, argument, refusals)?;
                    }
                    Ok(())
                }
            }
        }
        Head::Grouped { place: _, inner } => add_unknowns(alloc, scope, index, inner, refusals),
    }
}

// Adds a refusal of a name that isn't known.
fn add_unknown_name(
    alloc: Global,
    scope: &Scope,
    index: &NameIndex,
    name: &Token,
    refusals: &mut Vec<Refusal>,
) -> Result<(), Memory>
    requires index { IsIndexOf index.now (operations_of scope.now.signature) }
    ensures added { OnOk result (refusals.new.items ≡ refusals.old.items ++ unknown_name (context_of scope.now) name.now) }
{
    let known = is_known(alloc, scope, index, name.text.as_str())?;
    add_unless(alloc, known, RefusalKind::UnknownName, name.place, refusals)
}

// Adds a refusal of a sort that isn't known.
fn add_unknown_sort(
    alloc: Global,
    scope: &Scope,
    sort: &Token,
    refusals: &mut Vec<Refusal>,
) -> Result<(), Memory>
    ensures added { OnOk result (refusals.new.items ≡ refusals.old.items ++ unknown_sort (context_of scope.now) sort.now) }
{
    let known = is_sort_known(&scope.signature.sorts, sort.text.as_str());
    add_unless(alloc, known, RefusalKind::UnknownSort, sort.place, refusals)
}

// Adds a refusal without names, unless what it is about is known.
fn add_unless(
    alloc: Global,
    known: bool,
    kind: RefusalKind,
    place: Place,
    refusals: &mut Vec<Refusal>,
) -> Result<(), Memory>
    ensures { OnOk result (refusals.new.items
        ≡ refusals.old.items ++ (if known then [] else refused kind place [] ∷ [])) }
{
    if !known {
        refusals.push(Refusal {
            kind,
            place,
            names: Names::none(alloc),
        })?;
    }
    Ok(())
}

// Whether a variable or an operation has the name.
fn is_known(alloc: Global, scope: &Scope, index: &NameIndex, name: &str) -> Result<bool, Memory>
    requires index { IsIndexOf index.now (operations_of scope.now.signature) }
    ensures { IfOk result (λ known. known ≡ is_known (context_of scope.now) name.now) }
{
    let operation = has_operation(alloc, index, name)?;
    let variable = scope.vars.has(alloc, name)?;
    Ok(variable || operation)
}

// Whether an operation has the name, before its arguments or between two.
fn has_operation(alloc: Global, index: &NameIndex, name: &str) -> Result<bool, Memory>
    ensures { IfOk result (λ known. (operations : List Operation) → IsIndexOf index.now operations →
        known ≡ list_any (is_called name.now) operations) }
{
    let spelled = infix_spelling(alloc, name)?;
    let before = index.has(alloc, name)?;
    let between = index.has(alloc, spelled.as_str())?;
    Ok(before || between)
}

// Whether a sort has the name.
fn is_sort_known(sorts: &[Name], name: &str) -> bool
    ensures { result ≡ list_any (λ other. is_same_name other name.now) sorts.now }
{
    for sort in sorts {
        if has_name(sort, name) {
            return true;
        }
    }
    false
}
