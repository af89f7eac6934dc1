// The readings of an expression, from its parts to the whole.

ghost use Rattle.std.specs.Prelude.{◌≡◌, ◌<◌, ◌^◌, ◌++◌, ◌∷◌, [], None, IfOk, map, vec_len, string_bytes};
ghost use Rattle.spec_core.specs.Theories.{operations_of};
ghost use Rattle.lotos_ast.specs.ExpressionTrees.{expr_tree, infix_tree, simple_tree, head_tree};
ghost use Rattle.sort_overloads.specs.Expressions.{Expression, infix_application, expression, simple_expression, head_expression, between};
ghost use Rattle.sort_overloads.specs.Indexes.{IsIndexOf};
ghost use Rattle.sort_overloads.specs.Readings.{spelling};
ghost use Rattle.sort_overloads.specs.Listed.{StandsFor, readings, is_name_of, those, last_variable, name_readings, of_operations};
ghost use Rattle.sort_overloads.specs.Tables.{table_of};
ghost use Rattle.sort_overloads.specs.Views.{context_of};
ghost use Rattle.std.specs.List.{slice_get};

use crate::name_index::NameIndex;
use crate::names::named_readings;
use crate::operations::operation_readings;
use crate::scope::Scope;
use crate::selection::{Wanted, selected};
use crate::table::Table;
use lotos_ast::expression::{Expr, Head, Infix, Simple};
use spec_core::memory::Memory;
use spec_core::name::Name;
use std::alloc::Global;

/// A table of the readings of an expression.
#[cycle(readings)]
pub fn expression_readings(
    alloc: Global,
    scope: &Scope,
    index: &NameIndex,
    expr: &Expr,
) -> Result<Table, Memory>
    requires few { vec_len scope.now.signature.ops < 2 ^ 32 }
    requires index { IsIndexOf index.now (operations_of scope.now.signature) }
    ensures stands { IfOk result (λ all. StandsFor (readings (context_of scope.now) (expression (expr_tree expr.now))) (table_of all)) }
{
    let mut all = simple_readings(alloc, scope, index, &expr.first)?;
    for operation in &expr.rest {
        all = infix_readings(alloc, scope, index, operation, all)?;
    }
    Ok(all)
}

// A table of the readings of an operation between what stands before it and its right operand.
#[cycle(readings)]
fn infix_readings(
    alloc: Global,
    scope: &Scope,
    index: &NameIndex,
    operation: &Infix,
    left: Table,
) -> Result<Table, Memory>
    requires few { vec_len scope.now.signature.ops < 2 ^ 32 }
    requires index { IsIndexOf index.now (operations_of scope.now.signature) }
    ensures stands { IfOk result (λ all. (e : Expression) → StandsFor (readings (context_of scope.now) e) (table_of left) →
        StandsFor
        (readings (context_of scope.now) (infix_application operation.now.name e (simple_expression (simple_tree operation.now.right))))
        (table_of all)) }
{
    let right = simple_readings(alloc, scope, index, &operation.right)?;
    let spelled = infix_spelling(alloc, operation.name.text.as_str())?;
    let arguments = vec![in alloc; left, right]?;
    applied(alloc, scope, index, spelled.as_str(), arguments)
}

// A table of the readings of an operand.
#[cycle(readings)]
fn simple_readings(
    alloc: Global,
    scope: &Scope,
    index: &NameIndex,
    simple: &Simple,
) -> Result<Table, Memory>
    requires few { vec_len scope.now.signature.ops < 2 ^ 32 }
    requires index { IsIndexOf index.now (operations_of scope.now.signature) }
    ensures stands { IfOk result (λ all.
        StandsFor (readings (context_of scope.now) (simple_expression (simple_tree simple.now))) (table_of all)) }
{
    let mut all = head_readings(alloc, scope, index, &simple.head)?;
    for sort in &simple.sorts {
        all = of_named_sort(alloc, &scope.signature.sorts, sort.text.as_str(), all)?;
    }
    Ok(all)
}

// A table of the readings of an operand without the sorts that are said of it.
#[cycle(readings)]
fn head_readings(
    alloc: Global,
    scope: &Scope,
    index: &NameIndex,
    head: &Head,
) -> Result<Table, Memory>
    requires few { vec_len scope.now.signature.ops < 2 ^ 32 }
    requires index { IsIndexOf index.now (operations_of scope.now.signature) }
    ensures stands { IfOk result (λ all.
        StandsFor (readings (context_of scope.now) (head_expression (head_tree head.now))) (table_of all)) }
{
    match head {
        Head::Applied {
            place: _,
            name,
            arguments,
        } => match arguments {
            None => named(alloc, scope, index, name.text.as_str()),
            Some(arguments) => {
                let mut tables = Vec::new(alloc);
                for argument in arguments {
                    tables.push(expression_readings(alloc, scope, index, argument)?)?;
                }
                applied(alloc, scope, index, name.text.as_str(), tables)
            }
        },
        Head::Grouped { place: _, inner } => expression_readings(alloc, scope, index, inner),
    }
}

// A table of the readings of a name alone.
fn named(alloc: Global, scope: &Scope, index: &NameIndex, name: &str) -> Result<Table, Memory>
    requires few { vec_len scope.now.signature.ops < 2 ^ 32 }
    requires index { IsIndexOf index.now (operations_of scope.now.signature) }
    ensures stands { IfOk result (λ all. StandsFor
        (name_readings (last_variable name.now None 0 scope.now.vars)
        (of_operations name.now [] 0 (operations_of scope.now.signature)))
        (table_of all)) }
{
    let readings = named_readings(alloc, scope, index, name)?;
    Ok(Table::new(readings, Vec::new(alloc)))
}

// A table of the readings of an operation over these arguments.
fn applied(
    alloc: Global,
    scope: &Scope,
    index: &NameIndex,
    spelled: &str,
    arguments: Vec<Table>,
) -> Result<Table, Memory>
    requires few { vec_len scope.now.signature.ops < 2 ^ 32 }
    requires index { IsIndexOf index.now (operations_of scope.now.signature) }
    ensures stands { IfOk result (λ all. StandsFor
        (of_operations spelled.now (map table_of arguments.items) 0 (operations_of scope.now.signature))
        (table_of all)) }
{
    let readings = operation_readings(alloc, &scope.signature, index, spelled, &arguments)?;
    Ok(Table::new(readings, arguments))
}

// Those of the readings whose sort has this name.
fn of_named_sort(alloc: Global, sorts: &[Name], name: &str, table: Table) -> Result<Table, Memory>
    ensures { IfOk result (λ kept. table_of kept ≡ those (λ s. is_name_of name.now (slice_get sorts.now s)) (table_of table)) }
{
    selected(alloc, &Wanted::Named { sorts, name }, table)
}

/// How an operation between two arguments is spelled where it is declared.
pub fn infix_spelling(alloc: Global, name: &str) -> Result<String, Memory>
    ensures { IfOk result (λ spelled. string_bytes spelled ≡ spelling between name.now) }
{
    let mut spelled = String::from_str(alloc, "_")?;
    spelled.push_str(name)?;
    spelled.push_str("_")?;
    Ok(spelled)
}
