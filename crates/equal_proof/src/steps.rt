// One step of a certificate.

ghost use Rattle.std.specs.Prelude.{ℕ, ◌≡◌, List, IfNone, IfOk, IfSome, IsFalse, IsTrue, OnOk, MatchOption, Some, ◌∷◌, length, map};
ghost use Rattle.std.specs.List.{slice_get};
ghost use Rattle.spec_core.specs.Lists.{Each};
ghost use Rattle.spec_core.specs.Executable.{IsExecutable};
ghost use Rattle.spec_core.specs.Numbers.{sort_number};
ghost use Rattle.spec_core.specs.Orthogonality.{HasNoLooseVariables};
ghost use Rattle.spec_core.specs.Sorts.{EquationFits, HasSort, OnSome, no_variables};
ghost use Rattle.spec_core.specs.Terms.{TermTree, preorder};
ghost use Rattle.spec_core.specs.Theories.{equation_of, operation_of, theory_of};
ghost use Rattle.value_table.specs.Tables.{tree_at, AreFit, IsRow};
ghost use Rattle.equal_proof.specs.declared.proof.ProofStep.TheVariants.{Same, Inside, Use};
ghost use Rattle.equal_proof.specs.Certificates.{Sides, variables_of, FitVariables, Infers, IsInstance, IsInstanceBy, StepOf};
ghost use Rattle.equal_proof.specs.Pairs.{sides_at, stack_of, Grows, IsPair};

use crate::instances::{instance, premises_hold};
use crate::pair::{Pair, lefts, rights};
use crate::proof::ProofStep;
use crate::variables::add_variables;
use spec_core::equation::{DataSpec, Equation};
use spec_core::items::{Op, Sort};
use spec_core::memory::Memory;
use spec_core::signature::OpDecl;
use spec_core::value::Value;
use std::alloc::Global;
use value_table::reading::read;
use value_table::sorts::{declaration_of, has_sort, have_sorts};
use value_table::table::TermTable;

// The equation of a number. It takes no memory.
fn equation_at(algebra: &DataSpec, number: u32) -> Option<&Equation>
    ensures some { IfSome result (λ e. slice_get (theory_of algebra.now).equations number ≡ Some (equation_of e.now)) }
    ensures none { IfNone result (slice_get (theory_of algebra.now).equations number ≡ None) }
{
    let place = number as usize;
    if place < algebra.equations.len() {
        Some(&algebra.equations[place])
    } else {
        None
    }
}

// How many equations a step takes, where it may apply. It takes no memory.
fn count_taken(algebra: &DataSpec, step: &ProofStep) -> Option<usize>
    ensures { (taken : List Sides) (put : Sides) → Infers (theory_of algebra.now) step.now taken put → result ≡ Some (length taken) }
{
    match step {
        ProofStep::Same(_) => Some(0),
        ProofStep::Turn => Some(1),
        ProofStep::Chain => Some(2),
        ProofStep::Inside(op) => match declaration_of(algebra, *op) {
            None => None,
            Some(declared) => Some(declared.args.len()),
        },
        ProofStep::Use { equation, .. } => match equation_at(algebra, *equation) {
            None => None,
            Some(used) => Some(used.premises.len()),
        },
    }
}

// What the step `Same` infers.
fn infer_same(
    alloc: Global,
    table: &mut TermTable,
    algebra: &DataSpec,
    value: &Value,
    taken: &[Pair],
) -> Result<Option<Pair>, Memory>
    requires fit { AreFit (theory_of algebra.now) table.old }
    ensures grown { OnOk result (Grows (theory_of algebra.now) table.old table.new) }
    ensures there { IfOk result (λ found. IfSome found (IsPair table.new)) }
    ensures some { IfOk result (λ found. IfSome found (λ pair.
        Infers (theory_of algebra.now) (Same value.now) (stack_of table.old taken.now) (sides_at table.new pair))) }
    ensures none { IfOk result (λ found. IfNone found ((put : Sides) →
        Infers (theory_of algebra.now) (Same value.now) (stack_of table.old taken.now) put → ⊥)) }
{
    if !taken.is_empty() {
        return Ok(None);
    }
    match read(alloc, table, algebra, value)? {
        None => Ok(None),
        Some(row) => Ok(Some(Pair {
            left: row,
            right: row,
        })),
    }
}

// What the step `Turn` infers. It takes no memory.
fn infer_turn(table: &TermTable, algebra: &DataSpec, taken: &[Pair]) -> Option<Pair>
    requires there { Each (IsPair table.now) taken.now }
    ensures there { IfSome result (IsPair table.now) }
    ensures some { IfSome result (λ pair.
        Infers (theory_of algebra.now) ProofStep.Turn (stack_of table.now taken.now) (sides_at table.now pair)) }
    ensures none { IfNone result ((put : Sides) → Infers (theory_of algebra.now) ProofStep.Turn (stack_of table.now taken.now) put → ⊥) }
{
    let _ = table;
    let _ = algebra;
    match taken {
        [pair] => Some(Pair {
            left: pair.right,
            right: pair.left,
        }),
        _ => None,
    }
}

// What the step `Chain` infers. It takes no memory.
fn infer_chain(table: &TermTable, algebra: &DataSpec, taken: &[Pair]) -> Option<Pair>
    requires there { Each (IsPair table.now) taken.now }
    ensures there { IfSome result (IsPair table.now) }
    ensures some { IfSome result (λ pair.
        Infers (theory_of algebra.now) ProofStep.Chain (stack_of table.now taken.now) (sides_at table.now pair)) }
    ensures none { IfNone result ((put : Sides) → Infers (theory_of algebra.now) ProofStep.Chain (stack_of table.now taken.now) put → ⊥) }
{
    let _ = algebra;
    match taken {
        [first, second] => {
            if table.same(first.right, second.left) {
                Some(Pair {
                    left: first.left,
                    right: second.right,
                })
            } else {
                None
            }
        }
        _ => None,
    }
}

// What the step `Inside` infers.
fn infer_inside(
    alloc: Global,
    table: &mut TermTable,
    algebra: &DataSpec,
    op: Op,
    taken: &[Pair],
) -> Result<Option<Pair>, Memory>
    requires fit { AreFit (theory_of algebra.now) table.old }
    requires there { Each (IsPair table.old) taken.now }
    ensures grown { OnOk result (Grows (theory_of algebra.now) table.old table.new) }
    ensures there { IfOk result (λ found. IfSome found (IsPair table.new)) }
    ensures some { IfOk result (λ found. IfSome found (λ pair.
        Infers (theory_of algebra.now) (Inside op) (stack_of table.old taken.now) (sides_at table.new pair))) }
    ensures none { IfOk result (λ found. IfNone found ((put : Sides) →
        Infers (theory_of algebra.now) (Inside op) (stack_of table.old taken.now) put → ⊥)) }
{
    match declaration_of(algebra, op) {
        None => Ok(None),
        Some(declared) => put_inside(alloc, table, algebra, op, declared, taken),
    }
}

// The operation over both sides of equations, where these have its argument sorts.
fn put_inside(
    alloc: Global,
    table: &mut TermTable,
    algebra: &DataSpec,
    op: Op,
    declared: &OpDecl,
    taken: &[Pair],
) -> Result<Option<Pair>, Memory>
    requires fit { AreFit (theory_of algebra.now) table.old }
    requires there { Each (IsPair table.old) taken.now }
    requires declared { slice_get (theory_of algebra.now).operations op.0 ≡ Some (operation_of declared.now) }
    ensures grown { OnOk result (Grows (theory_of algebra.now) table.old table.new) }
    ensures there { IfOk result (λ found. IfSome found (IsPair table.new)) }
    ensures some { IfOk result (λ found. IfSome found (λ pair.
        Infers (theory_of algebra.now) (Inside op) (stack_of table.old taken.now) (sides_at table.new pair))) }
    ensures none { IfOk result (λ found. IfNone found ((put : Sides) →
        Infers (theory_of algebra.now) (Inside op) (stack_of table.old taken.now) put → ⊥)) }
{
    let left = lefts(alloc, table, taken)?;
    let right = rights(alloc, table, taken)?;
    if !have_sorts(table, algebra, &left, &declared.args) {
        return Ok(None);
    }
    if !have_sorts(table, algebra, &right, &declared.args) {
        return Ok(None);
    }
    let left = table.make(op, left)?;
    let right = table.make(op, right)?;
    Ok(Some(Pair { left, right }))
}

// The row of a value for a variable, where it has the variable's sort.
fn read_for(
    alloc: Global,
    table: &mut TermTable,
    algebra: &DataSpec,
    sorts: &[Sort],
    variable: u32,
    value: &Value,
) -> Result<Option<u32>, Memory>
    requires fit { AreFit (theory_of algebra.now) table.old }
    ensures grown { OnOk result (Grows (theory_of algebra.now) table.old table.new) }
    ensures there { IfOk result (λ found. IfSome found (IsRow table.new)) }
    ensures spelled { IfOk result (λ found. IfSome found (λ row. value.now ≡ preorder (tree_at table.new row))) }
    ensures sort { IfOk result (λ found. IfSome found (λ row. OnSome (slice_get (map sort_number sorts.now) variable)
        (λ sort. HasSort (theory_of algebra.now) no_variables (tree_at table.new row) sort))) }
    ensures none { IfOk result (λ found. IfNone found ((t : TermTree) → value.now ≡ preorder t →
        OnSome (slice_get (map sort_number sorts.now) variable) (λ sort. HasSort (theory_of algebra.now) no_variables t sort) → ⊥)) }
{
    let place = variable as usize;
    if place >= sorts.len() {
        return Ok(None);
    }
    match read(alloc, table, algebra, value)? {
        None => Ok(None),
        Some(row) => {
            if has_sort(table, algebra, row, sorts[place]) {
                Ok(Some(row))
            } else {
                Ok(None)
            }
        }
    }
}

// The rows of values for variables, where they have the variables' sorts, one by one.
fn read_all(
    alloc: Global,
    table: &mut TermTable,
    algebra: &DataSpec,
    sorts: &[Sort],
    variables: &[u32],
    values: &[Value],
) -> Result<Option<Vec<u32>>, Memory>
    requires fit { AreFit (theory_of algebra.now) table.old }
    ensures grown { OnOk result (Grows (theory_of algebra.now) table.old table.new) }
    ensures there { IfOk result (λ found. IfSome found (λ rows. Each (IsRow table.new) rows.items)) }
    ensures spelled { IfOk result (λ found. IfSome found (λ rows. values.now ≡ map preorder (map (tree_at table.new) rows.items))) }
    ensures sorts { IfOk result (λ found. IfSome found (λ rows.
        FitVariables (theory_of algebra.now) (map sort_number sorts.now) variables.now (map (tree_at table.new) rows.items))) }
    ensures none { IfOk result (λ found. IfNone found ((ts : List TermTree) → values.now ≡ map preorder ts →
        FitVariables (theory_of algebra.now) (map sort_number sorts.now) variables.now ts → ⊥)) }
{
    match variables {
        [] => {
            if values.is_empty() {
                Ok(Some(Vec::new(alloc)))
            } else {
                Ok(None)
            }
        }
        [variable, others @ ..] => match values {
            [] => Ok(None),
            [value, rest @ ..] => match read_for(alloc, table, algebra, sorts, *variable, value)? {
                None => Ok(None),
                Some(row) => match read_all(alloc, table, algebra, sorts, others, rest)? {
                    None => Ok(None),
                    Some(rows) => with_first(row, rows),
                },
            },
        },
    }
}

// Rows behind another one.
fn with_first(row: u32, rows: Vec<u32>) -> Result<Option<Vec<u32>>, Memory>
    ensures { IfOk result (λ found. MatchOption found ⊥ (λ all. all.items ≡ row ∷ rows.items)) }
{
    let mut all = rows;
    all.insert(0, row)?;
    Ok(Some(all))
}

// The instance of an equation by the terms of rows, where the equations taken are those of its premises.
fn instance_by(
    alloc: Global,
    table: &mut TermTable,
    algebra: &DataSpec,
    equation: &Equation,
    variables: &[u32],
    rows: &[u32],
    taken: &[Pair],
) -> Result<Option<Pair>, Memory>
    requires fit { AreFit (theory_of algebra.now) table.old }
    requires rows { Each (IsRow table.old) rows.now }
    requires there { Each (IsPair table.old) taken.now }
    requires variables { variables.now ≡ variables_of (equation_of equation.now).left }
    requires equation { EquationFits (theory_of algebra.now) (equation_of equation.now) }
    requires closed { HasNoLooseVariables (equation_of equation.now) }
    requires sorts { FitVariables (theory_of algebra.now) (equation_of equation.now).sorts variables.now
        (map (tree_at table.old) rows.now) }
    ensures grown { OnOk result (Grows (theory_of algebra.now) table.old table.new) }
    ensures there { IfOk result (λ found. IfSome found (IsPair table.new)) }
    ensures some { IfOk result (λ found. IfSome found (λ pair.
        IsInstanceBy (equation_of equation.now) (map (tree_at table.old) rows.now) (stack_of table.old taken.now)
        (sides_at table.new pair))) }
    ensures none { IfOk result (λ found. IfNone found ((put : Sides) →
        IsInstanceBy (equation_of equation.now) (map (tree_at table.old) rows.now) (stack_of table.old taken.now) put → ⊥)) }
{
    if !premises_hold(
        alloc,
        table,
        algebra,
        variables,
        rows,
        &equation.premises,
        taken,
    )? {
        return Ok(None);
    }
    let left = instance(alloc, table, algebra, variables, rows, &equation.left)?;
    let right = instance(alloc, table, algebra, variables, rows, &equation.right)?;
    Ok(Some(Pair { left, right }))
}

// What an equation gives by values for the variables of its left side.
fn use_equation(
    alloc: Global,
    table: &mut TermTable,
    algebra: &DataSpec,
    equation: &Equation,
    values: &[Value],
    taken: &[Pair],
) -> Result<Option<Pair>, Memory>
    requires fit { AreFit (theory_of algebra.now) table.old }
    requires there { Each (IsPair table.old) taken.now }
    requires equation { EquationFits (theory_of algebra.now) (equation_of equation.now) }
    requires closed { HasNoLooseVariables (equation_of equation.now) }
    ensures grown { OnOk result (Grows (theory_of algebra.now) table.old table.new) }
    ensures there { IfOk result (λ found. IfSome found (IsPair table.new)) }
    ensures some { IfOk result (λ found. IfSome found (λ pair. IsInstance (theory_of algebra.now) (equation_of equation.now) values.now
        (stack_of table.old taken.now) (sides_at table.new pair))) }
    ensures none { IfOk result (λ found. IfNone found ((put : Sides) → IsInstance (theory_of algebra.now) (equation_of equation.now)
        values.now (stack_of table.old taken.now) put → ⊥)) }
{
    let mut variables = Vec::new(alloc);
    add_variables(&mut variables, &equation.left)?;
    match read_all(alloc, table, algebra, &equation.vars, &variables, values)? {
        None => Ok(None),
        Some(rows) => instance_by(alloc, table, algebra, equation, &variables, &rows, taken),
    }
}

// What the step `Use` infers.
fn infer_use(
    alloc: Global,
    table: &mut TermTable,
    algebra: &DataSpec,
    number: u32,
    values: &[Value],
    taken: &[Pair],
) -> Result<Option<Pair>, Memory>
    requires executable { IsExecutable (theory_of algebra.now) }
    requires fit { AreFit (theory_of algebra.now) table.old }
    requires there { Each (IsPair table.old) taken.now }
    ensures grown { OnOk result (Grows (theory_of algebra.now) table.old table.new) }
    ensures there { IfOk result (λ found. IfSome found (IsPair table.new)) }
    ensures some { IfOk result (λ found. IfSome found (λ pair. OnSome (slice_get (theory_of algebra.now).equations number)
        (λ e. IsInstance (theory_of algebra.now) e values.now (stack_of table.old taken.now) (sides_at table.new pair)))) }
    ensures none { IfOk result (λ found. IfNone found ((put : Sides) → OnSome (slice_get (theory_of algebra.now).equations number)
        (λ e. IsInstance (theory_of algebra.now) e values.now (stack_of table.old taken.now) put) → ⊥)) }
{
    match equation_at(algebra, number) {
        None => Ok(None),
        Some(equation) => use_equation(alloc, table, algebra, equation, values, taken),
    }
}

// What a step infers from the equations that it takes.
fn infer(
    alloc: Global,
    table: &mut TermTable,
    algebra: &DataSpec,
    step: &ProofStep,
    taken: &[Pair],
) -> Result<Option<Pair>, Memory>
    requires executable { IsExecutable (theory_of algebra.now) }
    requires fit { AreFit (theory_of algebra.now) table.old }
    requires there { Each (IsPair table.old) taken.now }
    ensures grown { OnOk result (Grows (theory_of algebra.now) table.old table.new) }
    ensures there { IfOk result (λ found. IfSome found (IsPair table.new)) }
    ensures some { IfOk result (λ found. IfSome found (λ pair.
        Infers (theory_of algebra.now) step.now (stack_of table.old taken.now) (sides_at table.new pair))) }
    ensures none { IfOk result (λ found. IfNone found ((put : Sides) →
        Infers (theory_of algebra.now) step.now (stack_of table.old taken.now) put → ⊥)) }
{
    match step {
        ProofStep::Same(value) => infer_same(alloc, table, algebra, value, taken),
        ProofStep::Turn => Ok(infer_turn(table, algebra, taken)),
        ProofStep::Chain => Ok(infer_chain(table, algebra, taken)),
        ProofStep::Inside(op) => infer_inside(alloc, table, algebra, *op, taken),
        ProofStep::Use { equation, terms } => {
            infer_use(alloc, table, algebra, *equation, terms, taken)
        }
    }
}

/// Runs a step on a stack of equations, if it applies.
pub fn take_step(
    alloc: Global,
    table: &mut TermTable,
    algebra: &DataSpec,
    stack: &mut Vec<Pair>,
    step: &ProofStep,
) -> Result<bool, Memory>
    requires executable { IsExecutable (theory_of algebra.now) }
    requires fit { AreFit (theory_of algebra.now) table.old }
    requires there { Each (IsPair table.old) stack.old.items }
    ensures grown { OnOk result (Grows (theory_of algebra.now) table.old table.new) }
    ensures there { IfOk result (λ ok. IsTrue ok → Each (IsPair table.new) stack.new.items) }
    ensures applies { IfOk result (λ ok. IsTrue ok → StepOf (theory_of algebra.now) step.now (stack_of table.old stack.old.items)
        (stack_of table.new stack.new.items)) }
    ensures fails { IfOk result (λ ok. IsFalse ok → (new : List Sides) → StepOf (theory_of algebra.now) step.now
        (stack_of table.old stack.old.items) new → ⊥) }
{
    match count_taken(algebra, step) {
        None => Ok(false),
        Some(count) => {
            if stack.len() < count {
                return Ok(false);
            }
            let from = stack.len() - count;
            match infer(alloc, table, algebra, step, &stack[from..])? {
                None => Ok(false),
                Some(pair) => {
                    stack.truncate(from);
                    stack.push(pair)?;
                    Ok(true)
                }
            }
        }
    }
}
