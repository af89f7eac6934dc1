// Instances of the terms of equations.

ghost use Rattle.std.specs.Prelude.{◌≡◌, ◌↔◌, IfOk, IsTrue, OnOk, map};
ghost use Rattle.spec_core.specs.Lists.{Each};
ghost use Rattle.spec_core.specs.Sorts.{FitsGround};
ghost use Rattle.spec_core.specs.Theories.{premise_of, theory_of};
ghost use Rattle.value_table.specs.Tables.{tree_at, AreFit, IsRow};
ghost use Rattle.equal_proof.specs.Certificates.{bound_by, premise_instance};
ghost use Rattle.equal_proof.specs.Pairs.{instance_at, instances_at, premise_fits_at, sides_at, stack_of, Grows, IsPair};

use crate::pair::Pair;
use crate::variables::bound_row;
use spec_core::equation::DataSpec;
use spec_core::memory::Memory;
use spec_core::term::Term;
use std::alloc::Global;
use value_table::table::TermTable;

/// The row of a term's instance. It recurs as deep as the term, which is one of the specification's text.
#[cycle(instances)]
pub fn instance(
    alloc: Global,
    table: &mut TermTable,
    algebra: &DataSpec,
    variables: &[u32],
    rows: &[u32],
    term: &Term,
) -> Result<u32, Memory>
    requires fit { AreFit (theory_of algebra.now) table.old }
    requires rows { Each (IsRow table.old) rows.now }
    requires fits { FitsGround (theory_of algebra.now) (instance_at table.old variables.now rows.now term.now) }
    ensures grown { OnOk result (Grows (theory_of algebra.now) table.old table.new) }
    ensures there { IfOk result (IsRow table.new) }
    ensures tree { IfOk result (λ row. tree_at table.new row ≡ instance_at table.old variables.now rows.now term.now) }
{
    match term {
        Term::Var(variable) => match bound_row(table, variables, rows, *variable) {
            None => Err(Memory),
            Some(row) => Ok(row),
        },
        Term::App(op, args) => {
            let made = all_instances(alloc, table, algebra, variables, rows, args)?;
            table.make(*op, made)
        }
    }
}

// The rows of the instances of terms.
#[cycle(instances)]
fn all_instances(
    alloc: Global,
    table: &mut TermTable,
    algebra: &DataSpec,
    variables: &[u32],
    rows: &[u32],
    all: &[Term],
) -> Result<Vec<u32>, Memory>
    requires fit { AreFit (theory_of algebra.now) table.old }
    requires rows { Each (IsRow table.old) rows.now }
    requires fits { Each (FitsGround (theory_of algebra.now)) (instances_at table.old variables.now rows.now all.now) }
    ensures grown { OnOk result (Grows (theory_of algebra.now) table.old table.new) }
    ensures there { IfOk result (λ made. Each (IsRow table.new) made.items) }
    ensures trees { IfOk result (λ made. map (tree_at table.new) made.items ≡ instances_at table.old variables.now rows.now all.now) }
{
    let mut made = Vec::new(alloc);
    for term in all {
        made.push(instance(alloc, table, algebra, variables, rows, term)?)?;
    }
    Ok(made)
}

// Whether an equation is the instance of a premise.
fn premise_holds(
    alloc: Global,
    table: &mut TermTable,
    algebra: &DataSpec,
    variables: &[u32],
    rows: &[u32],
    premise: &(Term, Term),
    pair: Pair,
) -> Result<bool, Memory>
    requires fit { AreFit (theory_of algebra.now) table.old }
    requires rows { Each (IsRow table.old) rows.now }
    requires there { IsPair table.old pair }
    requires fits { premise_fits_at (theory_of algebra.now) table.old variables.now rows.now premise.now }
    ensures grown { OnOk result (Grows (theory_of algebra.now) table.old table.new) }
    ensures decides { IfOk result (λ holds.
        IsTrue holds ↔ (sides_at table.old pair ≡
        premise_instance (bound_by variables.now (map (tree_at table.old) rows.now)) (premise_of premise.now))) }
{
    let left = instance(alloc, table, algebra, variables, rows, &premise.0)?;
    let right = instance(alloc, table, algebra, variables, rows, &premise.1)?;
    if !table.same(pair.left, left) {
        return Ok(false);
    }
    Ok(table.same(pair.right, right))
}

/// Whether equations are the instances of premises, one by one.
pub fn premises_hold(
    alloc: Global,
    table: &mut TermTable,
    algebra: &DataSpec,
    variables: &[u32],
    rows: &[u32],
    premises: &[(Term, Term)],
    taken: &[Pair],
) -> Result<bool, Memory>
    requires fit { AreFit (theory_of algebra.now) table.old }
    requires rows { Each (IsRow table.old) rows.now }
    requires there { Each (IsPair table.old) taken.now }
    requires fits { Each (premise_fits_at (theory_of algebra.now) table.old variables.now rows.now) premises.now }
    ensures grown { OnOk result (Grows (theory_of algebra.now) table.old table.new) }
    ensures decides { IfOk result (λ hold.
        IsTrue hold ↔ (stack_of table.old taken.now ≡
        map (premise_instance (bound_by variables.now (map (tree_at table.old) rows.now))) (map premise_of premises.now))) }
{
    match premises {
        [] => Ok(taken.is_empty()),
        [premise, others @ ..] => match taken {
            [] => Ok(false),
            [pair, rest @ ..] => {
                if premise_holds(alloc, table, algebra, variables, rows, premise, *pair)? {
                    premises_hold(alloc, table, algebra, variables, rows, others, rest)
                } else {
                    Ok(false)
                }
            }
        },
    }
}
