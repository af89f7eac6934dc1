// What stands for a variable of a pattern: the constructors of its sort.

ghost use Rattle.std.specs.Prelude.{ℕ, ◌≡◌, List, IfOk, OnOk, map};
ghost use Rattle.cover_search.specs.Candidates.{AreMeeting, HasCandidates};
ghost use Rattle.cover_search.specs.Indexes.{IsIndexOf};
ghost use Rattle.cover_search.specs.Search.{variables, stack_of, IsOpened, AreAlternatives};
ghost use Rattle.cover_search.specs.Splits.{IsSplitOf};
ghost use Rattle.spec_core.specs.Lists.{Each};
ghost use Rattle.spec_core.specs.Numbers.{sort_number};
ghost use Rattle.spec_core.specs.Sorts.{FitsData};
ghost use Rattle.spec_core.specs.Terms.{TermTrees, apply, term_of, terms};
ghost use Rattle.spec_core.specs.Theories.{theory_of, operation_of};

use crate::are_in;
use crate::arguments::Arguments;
use crate::index::DataIndex;
use crate::opening::opened_any;
use crate::pending::Pending;
use crate::split::Split;
use equation_sets::set::NumberSet;
use spec_core::equation::DataSpec;
use spec_core::items::{Op, Sort};
use spec_core::memory::Memory;
use spec_core::signature::OpDecl;
use spec_core::term::Term;
use std::alloc::Global;

// The constructor over a variable of each of its argument sorts.
fn constructor_over(alloc: Global, op: Op, args: &[Sort]) -> Result<Term, Memory>
    ensures { IfOk result (λ t. term_of t ≡ apply op.0 (variables (map sort_number args.now))) }
{
    let mut all = Vec::new(alloc);
    for sort in args {
        all.push(Term::Var(sort.0))?;
    }
    Ok(Term::App(op, all))
}

// Puts the pattern opened by an operation on the stack, if all its argument sorts have values.
fn push_alternative(
    alloc: Global,
    inhabited: &NumberSet,
    op: Op,
    declaration: &OpDecl,
    row: &[Term],
    pattern: &[Term],
    split: &Split,
    todo: &mut Vec<Pending>,
) -> Result<(), Memory>
    ensures opened { OnOk result (IsOpened inhabited.now (terms (map term_of row.now)) (terms (map term_of pattern.now)) op.0
        (operation_of declaration.now) (stack_of todo.old.items) (stack_of todo.new.items)) }
    ensures candidates { OnOk result ((rows : List TermTrees) (numbers : List ℕ) →
        IsSplitOf split.now rows (terms (map term_of row.now)) (terms (map term_of pattern.now)) numbers →
        AreMeeting rows (terms (map term_of pattern.now)) numbers → Each (HasCandidates rows) todo.old.items →
        Each (HasCandidates rows) todo.new.items) }
{
    if !are_in(&declaration.args, inhabited) {
        return Ok(());
    }
    let made = constructor_over(alloc, op, &declaration.args)?;
    let items = opened_any(row, pattern, alloc, &made)?;
    let candidates = split.candidates(alloc, op)?;
    todo.push(Pending {
        pattern: Arguments { items },
        candidates,
    })?;
    Ok(())
}

/// Puts the patterns opened by all constructors of the sort that have values on the stack, the least on top.
pub fn push_alternatives(
    alloc: Global,
    algebra: &DataSpec,
    index: &DataIndex<'_>,
    sort: u32,
    row: &[Term],
    pattern: &[Term],
    split: &Split,
    todo: &mut Vec<Pending>,
) -> Result<(), Memory>
    requires fits { FitsData (theory_of algebra.now) }
    requires index { IsIndexOf index.now (theory_of algebra.now) }
    ensures alternatives { OnOk result (AreAlternatives (theory_of algebra.now) sort (terms (map term_of row.now)) (terms (map term_of pattern.now)) 0
        (stack_of todo.old.items) (stack_of todo.new.items)) }
    ensures candidates { OnOk result ((rows : List TermTrees) (numbers : List ℕ) →
        IsSplitOf split.now rows (terms (map term_of row.now)) (terms (map term_of pattern.now)) numbers →
        AreMeeting rows (terms (map term_of pattern.now)) numbers → Each (HasCandidates rows) todo.old.items →
        Each (HasCandidates rows) todo.new.items) }
{
    let constructors = index.constructors.of_sort(sort);
    let mut place = constructors.len();
    while place > 0 {
        place -= 1;
        let op = constructors[place];
        let declaration = &algebra.signature.ops[op.0 as usize];
        push_alternative(
            alloc,
            &index.inhabited,
            op,
            declaration,
            row,
            pattern,
            split,
            todo,
        )?;
    }
    Ok(())
}
