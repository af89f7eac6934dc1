// Values and marks for variables, and terms with them in the places of their variables.

ghost use Rattle.std.specs.Prelude.{◌≡◌, ◌∷◌, [], IfOk, map, option_map};
ghost use Rattle.spec_core.specs.Terms.{term_of, terms};
ghost use Rattle.spec_core.specs.Theories.{theory_of};
ghost use Rattle.symbolic_rules.specs.MarkedTerms as marked;
ghost use Rattle.symbolic_rules.specs.MarkedTerms.{marked_instance};
ghost use Rattle.node_values.specs.Scopes.{marked_of, marks_of, marked_term_of, all_joined, scope_over};

use rule_model::sorts::result_sort;
use rule_origins::values::term_of_value;
use spec_core::equation::DataSpec;
use spec_core::items::{Op, Sort};
use spec_core::memory::Memory;
use spec_core::term::Term;
use spec_core::value::Value;
use std::alloc::Global;

/// What is known for a variable: a value, or the mark of a sort.
#[derive(Drop)]
pub enum Given {
    Value(Value),
    Mark(Sort),
}

/// A term, or the mark of a sort.
#[derive(Drop)]
pub enum Instance {
    Plain(Term),
    Marked(Sort),
}

impl Given {
    /// An equal one.
    pub fn copy(&self, alloc: Global) -> Result<Given, Memory>
        ensures equal { IfOk result (λ g. g ≡ self.now) }
    {
        match self {
            Given::Value(value) => Ok(Given::Value(value.copy(alloc)?)),
            Given::Mark(sort) => Ok(Given::Mark(*sort)),
        }
    }

    // The term that the value of a variable spells, or the mark.
    fn instance(&self, alloc: Global, algebra: &DataSpec, x: u32) -> Result<Instance, Memory>
        ensures { IfOk result (λ i. marked_term_of i ≡ marked_of (theory_of algebra.now) x self.now) }
    {
        match self {
            Given::Value(value) => Ok(Instance::Plain(term_of_value(alloc, algebra, x, value)?)),
            Given::Mark(sort) => Ok(Instance::Marked(*sort)),
        }
    }
}

// One more term in front.
fn in_front(term: Term, others: Vec<Term>) -> Result<Vec<Term>, Memory>
    ensures { IfOk result (λ all. map term_of all.items ≡ term_of term ∷ map term_of others.items) }
{
    let mut all = others;
    match all.insert(0, term) {
        Ok(()) => Ok(all),
        Err(_) => Err(Memory),
    }
}

// The terms, where none is a mark.
fn all_plain(alloc: Global, parts: &[Instance]) -> Result<Option<Vec<Term>>, Memory>
    ensures { IfOk result (λ o.
        option_map (λ all. terms (map term_of all.items)) o ≡ all_joined (map marked_term_of parts.now)) }
{
    match parts {
        [] => Ok(Some(Vec::new(alloc))),
        [first, rest @ ..] => match first {
            Instance::Marked(_) => Ok(None),
            Instance::Plain(term) => match all_plain(alloc, rest)? {
                None => Ok(None),
                Some(others) => Ok(Some(in_front(term.copy(alloc)?, others)?)),
            },
        },
    }
}

// An operation over parts.
fn applied(
    alloc: Global,
    algebra: &DataSpec,
    op: Op,
    parts: &[Instance],
) -> Result<Instance, Memory>
    ensures { IfOk result (λ i.
        marked_term_of i ≡ marked.applied (theory_of algebra.now) op.0 (all_joined (map marked_term_of parts.now))) }
{
    match all_plain(alloc, parts)? {
        None => Ok(Instance::Marked(result_sort(algebra, op))),
        Some(all) => Ok(Instance::Plain(Term::App(op, all))),
    }
}

/// Equal values and marks for variables.
pub fn copy_scope(alloc: Global, scope: &[(u32, Given)]) -> Result<Vec<(u32, Given)>, Memory>
    ensures equal { IfOk result (λ all. all.items ≡ scope.now) }
{
    let mut all = Vec::new(alloc);
    for pair in scope {
        let (x, given) = pair;
        all.push((*x, given.copy(alloc)?))?;
    }
    Ok(all)
}

/// What is known for the variables, with this for one of them.
pub fn with(scope: Vec<(u32, Given)>, x: u32, given: Given) -> Result<Vec<(u32, Given)>, Memory>
    ensures with { IfOk result (λ all. all.items ≡ (x, given) ∷ scope.items) }
{
    let mut all = scope;
    match all.insert(0, (x, given)) {
        Ok(()) => Ok(all),
        Err(_) => Err(Memory),
    }
}

/// Values for variables, of which the later ones come first, before what is known already.
pub fn known(
    alloc: Global,
    values: &[(u32, Value)],
    scope: Vec<(u32, Given)>,
) -> Result<Vec<(u32, Given)>, Memory>
    ensures known { IfOk result (λ all. all.items ≡ scope_over values.now scope.items) }
{
    match values {
        [] => Ok(scope),
        [first, rest @ ..] => {
            let (x, value) = first;
            let more = with(scope, *x, Given::Value(value.copy(alloc)?))?;
            known(alloc, rest, more)
        }
    }
}

// What stands for a variable.
fn at(alloc: Global, algebra: &DataSpec, scope: &[(u32, Given)], x: u32) -> Result<Instance, Memory>
    ensures { IfOk result (λ i. marked_term_of i ≡ marks_of (theory_of algebra.now) scope.now x) }
{
    match scope {
        [] => Ok(Instance::Plain(Term::Var(x))),
        [first, rest @ ..] => {
            let (y, given) = first;
            if x == *y {
                given.instance(alloc, algebra, *y)
            } else {
                at(alloc, algebra, rest, x)
            }
        }
    }
}

/// The term with what is known in the places of its variables; the mark of its sort where it holds a mark. It recurs as deep as the term.
pub fn put_in(
    alloc: Global,
    algebra: &DataSpec,
    scope: &[(u32, Given)],
    term: &Term,
) -> Result<Instance, Memory>
    ensures replaced { IfOk result (λ i.
        marked_term_of i ≡ marked_instance (theory_of algebra.now) (marks_of (theory_of algebra.now) scope.now) (term_of term.now)) }
{
    match term {
        Term::Var(x) => at(alloc, algebra, scope, *x),
        Term::App(op, args) => {
            let mut parts = Vec::new(alloc);
            for arg in args {
                parts.push(put_in(alloc, algebra, scope, arg)?)?;
            }
            applied(alloc, algebra, *op, &parts)
        }
    }
}
