// Where a row of patterns tells apart what a pattern leaves open.

ghost use Rattle.std.specs.Prelude.{◌≡◌, IfOk, map};
ghost use Rattle.cover_search.specs.Search.{faced, faced_any, opened, opened_any, operation_of, operation_there, operation_there_in};
ghost use Rattle.spec_core.specs.Terms.{term_of, terms};

use spec_core::memory::Memory;
use spec_core::term::{Term, copy_terms};
use std::alloc::Global;

// The sort of the leftmost variable of a pattern that faces an operation of the row.
#[cycle(faced)]
fn faced(row: &Term, pattern: &Term) -> Option<u32>
    ensures { result ≡ faced (term_of row.now) (term_of pattern.now) }
{
    match row {
        Term::Var(_) => None,
        Term::App(_, rows) => match pattern {
            Term::Var(sort) => Some(*sort),
            Term::App(_, patterns) => faced_any(rows, patterns),
        },
    }
}

/// The same of two lists. It takes no memory.
#[cycle(faced)]
pub fn faced_any(rows: &[Term], patterns: &[Term]) -> Option<u32>
    ensures { result ≡ faced_any (terms (map term_of rows.now)) (terms (map term_of patterns.now)) }
{
    for (i, row) in rows.iter().enumerate() {
        if i < patterns.len() {
            let found = faced(row, &patterns[i]);
            if found.is_some() {
                return found;
            }
        }
    }
    None
}

// The pattern with a term in the place of that variable.
#[cycle(opened)]
fn opened(row: &Term, pattern: &Term, alloc: Global, replacement: &Term) -> Result<Term, Memory>
    ensures { IfOk result (λ t. term_of t ≡ opened (term_of replacement.now) (term_of row.now) (term_of pattern.now)) }
{
    match row {
        Term::Var(_) => pattern.copy(alloc),
        Term::App(_, rows) => match pattern {
            Term::Var(_) => replacement.copy(alloc),
            Term::App(op, patterns) => Ok(Term::App(
                *op,
                opened_any(rows, patterns, alloc, replacement)?,
            )),
        },
    }
}

/// The same of two lists.
#[cycle(opened)]
pub fn opened_any(
    rows: &[Term],
    patterns: &[Term],
    alloc: Global,
    replacement: &Term,
) -> Result<Vec<Term>, Memory>
    ensures { IfOk result (λ all. terms (map term_of all.items) ≡
        opened_any (term_of replacement.now) (terms (map term_of rows.now)) (terms (map term_of patterns.now))) }
{
    let mut all = copy_terms(alloc, patterns)?;
    for (i, pattern) in patterns.iter().enumerate() {
        if i < rows.len() {
            let row = &rows[i];
            if faced(row, pattern).is_some() {
                all[i] = opened(row, pattern, alloc, replacement)?;
                return Ok(all);
            }
        }
    }
    Ok(all)
}

// The operation of a term that isn't a variable.
fn operation_of(term: &Term) -> Option<u32>
    ensures { result ≡ operation_of (term_of term.now) }
{
    match term {
        Term::Var(_) => None,
        Term::App(op, _) => Some(op.0),
    }
}

// The operation that another row has at the place of that variable; none where it has a variable there, or above it.
#[cycle(there)]
fn operation_there(row: &Term, pattern: &Term, other: &Term) -> Option<u32>
    ensures { result ≡ operation_there (term_of row.now) (term_of pattern.now) (term_of other.now) }
{
    match row {
        Term::Var(_) => None,
        Term::App(_, rows) => match pattern {
            Term::Var(_) => operation_of(other),
            Term::App(_, patterns) => match other {
                Term::Var(_) => None,
                Term::App(_, others) => operation_there_in(rows, patterns, others),
            },
        },
    }
}

/// The same of three lists. It takes no memory.
#[cycle(there)]
pub fn operation_there_in(rows: &[Term], patterns: &[Term], others: &[Term]) -> Option<u32>
    ensures { result ≡ operation_there_in (terms (map term_of rows.now)) (terms (map term_of patterns.now)) (terms (map term_of others.now)) }
{
    match rows {
        [] => None,
        [row, rows @ ..] => match patterns {
            [] => None,
            [pattern, patterns @ ..] => match others {
                [] => None,
                [other, others @ ..] => {
                    let facing = faced(row, pattern);
                    match facing {
                        None => operation_there_in(rows, patterns, others),
                        Some(_) => operation_there(row, pattern, other),
                    }
                }
            },
        },
    }
}
