// Tables of readings.

ghost use Rattle.std.specs.Prelude.{◌≡◌, List, map, IfOk, slice_index_or};
ghost use Rattle.sort_overloads.specs.Listed.{Typed};
ghost use Rattle.spec_core.specs.Terms.{term_of};
ghost use Rattle.sort_overloads.specs.Tables.{reading_of, table_of, arguments_of, root_term, picked, no_reading_there};

use spec_core::items::{Op, Sort};
use spec_core::memory::Memory;
use spec_core::term::Term;
use std::alloc::Global;

/// A reading of an argument: its place among the arguments, and that of the reading in the argument's table.
#[derive(Clone, Copy, Debug, PartialEq, Eq)]
pub struct Pick {
    pub argument: usize,
    pub reading: usize,
}

/// What a reading begins with: a variable alone, or an operation over a reading of each argument.
#[derive(Drop)]
pub enum Root {
    Variable(u32),
    Operation(Op, Vec<Pick>),
}

/// What an expression may stand for, with its sort.
#[derive(Drop)]
pub struct Reading {
    pub root: Root,
    pub sort: Sort,
}

/// Readings of an expression, and the tables of its arguments.
#[derive(Drop)]
pub struct Table {
    pub readings: Vec<Reading>,
    pub parts: Vec<Table>,
}

impl Table {
    /// The table of these readings over the tables of the arguments.
    pub fn new(readings: Vec<Reading>, parts: Vec<Table>) -> Table
        ensures { table_of result ≡ map (reading_of (map table_of parts.items)) readings.items }
    {
        Table { readings, parts }
    }

    /// The readings, and the tables of the arguments.
    pub fn into_parts(self) -> (Vec<Reading>, Vec<Table>)
        ensures { table_of self ≡ map (reading_of (map table_of result.1.items)) result.0.items }
    {
        (self.readings, self.parts)
    }

    /// The readings.
    pub fn readings(&self) -> &[Reading]
        ensures { table_of self.now ≡ map (reading_of (arguments_of self.now)) result.now }
    {
        &self.readings
    }

    /// The term of a reading, by its number.
    #[cycle(terms)]
    pub fn term(&self, alloc: Global, number: usize) -> Result<Term, Memory>
        ensures { IfOk result (λ t. term_of t ≡ (slice_index_or (table_of self.now) number no_reading_there).term) }
    {
        if number >= self.readings.len() {
            return Ok(Term::Var(0));
        }
        reading_term(alloc, &self.parts, &self.readings[number])
    }
}

// The term of a reading over the tables of the arguments.
#[cycle(terms)]
fn reading_term(alloc: Global, parts: &[Table], reading: &Reading) -> Result<Term, Memory>
    ensures { IfOk result (λ t. term_of t ≡ root_term (map table_of parts.now) reading.now.root) }
{
    match &reading.root {
        Root::Variable(variable) => Ok(Term::Var(*variable)),
        Root::Operation(op, picks) => Ok(Term::App(*op, picked_terms(alloc, parts, picks)?)),
    }
}

// The terms that picks name among the readings of the arguments.
#[cycle(terms)]
fn picked_terms(alloc: Global, parts: &[Table], picks: &[Pick]) -> Result<Vec<Term>, Memory>
    ensures { IfOk result (λ all. map term_of all.items ≡ map (picked (map table_of parts.now)) picks.now) }
{
    let mut all = Vec::new(alloc);
    for pick in picks {
        all.push(picked_term(alloc, parts, pick)?)?;
    }
    Ok(all)
}

// The term that a pick names.
#[cycle(terms)]
fn picked_term(alloc: Global, parts: &[Table], pick: &Pick) -> Result<Term, Memory>
    ensures { IfOk result (λ t. term_of t ≡ picked (map table_of parts.now) pick.now) }
{
    if pick.argument >= parts.len() {
        return Ok(Term::Var(0));
    }
    parts[pick.argument].term(alloc, pick.reading)
}
