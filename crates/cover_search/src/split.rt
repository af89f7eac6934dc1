// Rows by what they have at a place.

ghost use Rattle.std.specs.Prelude.{ℕ, ◌≡◌, ◌<◌, ◌++◌, IfOk, OnOk, Option, None, Some, [], length, map};
ghost use Rattle.cover_search.specs.Search.{rows_of};
ghost use Rattle.cover_search.specs.Splits.{number_if, numbers_at, operation_at, IsSplitOf};
ghost use Rattle.spec_core.specs.Lists.{Each};
ghost use Rattle.spec_core.specs.Terms.{term_of, terms};

use crate::arguments::Arguments;
use crate::opening::operation_there_in;
use indexmap::IndexMap;
use spec_core::items::Op;
use spec_core::memory::Memory;
use spec_core::term::Term;
use std::alloc::Global;

/// The numbers of rows by the operations that they have where a pattern is opened.
#[derive(Drop)]
pub struct Split {
    // by the numbers of these operations
    places: IndexMap<u32, Vec<usize>>,
    // of those that have a variable there, or above it
    others: Vec<usize>,
}

// No rows.
fn no_rows(alloc: Global) -> Split
    ensures places { (f : ℕ) → numbers_at result (Some f) ≡ [] }
    ensures others { numbers_at result None ≡ [] }
{
    Split {
        places: IndexMap::new(alloc),
        others: Vec::new(alloc),
    }
}

impl Split {
    // Puts a number behind those of an operation.
    fn add_under(&mut self, op: u32, number: usize) -> Result<(), Memory>
        ensures others { OnOk result (self.new.others ≡ self.old.others) }
        ensures added { OnOk result ((f : ℕ) → numbers_at self.new (Some f) ≡ numbers_at self.old (Some f) ++ number_if (Some f) (Some op) number) }
    {
        self.places.entry(op)?.or_default().push(number)?;
        Ok(())
    }

    // Puts a number behind those of an operation, or of none.
    fn add(&mut self, operation: Option<u32>, number: usize) -> Result<(), Memory>
        ensures { OnOk result ((o : Option ℕ) → numbers_at self.new o ≡ numbers_at self.old o ++ number_if o operation number) }
    {
        match operation {
            None => {
                self.others.push(number)?;
                Ok(())
            }
            Some(op) => self.add_under(op, number),
        }
    }

    // Puts in the number of a row by what it has where the leftmost variable of a pattern faces an operation of the first row.
    fn add_row(
        &mut self,
        rows: &[Arguments],
        row: &[Term],
        pattern: &[Term],
        number: usize,
    ) -> Result<(), Memory>
        requires { number < length rows.now }
        ensures { OnOk result ((o : Option ℕ) → numbers_at self.new o ≡ numbers_at self.old o
            ++ number_if o (operation_at (rows_of rows.now) (terms (map term_of row.now)) (terms (map term_of pattern.now)) number) number) }
    {
        let operation = operation_there_in(row, pattern, &rows[number].items);
        self.add(operation, number)?;
        Ok(())
    }

    /// These rows by what they have where the leftmost variable of the pattern faces an operation of the first row.
    pub fn of(
        alloc: Global,
        rows: &[Arguments],
        row: &[Term],
        pattern: &[Term],
        numbers: &[usize],
    ) -> Result<Split, Memory>
        requires { Each (λ n. n < length rows.now) numbers.now }
        ensures { IfOk result (λ split.
            IsSplitOf split (rows_of rows.now) (terms (map term_of row.now)) (terms (map term_of pattern.now)) numbers.now) }
    {
        let mut split = no_rows(alloc);
        for number in numbers {
            split.add_row(rows, row, pattern, *number)?;
        }
        Ok(split)
    }

    // The numbers of the rows that have this operation there.
    fn under(&self, op: Op) -> &[usize]
        ensures { result.now ≡ numbers_at self.now (Some op.0) }
    {
        match self.places.get(&op.0) {
            None => &[],
            Some(all) => all,
        }
    }

    /// The numbers of the rows that have this operation there, or a variable there or above.
    pub fn candidates(&self, alloc: Global, op: Op) -> Result<Vec<usize>, Memory>
        ensures { IfOk result (λ all. all.items ≡ numbers_at self.now (Some op.0) ++ numbers_at self.now None) }
    {
        let mut all = Vec::from_slice(alloc, self.under(op))?;
        all.extend_from_slice(&self.others)?;
        Ok(all)
    }
}
