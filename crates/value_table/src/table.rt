// Tables of terms.

ghost use Rattle.std.specs.Prelude.{ℕ, ◌≡◌, ◌↔◌, ◌⊎◌, [], IfOk, IsTrue, map};
ghost use Rattle.spec_core.specs.Lists.{Each};
ghost use Rattle.spec_core.specs.Sorts.{FitsGround};
ghost use Rattle.spec_core.specs.Terms.{apply, terms};
ghost use Rattle.spec_core.specs.Theories.{Theory};
ghost use Rattle.value_table.specs.Tables.{application_of, tree_at, AreFit, HasRow, IsLonger, IsRow};

use indexmap::IndexSet;
use spec_core::items::Op;
use spec_core::memory::Memory;
use std::alloc::Global;
use std::marker::Model;

/// An operation over the terms of the rows with these numbers.
#[derive(PartialEq, Eq, Hash, Drop)]
pub struct Row {
    pub op: u32,
    pub args: Vec<u32>,
}

/// Terms, each once: a row is an operation over the terms of rows before it. A contract sees a table as the list of its rows.
#[derive(Drop)]
pub struct TermTable {
    rows: IndexSet<Row>,
}

impl Model for TermTable {
    ghost use Rattle.std.specs.Prelude.{List, map};
    ghost use Rattle.value_table.specs.Tables.{Application, application_of, IsTable};

    ghost Value = { List Application };

    ghost view = { λ table. map application_of table.rows.keys };

    ghost invariant = { λ table. IsTable (map application_of table.rows.keys) };
}

impl TermTable {
    /// No terms. It takes no memory.
    pub fn new(alloc: Global) -> TermTable
        ensures none { result ≡ [] }
    {
        TermTable {
            rows: IndexSet::new(alloc),
        }
    }

    // The number of a row, which comes last where it isn't there.
    fn insert(&mut self, row: Row) -> Result<usize, Memory>
        requires there { Each (IsRow self.old) row.args.items }
        ensures { IfOk result (λ n. HasRow self.old (application_of row) self.new n) }
    {
        let (place, _) = self.rows.insert_full(row)?;
        Ok(place)
    }

    /// The row of an operation over the terms of rows. Want of memory is answered too where the table would have more than 2^32 rows.
    pub fn make(&mut self, op: Op, args: Vec<u32>) -> Result<u32, Memory>
        requires there { Each (IsRow self.old) args.items }
        ensures longer { IfOk result (λ n. IsLonger self.old self.new) }
        ensures there { IfOk result (λ n. IsRow self.new n) }
        ensures tree { IfOk result (λ n. tree_at self.new n ≡ apply op.0 (terms (map (tree_at self.old) args.items))) }
        ensures fit { IfOk result (λ n.
            (theory : Theory) →
            FitsGround theory (apply op.0 (terms (map (tree_at self.old) args.items))) →
            AreFit theory self.old →
            AreFit theory self.new) }
    {
        let place = self.insert(Row { op: op.0, args })?;
        number_of(place)
    }

    /// The operation of a row and the rows of its arguments. It takes no memory.
    pub fn at(&self, row: u32) -> (Op, &[u32])
        requires there { IsRow self.now row }
        ensures term { tree_at self.now row ≡ apply result.0.0 (terms (map (tree_at self.now) result.1.now)) }
        ensures args { Each (IsRow self.now) result.1.now }
    {
        let found = &self.rows.as_slice()[row as usize];
        (Op(found.op), &found.args)
    }

    /// Whether two rows stand for one term. It takes no memory, and doesn't look at the term.
    pub fn same(&self, left: u32, right: u32) -> bool
        requires left { IsRow self.now left }
        requires right { IsRow self.now right }
        ensures decides { IsTrue result ↔ (tree_at self.now left ≡ tree_at self.now right) }
    {
        let _ = &self.rows;
        left == right
    }
}

// A place as a row's number. Want of memory is answered where it has none.
fn number_of(place: usize) -> Result<u32, Memory>
    ensures { IfOk result (λ n. n ≡ place) }
{
    match u32::try_from(place) {
        Ok(number) => Ok(number),
        Err(_) => Err(Memory),
    }
}
