// Processes by the `where` parts in which they stand.

ghost use Rattle.std.specs.Prelude.{◌≡◌, ◌++◌, ◌∷◌, ◌==◌, [], ℕ, Option, IfOk, OnOk, map, if◌then◌else◌};
ghost use Rattle.static_processes.specs.Processes.{is_innermost};
ghost use Rattle.static_processes.specs.Views.{entry_of};
ghost use Rattle.static_processes.specs.WhereParts.{inner_at, numbers_at, ArePartsOf};

use crate::entry::Entry;
use indexmap::IndexMap;
use spec_core::memory::Memory;
use std::alloc::Global;

/// The numbers of processes by the `where` parts in which they stand.
#[derive(Drop)]
pub struct WhereParts {
    // those of the specification's part
    outer: Vec<usize>,
    // those of the part of a process, by its number
    inner: IndexMap<usize, Vec<usize>>,
}

impl WhereParts {
    /// Those of these processes.
    pub fn of(alloc: Global, table: &[Entry<'_>]) -> Result<WhereParts, Memory>
        ensures { IfOk result (λ parts. ArePartsOf parts (map entry_of table.now)) }
    {
        let mut parts = WhereParts {
            outer: Vec::new(alloc),
            inner: IndexMap::new(alloc),
        };
        for (number, entry) in table.iter().enumerate() {
            parts.add(&entry.around, number)?;
        }
        Ok(parts)
    }

    // Adds a process that stands in the part of a process.
    fn add_inner(&mut self, process: usize, number: usize) -> Result<(), Memory>
        ensures outer { OnOk result (self.new.outer ≡ self.old.outer) }
        ensures inner { OnOk result ((other : ℕ) → inner_at self.new other
            ≡ inner_at self.old other ++ (if other == process then number ∷ [] else [])) }
    {
        self.inner.entry(process)?.or_default().push(number)?;
        Ok(())
    }

    // Adds a process that stands within these.
    fn add(&mut self, around: &[usize], number: usize) -> Result<(), Memory>
        ensures { OnOk result ((within : Option ℕ) → numbers_at self.new within
            ≡ numbers_at self.old within ++ (if is_innermost within around.now then number ∷ [] else [])) }
    {
        match around {
            [] => {
                self.outer.push(number)?;
                Ok(())
            }
            [process, ..] => self.add_inner(*process, number),
        }
    }

    /// The numbers of those that stand in the part of a process; where there is none, of those that stand in that of the specification. It
    /// takes no memory.
    pub fn standing(&self, within: Option<usize>) -> &[usize]
        ensures { result.now ≡ numbers_at self.now within }
    {
        match within {
            None => &self.outer,
            Some(process) => match self.inner.get(&process) {
                None => &[],
                Some(numbers) => numbers,
            },
        }
    }
}
