// Processes by the `where` parts in which they stand, and by their names.

ghost use Rattle.std.specs.Prelude.{◌≡◌, List, ◌++◌, ◌∷◌, ◌==◌, [], ℕ, Option, IfOk, OnOk, map, if◌then◌else◌};
ghost use Rattle.static_processes.specs.NamedParts.{inner_at, processes_at, processes_within, headings_at, AreNamedPartsOf};
ghost use Rattle.static_processes.specs.Processes as processes;
ghost use Rattle.static_processes.specs.Processes.{is_innermost, visible_in};
ghost use Rattle.static_processes.specs.Views.{entry_of};
ghost use Rattle.static_readings.specs.Named.{one_behind_other};
ghost use Rattle.static_readings.specs.Sites as sites;
ghost use Rattle.static_readings.specs.Views.{heading_of};

use crate::entry::Entry;
use indexmap::IndexMap;
use spec_core::memory::Memory;
use static_readings::heading::Heading;
use static_readings::named_processes::NamedProcesses;
use std::alloc::Global;

/// The processes of each `where` part.
#[derive(Drop)]
pub struct NamedParts<'a> {
    // those of the specification's part
    outer: NamedProcesses<'a>,
    // those of the part of a process, by its number
    inner: IndexMap<usize, NamedProcesses<'a>>,
}

// Adds those that can be called within these.
fn add_visible<'p, 'a>(
    parts: &'p NamedParts<'a>,
    around: &[usize],
    all: &mut Vec<&'p NamedProcesses<'a>>,
) -> Result<(), Memory>
    ensures { OnOk result (one_behind_other all.new.items ≡ one_behind_other all.old.items ++ processes_within parts.now around.now) }
{
    match around {
        [] => {
            all.push(&parts.outer)?;
            Ok(())
        }
        [process, others @ ..] => {
            parts.add_inner_to(*process, all)?;
            add_visible(parts, others, all)
        }
    }
}

impl<'a> NamedParts<'a> {
    /// Those of these processes, which have these headings.
    pub fn of(
        alloc: Global,
        table: &[Entry<'_>],
        headings: &'a [Heading],
    ) -> Result<NamedParts<'a>, Memory>
        ensures { IfOk result (λ parts. AreNamedPartsOf parts (map heading_of headings.now) (map entry_of table.now)) }
    {
        let mut parts = NamedParts {
            outer: NamedProcesses::new(alloc),
            inner: IndexMap::new(alloc),
        };
        for (number, entry) in table.iter().enumerate() {
            parts.add_numbered(alloc, &entry.around, headings, number)?;
        }
        Ok(parts)
    }

    // Adds a process that stands in the part of a process.
    fn add_inner(
        &mut self,
        alloc: Global,
        process: usize,
        heading: &'a Heading,
    ) -> Result<(), Memory>
        ensures outer { OnOk result (self.new.outer ≡ self.old.outer) }
        ensures inner { OnOk result ((other : ℕ) → inner_at self.new other
            ≡ inner_at self.old other ++ (if other == process then heading_of heading.now ∷ [] else [])) }
    {
        self.inner
            .entry(process)?
            .or_insert(NamedProcesses::new(alloc))
            .push(alloc, heading)?;
        Ok(())
    }

    // Adds a process that stands within these.
    fn add(&mut self, alloc: Global, around: &[usize], heading: &'a Heading) -> Result<(), Memory>
        ensures { OnOk result ((within : Option ℕ) → processes_at self.new within
            ≡ processes_at self.old within ++ (if is_innermost within around.now then heading_of heading.now ∷ [] else [])) }
    {
        match around {
            [] => self.outer.push(alloc, heading),
            [process, ..] => self.add_inner(alloc, *process, heading),
        }
    }

    // Adds the process of a number, which stands within these, if there is one.
    fn add_numbered(
        &mut self,
        alloc: Global,
        around: &[usize],
        headings: &'a [Heading],
        number: usize,
    ) -> Result<(), Memory>
        ensures { OnOk result ((within : Option ℕ) → processes_at self.new within ≡ processes_at self.old within
            ++ headings_at (map heading_of headings.now) (if is_innermost within around.now then number ∷ [] else [])) }
    {
        if number < headings.len() {
            self.add(alloc, around, &headings[number])
        } else {
            Ok(())
        }
    }

    // Adds those that stand in the part of a process.
    fn add_inner_to<'p>(
        &'p self,
        process: usize,
        all: &mut Vec<&'p NamedProcesses<'a>>,
    ) -> Result<(), Memory>
        ensures { OnOk result (one_behind_other all.new.items ≡ one_behind_other all.old.items ++ inner_at self.now process) }
    {
        match self.inner.get(&process) {
            None => Ok(()),
            Some(processes) => {
                all.push(processes)?;
                Ok(())
            }
        }
    }

    /// The processes that can be called within these: those of the innermost `where` part stand first, those of the specification's last.
    pub fn visible<'p>(
        &'p self,
        alloc: Global,
        around: &[usize],
    ) -> Result<Vec<&'p NamedProcesses<'a>>, Memory>
        ensures { IfOk result (λ all. (headings : List sites.Heading) (table : List processes.Entry) →
            AreNamedPartsOf self.now headings table → one_behind_other all.items ≡ headings_at headings (visible_in table around.now)) }
    {
        let mut all = Vec::new(alloc);
        add_visible(self, around, &mut all)?;
        Ok(all)
    }
}
