// Processes by their names.

ghost use Rattle.std.specs.Prelude.{◌≡◌, ◌++◌, ◌∷◌, [], OnOk, OnErr, map, option_map};
ghost use Rattle.std.specs.List.{find};
ghost use Rattle.static_readings.specs.Named.{has_small_name};
ghost use Rattle.static_readings.specs.Views.{heading_of};

use crate::heading::Heading;
use indexmap::IndexMap;
use spec_core::memory::Memory;
use std::alloc::Global;
use std::marker::Model;

/// Processes, of which an earlier one hides a later one of its name.
#[derive(Drop)]
pub struct NamedProcesses<'a> {
    // in order
    all: Vec<&'a Heading>,
    // the first of each name, by names in small letters
    first: IndexMap<String, &'a Heading>,
}

impl<'a> Model for NamedProcesses<'a> {
    ghost use Rattle.std.specs.Prelude.{◌≡◌, ℕ, List, map, option_map};
    ghost use Rattle.std.specs.List.{find};
    ghost use Rattle.indexmap.specs.IndexMap.{get_by_text};
    ghost use Rattle.static_readings.specs.Named.{has_small_name};
    ghost use Rattle.static_readings.specs.Sites as sites;
    ghost use Rattle.static_readings.specs.Views.{heading_of};

    ghost Value = { List sites.Heading };

    ghost view = { λ p. map (λ h. heading_of h.now) p.all.items };

    ghost invariant = { λ p. (name : List ℕ) → option_map (λ h. heading_of h.now) (get_by_text p.first name)
        ≡ find (has_small_name name) (map (λ h. heading_of h.now) p.all.items) };
}

impl<'a> NamedProcesses<'a> {
    /// No processes. It takes no memory.
    pub fn new(alloc: Global) -> NamedProcesses<'a>
        ensures { result ≡ [] }
    {
        NamedProcesses {
            all: Vec::new(alloc),
            first: IndexMap::new(alloc),
        }
    }

    /// Puts a process behind those that are there. Where memory is wanting, nothing is put.
    pub fn push(&mut self, alloc: Global, heading: &'a Heading) -> Result<(), Memory>
        ensures put { OnOk result (self.new ≡ self.old ++ heading_of heading.now ∷ []) }
        ensures refused { OnErr result (self.new ≡ self.old) }
    {
        let name = heading.name.as_str().to_ascii_lowercase(alloc)?;
        self.all.push(heading)?;
        if self.first.contains_key(name.as_str()) {
            return Ok(());
        }
        match self.first.insert(name, heading) {
            Ok(_) => Ok(()),
            Err(_) => {
                self.all.pop();
                Err(Memory)
            }
        }
    }

    /// The first process of a name that is given in small letters. It takes no memory.
    pub fn first_of(&self, name: &str) -> Option<&'a Heading>
        ensures { option_map (λ h. heading_of h.now) result ≡ find (has_small_name name.now) self.now }
    {
        match self.first.get(name) {
            None => None,
            Some(heading) => Some(*heading),
        }
    }
}
