// Variables by their names.

ghost use Rattle.std.specs.Prelude.{◌≡◌, ◌-◌, ◌++◌, ◌∷◌, [], List, ℕ, OnOk, OnErr, length, take, bytes_eq, string_bytes, if◌then◌else◌};
ghost use Rattle.std.specs.List.{slice_get};
ghost use Rattle.sort_overloads.specs.Tables.{found_of, typed_variable};
ghost use Rattle.sort_overloads.specs.Variables.{variables_at};

use indexmap::IndexMap;
use spec_core::items::Sort;
use spec_core::memory::Memory;
use std::alloc::Global;

/// Variables with their numbers and sorts, by names in small letters.
#[derive(Drop)]
pub struct NamedVariables {
    by_name: IndexMap<String, Vec<(u32, Sort)>>,
}

impl NamedVariables {
    /// None. It takes no memory.
    pub fn new(alloc: Global) -> NamedVariables
        ensures { (name : List ℕ) → variables_at result name ≡ [] }
    {
        NamedVariables {
            by_name: IndexMap::new(alloc),
        }
    }

    /// Puts a variable behind those of its name. Where memory is wanting, nothing is put.
    pub fn add(&mut self, name: String, number: u32, sort: Sort) -> Result<(), Memory>
        ensures put { OnOk result ((other : List ℕ) → variables_at self.new other ≡ variables_at self.old other
            ++ (if bytes_eq other (string_bytes name) then typed_variable (number, sort) ∷ [] else [])) }
        ensures refused { OnErr result ((other : List ℕ) → variables_at self.new other ≡ variables_at self.old other) }
    {
        self.by_name.entry(name)?.or_default().push((number, sort))?;
        Ok(())
    }

    /// Removes the last variable of a name, if there is one. It takes no memory.
    pub fn remove_last(&mut self, name: &str)
        ensures { (other : List ℕ) → variables_at self.new other ≡ (if bytes_eq name.now other
            then take (length (variables_at self.old other) - 1) (variables_at self.old other) else variables_at self.old other) }
    {
        match self.by_name.get_mut(name) {
            None => {}
            Some(all) => {
                all.pop();
            }
        }
    }

    /// The number and the sort of the last variable of a name, if there is one. It takes no memory.
    pub fn last(&self, name: &str) -> Option<(u32, Sort)>
        ensures { found_of result
            ≡ slice_get (variables_at self.now name.now) (length (variables_at self.now name.now) - 1) }
    {
        match self.by_name.get(name) {
            None => None,
            Some(all) => match all.last() {
                None => None,
                Some(last) => Some(*last),
            },
        }
    }
}
