// Variables in scope.

ghost use Rattle.std.specs.Prelude.{◌≡◌, map, string_bytes};
ghost use Rattle.std.specs.Char.{to_ascii_lowercase};

use crate::name_index::in_small_letters;
use crate::named_variables::NamedVariables;
use spec_core::items::Sort;
use spec_core::memory::Memory;
use spec_core::name::Name;
use std::alloc::Global;
use std::marker::Model;

/// A variable with its sort.
#[derive(Drop)]
pub struct Variable {
    /// Its name as it is declared.
    pub name: Name,
    /// Its sort.
    pub sort: Sort,
    // its name in small letters
    small: String,
    ghost in_small_letters: { string_bytes small ≡ map to_ascii_lowercase name },
}

/// Variables, of which a later one hides an earlier one of its name. The number of a variable is its place, from 0. There are fewer than
/// 2^32.
#[derive(Drop)]
pub struct Variables {
    // in order
    all: Vec<Variable>,
    // the same by their names
    named: NamedVariables,
}

impl Model for Variables {
    ghost use Rattle.std.specs.Prelude.{◌<◌, ◌^◌, List, map, length};
    ghost use Rattle.sort_overloads.specs.Readings.{Declared};
    ghost use Rattle.sort_overloads.specs.Variables.{declared_of, AreByName};

    ghost Value = { List Declared };

    ghost view = { λ s. map declared_of s.all.items };

    ghost invariant = { λ s. (length s.all.items < 2 ^ 32)
        × AreByName s.named (map declared_of s.all.items) };
}

impl Variables {
    ghost use Rattle.std.specs.Prelude.{◌≡◌, ◌<◌, ◌^◌, ◌-◌, ◌++◌, ◌∷◌, [], None, IfOk, OnOk, OnErr, length, map, take};
    ghost use Rattle.std.specs.List.{list_any};
    ghost use Rattle.sort_overloads.specs.Listed.{is_same_name, last_variable};
    ghost use Rattle.sort_overloads.specs.Tables.{found_of};
    ghost use Rattle.sort_overloads.specs.Variables.{declared_of};

    /// None. It takes no memory.
    pub fn new(alloc: Global) -> Variables
        ensures { result ≡ [] }
    {
        Variables {
            all: Vec::new(alloc),
            named: NamedVariables::new(alloc),
        }
    }

    /// Puts a variable behind those that are there. Want of memory is answered where there are 2^32 - 1, too; then nothing is put.
    pub fn push(&mut self, alloc: Global, name: Name, sort: Sort) -> Result<(), Memory>
        ensures put { OnOk result (self.new ≡ self.old ++ record { name = name; sort = sort.0 } ∷ []) }
        ensures refused { OnErr result (self.new ≡ self.old) }
    {
        if self.all.len() >= 4_294_967_295 {
            return Err(Memory);
        }
        let number = self.all.len() as u32;
        let small = in_small_letters(alloc, name.as_str())?;
        let key = small.clone()?;
        self.all.push(Variable { name, sort, small })?;
        match self.named.add(key, number, sort) {
            Ok(()) => Ok(()),
            Err(_) => {
                self.all.pop();
                Err(Memory)
            }
        }
    }

    // Removes the last one, if there is one.
    fn pop(&mut self)
        ensures { self.new ≡ take (length self.old - 1) self.old }
    {
        match self.all.pop() {
            None => {}
            Some(variable) => self.named.remove_last(variable.small.as_str()),
        }
    }

    /// Leaves the first ones alone. It takes no memory.
    pub fn truncate(&mut self, count: usize)
        ensures { self.new ≡ take count self.old }
    {
        while self.len() > count {
            self.pop();
        }
    }

    /// How many there are. It takes no memory.
    pub fn len(&self) -> usize
        ensures count { result ≡ length self.now }
        ensures bound { result < 2 ^ 32 }
    {
        self.all.len()
    }

    /// All of them, in order. It takes no memory.
    pub fn as_slice(&self) -> &[Variable]
        ensures all { map declared_of result.now ≡ self.now }
        ensures bound { length result.now < 2 ^ 32 }
    {
        &self.all
    }

    /// The number and the sort of the last variable of a name, if there is one.
    pub fn last_named(&self, alloc: Global, name: &str) -> Result<Option<(u32, Sort)>, Memory>
        ensures { IfOk result (λ found. found_of found ≡ last_variable name.now None 0 self.now) }
    {
        let small = in_small_letters(alloc, name)?;
        Ok(self.named.last(small.as_str()))
    }

    /// Whether a variable has the name.
    pub fn has(&self, alloc: Global, name: &str) -> Result<bool, Memory>
        ensures { IfOk result (λ known. known ≡ list_any (λ v. is_same_name v.name name.now) self.now) }
    {
        let found = self.last_named(alloc, name)?;
        Ok(found.is_some())
    }
}
