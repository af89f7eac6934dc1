// The operations of a signature by their names.

ghost use Rattle.std.specs.Prelude.{◌≡◌, ◌<◌, ◌^◌, ◌++◌, ◌∷◌, [], List, ℕ, IfOk, OnOk, map, length, bytes_eq, string_bytes, if◌then◌else◌};
ghost use Rattle.std.specs.Char.{to_ascii_lowercase};
ghost use Rattle.std.specs.List.{list_any};
ghost use Rattle.spec_core.specs.Theories.{Operation, operation_of};
ghost use Rattle.sort_overloads.specs.Indexes.{numbers_at, numbers_of, IsIndexOf};
ghost use Rattle.sort_overloads.specs.Listed.{is_same_name};

use indexmap::IndexMap;
use spec_core::memory::Memory;
use spec_core::signature::OpDecl;
use std::alloc::Global;

/// The numbers of operations by name, letters of ASCII without case.
#[derive(Drop)]
pub struct NameIndex {
    // by names in small letters
    numbers: IndexMap<String, Vec<u32>>,
}

impl NameIndex {
    /// The index of these operations.
    pub fn new(alloc: Global, operations: &[OpDecl]) -> Result<NameIndex, Memory>
        requires few { length operations.now < 2 ^ 32 }
        ensures index { IfOk result (λ index. IsIndexOf index (map operation_of operations.now)) }
    {
        let mut index = NameIndex {
            numbers: IndexMap::new(alloc),
        };
        for (i, operation) in operations.iter().enumerate() {
            let name = in_small_letters(alloc, operation.name.as_str())?;
            index.add(name, i as u32)?;
        }
        Ok(index)
    }

    // Adds the number of an operation of this name.
    fn add(&mut self, name: String, number: u32) -> Result<(), Memory>
        ensures { OnOk result ((other : List ℕ) →
            numbers_at self.new other ≡ numbers_at self.old other ++ (if bytes_eq other (string_bytes name) then number ∷ [] else [])) }
    {
        self.numbers.entry(name)?.or_default().push(number)?;
        Ok(())
    }

    /// The numbers of the operations of a name, ascending.
    pub fn numbers(&self, alloc: Global, name: &str) -> Result<&[u32], Memory>
        ensures numbers { IfOk result (λ numbers. numbers.now ≡ numbers_at self.now (map to_ascii_lowercase name.now)) }
    {
        let small = in_small_letters(alloc, name)?;
        match self.numbers.get(small.as_str()) {
            None => Ok(&[]),
            Some(numbers) => Ok(numbers),
        }
    }

    /// Whether an operation has the name.
    pub fn has(&self, alloc: Global, name: &str) -> Result<bool, Memory>
        ensures known { IfOk result (λ known. (operations : List Operation) → IsIndexOf self.now operations →
            known ≡ list_any (λ d. is_same_name d.name name.now) operations) }
    {
        let numbers = self.numbers(alloc, name)?;
        Ok(!numbers.is_empty())
    }
}

/// A text in small letters.
pub(crate) fn in_small_letters(alloc: Global, text: &str) -> Result<String, Memory>
    ensures { IfOk result (λ small. string_bytes small ≡ map to_ascii_lowercase text.now) }
{
    Ok(text.to_ascii_lowercase(alloc)?)
}
