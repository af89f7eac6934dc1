// Numbers of types.

ghost use Rattle.std.specs.Prelude.{◌≡◌, [], ◌∷◌, IfOk};

use spec_core::memory::Memory;
use std::alloc::Global;
use std::marker::Model;

/// Numbers of types in their order, which a contract sees as the list of them.
#[derive(Drop)]
pub struct Numbers {
    numbers: Vec<usize>,
}

impl Model for Numbers {
    ghost use Rattle.std.specs.Prelude.{ℕ, List};

    ghost Value = { List ℕ };

    ghost view = { λ all. all.numbers.items };
}

impl Numbers {
    /// These numbers. It takes no memory.
    pub fn new(numbers: Vec<usize>) -> Numbers
        ensures { result ≡ numbers.items }
    {
        Numbers { numbers }
    }

    /// The numbers as a slice. It takes no memory.
    pub fn as_slice(&self) -> &[usize]
        ensures { result.now ≡ self.now }
    {
        self.numbers.as_slice()
    }

    /// An equal list.
    pub fn copy(&self, alloc: Global) -> Result<Numbers, Memory>
        ensures { IfOk result (λ all. all ≡ self.now) }
    {
        Ok(Numbers {
            numbers: Vec::from_slice(alloc, &self.numbers)?,
        })
    }

    /// A number, and behind it these.
    pub fn behind(&self, alloc: Global, first: usize) -> Result<Numbers, Memory>
        ensures { IfOk result (λ all. all ≡ first ∷ self.now) }
    {
        let mut numbers = Vec::new(alloc);
        numbers.push(first)?;
        numbers.extend_from_slice(&self.numbers)?;
        Ok(Numbers { numbers })
    }
}
