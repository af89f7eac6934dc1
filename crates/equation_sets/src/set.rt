// Sets of numbers below a bound.

ghost use Rattle.std.specs.Prelude.{ℕ, ◌≡◌, ◌↔◌, ◌<◌, ◌⊎◌, IfOk, IsTrue, length};
ghost use Rattle.equation_sets.specs.Members.{IsIn};

use spec_core::memory::Memory;
use std::alloc::Global;
use std::marker::Model;

/// A set of numbers below a bound. A contract sees it as a list with a flag for each number: whether it is in the set.
#[derive(Drop)]
pub struct NumberSet {
    flags: Vec<bool>,
}

impl Model for NumberSet {
    ghost use Rattle.std.specs.Prelude.{List, Bool};

    ghost Value = { List Bool };

    ghost view = { λ set. set.flags.items };
}

impl NumberSet {
    /// The empty set, for numbers below `bound`.
    pub fn new(alloc: Global, bound: usize) -> Result<NumberSet, Memory>
        ensures empty { IfOk result (λ set. (n : ℕ) → IsIn n set → ⊥) }
        ensures sized { IfOk result (λ set. length set ≡ bound) }
    {
        let mut flags = Vec::new(alloc);
        for _ in 0..bound {
            flags.push(false)?;
        }
        Ok(NumberSet { flags })
    }

    /// The bound below which the numbers of the set are. It takes no memory.
    pub fn bound(&self) -> usize
        ensures sized { result ≡ length self.now }
    {
        self.flags.len()
    }

    /// Whether a number is in the set. It takes no memory.
    pub fn has(&self, number: u32) -> bool
        ensures decides { IsTrue result ↔ IsIn number self.now }
    {
        let place = number as usize;
        place < self.flags.len() && self.flags[place]
    }

    /// Puts a number into the set, if it is below the bound. It takes no memory.
    pub fn add(&mut self, number: u32)
        ensures kept { (n : ℕ) → IsIn n self.old → IsIn n self.new }
        ensures only { (n : ℕ) → IsIn n self.new → IsIn n self.old ⊎ (n ≡ number) }
        ensures added { number < length self.old → IsIn number self.new }
        ensures sized { length self.new ≡ length self.old }
    {
        let place = number as usize;
        if place < self.flags.len() {
            self.flags[place] = true;
        }
    }
}
