// Names, each once.

ghost use Rattle.std.specs.Prelude.{◌≡◌, ◌||◌, List, ℕ, not, false, IfOk, OnOk, map};
ghost use Rattle.std.specs.Str.{bytes_eq};
ghost use Rattle.type_contents.specs.Items.{small};
ghost use Rattle.type_names.specs.NameSets.{has, IsSetOf};

use indexmap::IndexSet;
use lotos_ast::token::Token;
use spec_core::memory::Memory;
use std::alloc::Global;
use type_contents::item::small;

/// Names, of which letters of ASCII are the same small or large.
#[derive(Drop)]
pub struct NameSet {
    // in small letters
    names: IndexSet<String>,
}

impl NameSet {
    /// No names. It takes no memory.
    pub fn new(alloc: Global) -> NameSet
        ensures { (text : List ℕ) → has result text ≡ false }
    {
        NameSet {
            names: IndexSet::new(alloc),
        }
    }

    /// These names.
    pub fn of(alloc: Global, names: &[&Token]) -> Result<NameSet, Memory>
        ensures { IfOk result (λ set. IsSetOf set (map (λ t. t.now) names.now)) }
    {
        let mut set = NameSet::new(alloc);
        for name in names {
            set.add(alloc, name)?;
        }
        Ok(set)
    }

    /// Adds a name. Whether it wasn't there.
    pub fn add(&mut self, alloc: Global, name: &Token) -> Result<bool, Memory>
        ensures new { IfOk result (λ new. new ≡ not (has self.old (small name.now))) }
        ensures names { OnOk result ((text : List ℕ) → has self.new text ≡ (has self.old text || bytes_eq (small name.now) text)) }
    {
        let new = self.names.insert(small(alloc, name)?)?;
        Ok(new)
    }

    /// Whether a name is there.
    pub fn has(&self, alloc: Global, name: &Token) -> Result<bool, Memory>
        ensures { IfOk result (λ found. found ≡ has self.now (small name.now)) }
    {
        let small = small(alloc, name)?;
        Ok(self.names.contains(small.as_str()))
    }
}
