// The names that a refusal carries.

ghost use Rattle.std.specs.Prelude.{◌≡◌, []};

use spec_core::name::Name;
use std::alloc::Global;
use std::marker::Model;

/// Names in their order, which a contract sees as the list of them.
#[derive(Drop)]
pub struct Names {
    names: Vec<Name>,
}

impl Model for Names {
    ghost use Rattle.std.specs.Prelude.{ℕ, List};

    ghost Value = { List (List ℕ) };

    ghost view = { λ all. all.names.items };
}

impl Names {
    /// These names. It takes no memory.
    pub fn new(names: Vec<Name>) -> Names
        ensures { result ≡ names.items }
    {
        Names { names }
    }

    /// No names. It takes no memory.
    pub fn none(alloc: Global) -> Names
        ensures { result ≡ [] }
    {
        Names {
            names: Vec::new(alloc),
        }
    }

    /// The names as a slice. It takes no memory.
    pub fn as_slice(&self) -> &[Name]
        ensures { result.now ≡ self.now }
    {
        self.names.as_slice()
    }

    /// The vector that the names stand in. It takes no memory.
    pub fn into_vec(self) -> Vec<Name>
        ensures { result.items ≡ self }
    {
        self.names
    }
}
