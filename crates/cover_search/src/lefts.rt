// Equations by their left sides.

ghost use Rattle.std.specs.Prelude.{ℕ, ◌≡◌, ◌++◌, ◌∷◌, [], IfOk, OnOk, map, nat_eq, if◌then◌else◌};
ghost use Rattle.cover_search.specs.Heads.{headed_in};
ghost use Rattle.cover_search.specs.Lefts.{keyed_at, IsLeftIndexOf};
ghost use Rattle.spec_core.specs.Theories.{equation_of};
ghost use Rattle.type_images.specs.Groups as groups;

use crate::heads::Headed;
use indexmap::IndexMap;
use spec_core::equation::Equation;
use spec_core::memory::Memory;
use std::alloc::Global;
use type_images::key::key_of;

/// Equations by keys of their left sides; those with one left side, up to names of variables, have one key.
#[derive(Drop)]
pub struct LeftIndex<'a> {
    all: IndexMap<u64, Vec<Headed<'a>>>,
}

impl<'a> LeftIndex<'a> {
    /// The index of these equations.
    pub fn of(alloc: Global, equations: &'a [Equation]) -> Result<LeftIndex<'a>, Memory>
        ensures { IfOk result (λ index. IsLeftIndexOf index (map equation_of equations.now)) }
    {
        let mut index = LeftIndex {
            all: IndexMap::new(alloc),
        };
        for equation in equations {
            index.add_under(key_of(equation), equation)?;
        }
        Ok(index)
    }

    // Adds an equation of this key.
    fn add_under(&mut self, key: u64, equation: &'a Equation) -> Result<(), Memory>
        ensures { OnOk result ((k : ℕ) → keyed_at self.new k
            ≡ keyed_at self.old k ++ (if nat_eq k key then equation_of equation.now ∷ [] else [])) }
    {
        self.all.entry(key)?.or_default().push(Headed { equation })?;
        Ok(())
    }

    /// The equations whose left sides have the key of this equation's, in their order. It takes no memory.
    pub fn keyed_as(&self, equation: &Equation) -> Option<&[Headed<'a>]>
        ensures { headed_in result ≡ keyed_at self.now (groups.key_of (equation_of equation.now)) }
    {
        let key = key_of(equation);
        match self.all.get(&key) {
            None => None,
            Some(all) => Some(all),
        }
    }
}
